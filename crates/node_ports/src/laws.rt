ghost use Rattle.std.specs.Prelude.{◌≡◌, ℕ, ℤ, Some};
ghost use Rattle.virtual_cluster.specs.declared.plan.ClusterPlan.{ClusterPlan};
ghost use Rattle.node_ports.specs.Ports.{node_port, port_role};
ghost use Rattle.node_ports.specs.declared.PortRole.TheVariants.{Node};

/// Law: a port's role is a node exactly where the port is that node's. It has an empty body.
pub fn port_law()
    ensures of_port { (plan : ClusterPlan) (node : ℤ) (port : ℕ) →
        node_port plan node ≡ Some port → port_role plan port ≡ Some (Node node) }
    ensures of_role { (plan : ClusterPlan) (node : ℤ) (port : ℕ) →
        port_role plan port ≡ Some (Node node) → node_port plan node ≡ Some port }
{}
