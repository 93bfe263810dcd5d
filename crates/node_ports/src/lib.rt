//! The ports of a virtual cluster, and where each leads.
//!
//! ```text
//!   node n  <-- role_of --  port + 1 + (n - first_node)
//!   node n  --- port_of ->  port + 1 + (n - first_node)
//!           --- target_of -> nodes[n - first_node]
//! ```
//!
//! The bootstrap port is the plan's port. The calls take valid plans and no memory. No port is opened here.
#![tactic(auto)]

ghost use Rattle.std.specs.Prelude.{◌≡◌, ℤ, ℕ, ◌↔◌, ◌<◌, ◌^◌, Some, option_copied};
ghost use Rattle.virtual_cluster.specs.Limits.{IsValid};
ghost use Rattle.virtual_cluster.specs.declared.plan.ClusterPlan.{ClusterPlan};
ghost use Rattle.node_ports.specs.Ports.{node_index, node_port, port_role, role_target};
ghost use Rattle.node_ports.specs.declared.PortRole.{PortRole};

mod laws;
#[cfg(test)]
mod tests;

pub use laws::port_law;
use virtual_cluster::{Address, ClusterPlan};

/// What a port is for.
#[derive(Clone, Copy, Debug, PartialEq, Eq)]
pub enum PortRole {
    Bootstrap,
    /// The node with that id.
    Node(i32),
}

// How far the node is behind the first one.
fn node_index(plan: &ClusterPlan, node: i32) -> Option<usize>
    requires { IsValid plan.now }
    ensures { result ≡ node_index plan.now node }
{
    if node < plan.first_node {
        return None;
    }
    let index = (node as i64 - plan.first_node as i64) as usize;
    if index < plan.nodes.len() {
        Some(index)
    } else {
        None
    }
}

/// The port of a node: none for a node that the plan doesn't have.
pub fn port_of(plan: &ClusterPlan, node: i32) -> Option<u16>
    requires { IsValid plan.now }
    ensures { result ≡ node_port plan.now node }
{
    let index = node_index(plan, node)?;
    Some((plan.port as usize + 1 + index) as u16)
}

/// What a port of the plan is for: none for another plan's port.
pub fn role_of(plan: &ClusterPlan, port: u16) -> Option<PortRole>
    requires { IsValid plan.now }
    ensures { result ≡ port_role plan.now port }
{
    if port < plan.port {
        return None;
    }
    let behind = (port - plan.port) as usize;
    if behind == 0 {
        return Some(PortRole::Bootstrap);
    }
    if behind <= plan.nodes.len() {
        Some(PortRole::Node(plan.first_node + (behind - 1) as i32))
    } else {
        None
    }
}

/// The broker that a role leads to.
pub fn target_of(plan: &ClusterPlan, role: PortRole) -> Option<&Address>
    requires { IsValid plan.now }
    ensures { option_copied result ≡ role_target plan.now role }
{
    match role {
        PortRole::Bootstrap => Some(&plan.bootstrap),
        PortRole::Node(node) => {
            let index = node_index(plan, node)?;
            plan.nodes.as_slice().get(index)
        }
    }
}
