ghost use Rattle.std.specs.Prelude.{◌≡◌, ℤ, map};
ghost use Rattle.std.specs.List.{All};
ghost use Rattle.tree_spelling.specs.Body.{Contents};
ghost use Rattle.virtual_cluster.specs.declared.plan.ClusterPlan.{ClusterPlan};
ghost use Rattle.virtual_cluster.specs.Limits.{IsValid};
ghost use Rattle.filter_core.specs.Laws.{IsLawful};
ghost use Rattle.address_rewrite.specs.Nodes.{NodeAddress};
ghost use Rattle.address_rewrite.specs.Addresses.{addresses};
ghost use Rattle.address_rewrite.specs.AtProxy.{nodes_of, advertised, IsGivenBack, IsAtProxy, AreTargetsElsewhere, IsAtNoTarget};
ghost use Rattle.address_rewrite.specs.AddressFields.{AreOfBrokers, metadata_versions, IsOfCoordinator, coordinator_versions};

/// Law: where nodes are in what goes back to clients. It has an empty body.
pub fn addresses_law()
    // The five laws of a filter.
    ensures lawful { (plan : ClusterPlan) → IsValid plan → IsLawful (addresses plan) }

    // Each node is where the plan advertises it, in the broker's order.
    ensures nodes { (plan : ClusterPlan) (response back : Contents) → IsGivenBack plan response back
        → nodes_of back ≡ map (advertised plan) (nodes_of response) }

    // Each node but a negative one is at the proxy.
    ensures at_proxy { (plan : ClusterPlan) (response back : Contents) → IsGivenBack plan response back
        → All (IsAtProxy plan) (nodes_of back) }

    // Each node but a negative one is at no target, where no target is at the proxy.
    ensures at_no_target { (plan : ClusterPlan) (response back : Contents) → IsGivenBack plan response back
        → AreTargetsElsewhere plan → All (IsAtNoTarget plan) (nodes_of back) }
{}

/// Law: which fields of a response are addresses, by version, and that no other field is changed. It has an empty body.
pub fn nodes_law()
    ensures metadata { All AreOfBrokers metadata_versions }
    ensures find_coordinator { All IsOfCoordinator coordinator_versions }
{}
