use crate::sequence::Sequence;
use crate::{Address, FilterPlan};
use kp_edge::Blob;

/// One virtual cluster.
#[derive(Debug, Drop)]
pub struct ClusterPlan {
    pub name: Blob,
    /// The host that its ports are bound on.
    pub listen: Blob,
    /// The host that clients are told.
    pub advertise: Blob,
    /// The bootstrap port. The nodes' ports follow it.
    pub port: u16,
    /// The id of the first node, as the brokers know it. The others count on.
    pub first_node: i32,
    /// The broker behind the bootstrap port.
    pub bootstrap: Address,
    /// The broker of each node, in node order.
    pub nodes: Sequence<Address>,
    /// What the tenant's names begin with on the brokers.
    pub prefix: Option<Blob>,
    /// The filters in their order from the client.
    pub filters: Sequence<FilterPlan>,
    /// The names that `topic-policy` denies.
    pub policy_deny: Sequence<Blob>,
    /// The most requests of one connection that wait for a response.
    pub in_flight: u32,
    /// How many threads of one connection ask authorities.
    pub completers: u32,
    /// The most connections at one time.
    pub connections: u32,
}
