ghost use Rattle.std.specs.Prelude.{◌≡◌, true, length};
ghost use Rattle.std.specs.List.{list_all};
ghost use Rattle.std.specs.Option.{option_map_or};
ghost use Rattle.virtual_cluster.specs.Limits.{is_in_range, is_label_byte, is_label, is_host_byte, is_host, is_first_node, are_nodes, are_denied, first_broken, broken_limit, has_ports};

use crate::{Address, ClusterPlan, LimitKey};
use kp_edge::Blob;

fn is_in_range(least: usize, most: usize, n: usize) -> bool
    ensures { result ≡ is_in_range least most n }
{
    least <= n && n <= most
}

fn is_label_byte(byte: u8) -> bool
    ensures { result ≡ is_label_byte byte }
{
    (b'a' <= byte && byte <= b'z')
        || (b'A' <= byte && byte <= b'Z')
        || (b'0' <= byte && byte <= b'9')
        || byte == b'.'
        || byte == b'_'
        || byte == b'-'
}

// Whether each byte may be in a name or a prefix.
fn are_label_bytes(bytes: &[u8]) -> bool
    ensures { result ≡ list_all is_label_byte bytes.now }
{
    for byte in bytes {
        if !is_label_byte(*byte) {
            return false;
        }
    }
    true
}

#[tactic(auto, unfolding(crate::specs::Limits::is_label))]
fn is_label(name: &[u8]) -> bool
    ensures { result ≡ is_label name.now }
{
    is_in_range(1, 64, name.len()) && are_label_bytes(name)
}

fn is_host_byte(byte: u8) -> bool
    ensures { result ≡ is_host_byte byte }
{
    33 <= byte && byte != b':'
}

// Whether each byte may be in a host.
fn are_host_bytes(bytes: &[u8]) -> bool
    ensures { result ≡ list_all is_host_byte bytes.now }
{
    for byte in bytes {
        if !is_host_byte(*byte) {
            return false;
        }
    }
    true
}

#[tactic(auto, unfolding(crate::specs::Limits::is_host))]
fn is_host(host: &[u8]) -> bool
    ensures { result ≡ is_host host.now }
{
    is_in_range(1, 255, host.len()) && are_host_bytes(host)
}

fn is_first_node(node: i32) -> bool
    ensures { result ≡ is_first_node node }
{
    0 <= node && node <= 2_147_483_000
}

// Whether each node has a host.
fn are_at_hosts(nodes: &[Address]) -> bool
    ensures { result ≡ list_all (λ node. is_host node.host) nodes.now }
{
    for node in nodes {
        if !is_host(node.host.as_slice()) {
            return false;
        }
    }
    true
}

#[tactic(auto, unfolding(crate::specs::Limits::are_nodes))]
fn are_nodes(nodes: &[Address]) -> bool
    ensures { result ≡ are_nodes nodes.now }
{
    is_in_range(1, 64, nodes.len()) && are_at_hosts(nodes)
}

// Whether each is as long as a topic's name may be.
fn are_denied_names(names: &[Blob]) -> bool
    ensures { result ≡ list_all (λ name. is_in_range 1 249 (length name)) names.now }
{
    for name in names {
        if !is_in_range(1, 249, name.len()) {
            return false;
        }
    }
    true
}

#[tactic(auto, unfolding(crate::specs::Limits::are_denied))]
fn are_denied(names: &[Blob]) -> bool
    ensures { result ≡ are_denied names.now }
{
    names.len() <= 1_024 && are_denied_names(names)
}

fn is_prefix(prefix: &Option<Blob>) -> bool
    ensures { result ≡ option_map_or is_label prefix.now true }
{
    match prefix {
        Some(prefix) => is_label(prefix.as_slice()),
        None => true,
    }
}

/// The first key whose limit the plan breaks.
#[tactic(auto, unfolding(crate::specs::Limits::broken_limit))]
pub fn broken_limit(plan: &ClusterPlan) -> Option<LimitKey>
    ensures { result ≡ broken_limit plan.now }
{
    let limits = [
        (LimitKey::Name, is_label(plan.name.as_slice())),
        (LimitKey::Listen, is_host(plan.listen.as_slice())),
        (LimitKey::Advertise, is_host(plan.advertise.as_slice())),
        (LimitKey::FirstNode, is_first_node(plan.first_node)),
        (LimitKey::Bootstrap, is_host(plan.bootstrap.host.as_slice())),
        (LimitKey::Nodes, are_nodes(plan.nodes.as_slice())),
        (LimitKey::Prefix, is_prefix(&plan.prefix)),
        (LimitKey::Filters, plan.filters.len() <= 8),
        (
            LimitKey::PolicyDeny,
            are_denied(plan.policy_deny.as_slice()),
        ),
        (
            LimitKey::InFlight,
            is_in_range(1, 64, plan.in_flight as usize),
        ),
        (
            LimitKey::Completers,
            is_in_range(1, 4, plan.completers as usize),
        ),
        (
            LimitKey::Connections,
            is_in_range(1, 1_024, plan.connections as usize),
        ),
    ];
    first_broken(&limits)
}

fn first_broken(limits: &[(LimitKey, bool)]) -> Option<LimitKey>
    ensures { result ≡ first_broken limits.now }
{
    limits.iter().find(|limit| !limit.1).map(|limit| limit.0)
}

/// Whether all ports of the plan are TCP ports.
pub fn has_ports(plan: &ClusterPlan) -> bool
    ensures { result ≡ has_ports plan.now }
{
    1 <= plan.port && plan.nodes.len() <= 65_535 - plan.port as usize
}
