ghost use Rattle.std.specs.Prelude.{◌≡◌, ◌+◌, ◌<◌, ◌≤◌, length, nat_le};
ghost use Rattle.std.specs.List.{list_any};
ghost use Rattle.virtual_cluster.specs.Pairs.{have_port_in_common, is_same_address, leads_to, share_target, prefix_of, prefixes_clash, own_fault, pair_fault, first_own_fault, first_fault_with, first_pair_fault};

use crate::limits::{broken_limit, has_ports};
use crate::names::begins;
use crate::{Address, ClusterPlan, PlanFault};

fn have_port_in_common(p: &ClusterPlan, q: &ClusterPlan) -> bool
    ensures { result ≡ have_port_in_common p.now q.now }
{
    let (first, other) = (p.port as usize, q.port as usize);
    is_at_most(first, other, q.nodes.len()) && is_at_most(other, first, p.nodes.len())
}

// Whether the port is at most `nodes` behind the other.
fn is_at_most(port: usize, other: usize, nodes: usize) -> bool
    ensures { result ≡ nat_le port (other + nodes) }
{
    port.saturating_sub(other) <= nodes
}

fn is_same_address(a: &Address, b: &Address) -> bool
    ensures { result ≡ is_same_address a.now b.now }
{
    a.host.as_slice() == b.host.as_slice() && a.port == b.port
}

// Whether the address is one of these.
fn is_among(nodes: &[Address], address: &Address) -> bool
    ensures { result ≡ list_any (λ target. is_same_address target address.now) nodes.now }
{
    for node in nodes {
        if is_same_address(node, address) {
            return true;
        }
    }
    false
}

fn leads_to(plan: &ClusterPlan, address: &Address) -> bool
    ensures { result ≡ leads_to plan.now address.now }
{
    is_same_address(&plan.bootstrap, address) || is_among(plan.nodes.as_slice(), address)
}

// Whether the plan leads to one of these.
fn leads_to_any(plan: &ClusterPlan, nodes: &[Address]) -> bool
    ensures { result ≡ list_any (λ target. leads_to plan.now target) nodes.now }
{
    for node in nodes {
        if leads_to(plan, node) {
            return true;
        }
    }
    false
}

#[tactic(auto, unfolding(crate::specs::Pairs::share_target))]
fn share_target(p: &ClusterPlan, q: &ClusterPlan) -> bool
    ensures { result ≡ share_target p.now q.now }
{
    leads_to(q, &p.bootstrap) || leads_to_any(q, p.nodes.as_slice())
}

fn prefix_of(plan: &ClusterPlan) -> &[u8]
    ensures { result.now ≡ prefix_of plan.now }
{
    match &plan.prefix {
        Some(prefix) => prefix.as_slice(),
        None => &[],
    }
}

fn prefixes_clash(p: &ClusterPlan, q: &ClusterPlan) -> bool
    ensures { result ≡ prefixes_clash p.now q.now }
{
    let (first, other) = (prefix_of(p), prefix_of(q));
    (p.prefix.is_some() || q.prefix.is_some())
        && (begins(first, other) || begins(other, first))
        && share_target(p, q)
}

#[tactic(auto, unfolding(crate::specs::Pairs::own_fault))]
fn own_fault(a: u32, plan: &ClusterPlan) -> Option<PlanFault>
    ensures { result ≡ own_fault a plan.now }
{
    match broken_limit(plan) {
        Some(key) => Some(PlanFault::BadLimit { a, key }),
        None => {
            if has_ports(plan) {
                None
            } else {
                Some(PlanFault::PortRange { a })
            }
        }
    }
}

#[tactic(auto, unfolding(crate::specs::Pairs::pair_fault))]
fn pair_fault(a: u32, p: &ClusterPlan, b: u32, q: &ClusterPlan) -> Option<PlanFault>
    ensures { result ≡ pair_fault a p.now b q.now }
{
    if p.name.as_slice() == q.name.as_slice() {
        return Some(PlanFault::NameTwice { a, b });
    }
    if have_port_in_common(p, q) {
        return Some(PlanFault::PortClash { a, b });
    }
    if prefixes_clash(p, q) {
        return Some(PlanFault::PrefixClash { a, b });
    }
    None
}

/// The first fault that a plan has alone.
pub fn first_own_fault(plans: &[ClusterPlan]) -> Option<PlanFault>
    requires { length plans.now ≤ 64 }
    ensures { result ≡ first_own_fault 0 plans.now }
{
    for a in 0..plans.len() {
        let fault = own_fault(a as u32, &plans[a]);
        if fault.is_some() {
            return fault;
        }
    }
    None
}

// The first fault of plan `a` with one behind it.
fn first_fault_with(a: u32, plan: &ClusterPlan, others: &[ClusterPlan]) -> Option<PlanFault>
    requires { a + length others.now < 64 }
    ensures { result ≡ first_fault_with a plan.now (a + 1) others.now }
{
    for i in 0..others.len() {
        let fault = pair_fault(a, plan, a + 1 + i as u32, &others[i]);
        if fault.is_some() {
            return fault;
        }
    }
    None
}

/// The first fault of a pair.
pub fn first_pair_fault(plans: &[ClusterPlan]) -> Option<PlanFault>
    requires { length plans.now ≤ 64 }
    ensures { result ≡ first_pair_fault 0 plans.now }
{
    for a in 0..plans.len() {
        let fault = first_fault_with(a as u32, &plans[a], &plans[a + 1..]);
        if fault.is_some() {
            return fault;
        }
    }
    None
}
