ghost use Rattle.std.specs.Prelude.{◌≡◌, ◌≤◌, ◌<◌, length, vec_len, slice_get, Some, IfOk, IfSome, All};
ghost use Rattle.std.specs.List.{position_from};
ghost use Rattle.std.specs.Str.{bytes_eq};
ghost use Rattle.virtual_cluster.specs.Limits.{IsValid};
ghost use Rattle.virtual_cluster.specs.Pairs.{plans_fault, checked_plans, plan_named, AreSound, ArePrefixesApart};

use crate::pairs::{first_own_fault, first_pair_fault};
use crate::sequence::Sequence;
use crate::{ClusterPlan, PlanFault};
use std::marker::Model;

/// Plans that can be served side by side. Contracts see the list of them.
#[derive(Debug, Drop)]
pub struct Plans {
    list: Sequence<ClusterPlan>,
}

impl Model for Plans {
    ghost use Rattle.std.specs.Prelude.{List};
    ghost use Rattle.virtual_cluster.specs.Pairs.{AreSound};
    ghost use Rattle.virtual_cluster.specs.declared.plan.ClusterPlan.{ClusterPlan};

    ghost Value = { List ClusterPlan };

    ghost view = { λ plans. plans.list };

    ghost invariant = { λ plans. AreSound plans.list };
}

impl Plans {
    /// The plans, or their first fault. It takes no memory.
    pub fn new(list: Vec<ClusterPlan>) -> Result<Plans, PlanFault>
        requires some { 1 ≤ vec_len list }
        requires few { vec_len list ≤ 64 }
        ensures checked { result ≡ checked_plans list.items }
        ensures valid { IfOk result (λ plans. All IsValid plans) }
        ensures apart { IfOk result (λ plans. ArePrefixesApart plans) }
    {
        let fault = plans_fault(list.as_slice());
        match fault {
            Some(fault) => Err(fault),
            None => Ok(Plans {
                list: Sequence::from_vec(list),
            }),
        }
    }

    pub fn list(&self) -> &[ClusterPlan]
        ensures same { result.now ≡ self.now }
        ensures sound { AreSound result.now }
        ensures valid { All IsValid result.now }
        ensures apart { ArePrefixesApart result.now }
    {
        self.list.as_slice()
    }

    /// The plan with that name, taken out of the list.
    pub fn into_named(self, name: &[u8]) -> Option<ClusterPlan>
        ensures named { result ≡ plan_named name.now self }
        ensures valid { IfSome result IsValid }
    {
        match number_of(self.list.as_slice(), name) {
            Some(number) => Some(taken(self.list.into_vec(), number as usize)),
            None => None,
        }
    }

    /// The number of the plan with that name.
    pub fn named(&self, name: &[u8]) -> Option<u32>
        ensures { result ≡ position_from (λ plan. bytes_eq plan.name name.now) 0 self.now }
    {
        number_of(self.list.as_slice(), name)
    }
}

#[tactic(auto, unfolding(crate::specs::Pairs::plans_fault))]
fn plans_fault(plans: &[ClusterPlan]) -> Option<PlanFault>
    requires { length plans.now ≤ 64 }
    ensures { result ≡ plans_fault plans.now }
{
    match first_own_fault(plans) {
        Some(fault) => Some(fault),
        None => first_pair_fault(plans),
    }
}

// The number of the plan with that name.
fn number_of(plans: &[ClusterPlan], name: &[u8]) -> Option<u32>
    requires { length plans.now ≤ 64 }
    ensures { result ≡ position_from (λ plan. bytes_eq plan.name name.now) 0 plans.now }
{
    for a in 0..plans.len() {
        if plans[a].name.as_slice() == name {
            return Some(a as u32);
        }
    }
    None
}

// The plan with that number, out of the list.
fn taken(mut list: Vec<ClusterPlan>, number: usize) -> ClusterPlan
    requires { number < length list.items }
    ensures { slice_get list.items number ≡ Some result }
{
    list.swap_remove(number)
}
