ghost use Rattle.std.specs.Prelude.{◌≡◌, ◌++◌, None, map, OnOk, IfOk};
ghost use Rattle.virtual_cluster.specs.Limits.{IsValid};
ghost use Rattle.any_filter.specs.Chains.{filter_turn, cluster_chain};

use crate::any_filter::AnyFilter;
use address_rewrite::Addresses;
use filter_core::Filter;
use kp_edge::{Blob, NoMemory};
use std::alloc::Global;
use stock_filters::{ApiBlock, GroupLive, Narrow, ProduceAll, TopicDeny, TopicExists, TopicPolicy};
use virtual_cluster::{ClusterPlan, FilterPlan};

/// The filters of a plan, from the client to the broker. A plan whose names have a prefix has no chain yet.
pub fn chain_of(alloc: Global, plan: &ClusterPlan) -> Result<Vec<AnyFilter>, NoMemory>
    requires valid { IsValid plan.now }
    requires unprefixed { plan.now.prefix ≡ None }
    ensures { IfOk result (λ chain. map (⟦<AnyFilter as Filter>⟧.turn) chain.items ≡ cluster_chain plan.now) }
{
    let mut chain = Vec::new(alloc);
    chain.push(AnyFilter::Narrow(Narrow))?;
    push_filters(alloc, &mut chain, plan.filters.as_slice())?;
    chain.push(AnyFilter::Addresses(Addresses::new(alloc, plan)?))?;
    Ok(chain)
}

fn push_filters(
    alloc: Global,
    chain: &mut Vec<AnyFilter>,
    plans: &[FilterPlan],
) -> Result<(), NoMemory>
    ensures { OnOk result (map (⟦<AnyFilter as Filter>⟧.turn) chain.new.items
        ≡ map (⟦<AnyFilter as Filter>⟧.turn) chain.old.items ++ map filter_turn plans.now) }
{
    for plan in plans {
        chain.push(filter_of(alloc, plan)?)?;
    }
    Ok(())
}

// The filter that a word of a configuration asks for.
fn filter_of(alloc: Global, plan: &FilterPlan) -> Result<AnyFilter, NoMemory>
    ensures { IfOk result (λ filter. ⟦<AnyFilter as Filter>⟧.turn filter ≡ filter_turn plan.now) }
{
    match plan {
        FilterPlan::ProduceAll => Ok(AnyFilter::ProduceAll(ProduceAll)),
        FilterPlan::TopicDeny(topics) => {
            let topics = copied_names(alloc, topics.as_slice())?;
            Ok(AnyFilter::TopicDeny(TopicDeny { topics }))
        }
        FilterPlan::ApiBlock(keys) => {
            let keys = Vec::from_slice(alloc, keys.as_slice())?;
            Ok(AnyFilter::ApiBlock(ApiBlock { keys }))
        }
        FilterPlan::TopicPolicy => Ok(AnyFilter::TopicPolicy(TopicPolicy)),
        FilterPlan::TopicExists => Ok(AnyFilter::TopicExists(TopicExists)),
        FilterPlan::GroupLive => Ok(AnyFilter::GroupLive(GroupLive)),
    }
}

fn copied_names(alloc: Global, names: &[Blob]) -> Result<Vec<Blob>, NoMemory>
    ensures { IfOk result (λ copied. copied.items ≡ names.now) }
{
    let mut copied = Vec::new(alloc);
    for name in names {
        copied.push(Blob::copy(alloc, name.as_slice())?)?;
    }
    Ok(copied)
}
