use crate::any_pending::{
    AnyPending, with_addressing, with_forwarded, with_listing, with_screened,
};
use address_rewrite::Addresses;
use filter_core::{Filter, Input, Move};
use kp_edge::NoMemory;
use std::alloc::Global;
use stock_filters::{ApiBlock, GroupLive, Narrow, ProduceAll, TopicDeny, TopicExists, TopicPolicy};
use tree_codec::Body;

/// Any of the filters. It does what the filter inside does.
#[derive(Drop)]
pub enum AnyFilter {
    Narrow(Narrow),
    ProduceAll(ProduceAll),
    TopicDeny(TopicDeny),
    ApiBlock(ApiBlock),
    TopicPolicy(TopicPolicy),
    TopicExists(TopicExists),
    GroupLive(GroupLive),
    Addresses(Addresses),
}

impl Filter for AnyFilter {
    ghost use Rattle.any_filter.specs.AnyTurn.{any_turn, any_stands};
    ghost use Rattle.any_filter.specs.AnyLaws.{any_lawful};

    type Pending = AnyPending;

    ghost turn = { any_turn };

    ghost stands = { any_stands };

    fn start(&self, alloc: Global, request: Body) -> Result<Move<AnyPending>, NoMemory> {
        match self {
            AnyFilter::Narrow(filter) => Ok(with_forwarded(filter.start(alloc, request)?)),
            AnyFilter::ProduceAll(filter) => Ok(with_forwarded(filter.start(alloc, request)?)),
            AnyFilter::TopicDeny(filter) => Ok(with_forwarded(filter.start(alloc, request)?)),
            AnyFilter::ApiBlock(filter) => Ok(with_forwarded(filter.start(alloc, request)?)),
            AnyFilter::TopicPolicy(filter) => with_screened(alloc, filter.start(alloc, request)?),
            AnyFilter::TopicExists(filter) => with_screened(alloc, filter.start(alloc, request)?),
            AnyFilter::GroupLive(filter) => with_listing(alloc, filter.start(alloc, request)?),
            AnyFilter::Addresses(filter) => Ok(with_addressing(filter.start(alloc, request)?)),
        }
    }

    // What another filter keeps can't come back to this one: no chain mixes them.
    fn resume(
        &self,
        alloc: Global,
        pending: AnyPending,
        input: Input,
    ) -> Result<Move<AnyPending>, NoMemory> {
        match (self, pending) {
            (AnyFilter::Narrow(filter), AnyPending::Forwarded(kept)) => {
                Ok(with_forwarded(filter.resume(alloc, kept, input)?))
            }
            (AnyFilter::ProduceAll(filter), AnyPending::Forwarded(kept)) => {
                Ok(with_forwarded(filter.resume(alloc, kept, input)?))
            }
            (AnyFilter::TopicDeny(filter), AnyPending::Forwarded(kept)) => {
                Ok(with_forwarded(filter.resume(alloc, kept, input)?))
            }
            (AnyFilter::ApiBlock(filter), AnyPending::Forwarded(kept)) => {
                Ok(with_forwarded(filter.resume(alloc, kept, input)?))
            }
            (AnyFilter::TopicPolicy(filter), AnyPending::Screened(kept)) => {
                with_screened(alloc, filter.resume(alloc, Box::into_inner(kept), input)?)
            }
            (AnyFilter::TopicExists(filter), AnyPending::Screened(kept)) => {
                with_screened(alloc, filter.resume(alloc, Box::into_inner(kept), input)?)
            }
            (AnyFilter::GroupLive(filter), AnyPending::Listing(kept)) => {
                with_listing(alloc, filter.resume(alloc, Box::into_inner(kept), input)?)
            }
            (AnyFilter::Addresses(filter), AnyPending::Addressing(kept)) => {
                Ok(with_addressing(filter.resume(alloc, kept, input)?))
            }
            _ => Err(NoMemory),
        }
    }

    ghost forwards_once = { λ filter. (any_lawful filter).forwards_once };

    ghost ends_after_six = { λ filter. (any_lawful filter).ends_after_six };

    ghost forwards_the_same = { λ filter. (any_lawful filter).forwards_the_same };

    ghost questions_are_answered = { λ filter. (any_lawful filter).questions_are_answered };

    ghost returns_an_answer = { λ filter. (any_lawful filter).returns_an_answer };
}
