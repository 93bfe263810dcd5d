ghost use Rattle.std.specs.Prelude.{◌≡◌, IfOk};
ghost use Rattle.filter_core.specs.Acks.{acks_in};
ghost use Rattle.stock_filters.specs.ProduceAll.{is_one, with_all_acks};

use crate::forwarded::Forwarded;
use crate::produce::is_produce;
use filter_core::{Filter, Input, Move};
use kp_edge::NoMemory;
use std::alloc::Global;
use tree_codec::{Body, Item, Primitive};

/// `produce-all`: a Produce request that one replica is to acknowledge (acks 1) is acknowledged by all that are in
/// sync (acks -1).
#[derive(Drop)]
pub struct ProduceAll;

impl Filter for ProduceAll {
    ghost use Rattle.std.specs.Prelude.{◌≡◌, []};
    ghost use Rattle.filter_core.specs.Decision.{Forward};
    ghost use Rattle.filter_core.specs.TwoTurns.{handed_back};
    ghost use Rattle.stock_filters.specs.ProduceAll.{with_all_acks, produce_all, produce_all_keeps};
    ghost use Rattle.filter_core.specs.Lawful.{forwards_once, ends_after_six, forwards_the_same, questions_are_answered, returns_an_answer};

    type Pending = Forwarded;

    ghost turn = { λ _. produce_all };

    ghost stands = { λ _ _ _ inputs. inputs ≡ [] };

    fn start(&self, _alloc: Global, request: Body) -> Result<Move<Forwarded>, NoMemory> {
        Ok(Move::Forward(with_all_acks(request)?, Forwarded))
    }

    fn resume(
        &self,
        _alloc: Global,
        _pending: Forwarded,
        input: Input,
    ) -> Result<Move<Forwarded>, NoMemory> {
        Ok(Move::Return(input.into_response()))
    }

    ghost forwards_once = { λ _. forwards_once (λ request. Forward (with_all_acks request)) handed_back produce_all_keeps };

    ghost ends_after_six = { λ _. ends_after_six (λ request. Forward (with_all_acks request)) handed_back produce_all_keeps };

    ghost forwards_the_same = { λ _. forwards_the_same (λ request. Forward (with_all_acks request)) handed_back produce_all_keeps };

    ghost questions_are_answered = { λ _. questions_are_answered (λ request. Forward (with_all_acks request)) handed_back produce_all_keeps };

    ghost returns_an_answer = { λ _. returns_an_answer (λ request. Forward (with_all_acks request)) handed_back produce_all_keeps };
}

// The request as it goes on.
fn with_all_acks(mut request: Body) -> Result<Body, NoMemory>
    ensures { IfOk result (λ new. new ≡ with_all_acks request) }
{
    if !is_produce(&request) || !begins_with_one(request.items()) {
        return Ok(request);
    }
    request.is_tree();
    match request.set(&[1], Item::Number(-1)) {
        Ok(()) => Ok(request),
        Err(_) => Err(NoMemory),
    }
}

// Whether acks, the second field, is 1.
fn begins_with_one(items: &[Primitive]) -> bool
    ensures { result ≡ is_one (acks_in items.now) }
{
    match items {
        [_, Primitive::Int16(acks), ..] => *acks == 1,
        _ => false,
    }
}
