ghost use Rattle.std.specs.Prelude.{◌≡◌, IfOk};
ghost use Rattle.stock_filters.specs.Narrow.{narrowed_response};

use crate::forwarded::Forwarded;
use filter_core::{Filter, Input, Move};
use kp_edge::NoMemory;
use std::alloc::Global;
use tree_codec::Body;

// The key of ApiVersions.
const API_VERSIONS: i16 = 18;

/// Of a broker's response to ApiVersions pass the versions that both the broker and the proxy know. Every chain
/// begins with it.
#[derive(Drop)]
pub struct Narrow;

impl Filter for Narrow {
    ghost use Rattle.std.specs.Prelude.{◌≡◌, []};
    ghost use Rattle.filter_core.specs.Decision.{Forward};
    ghost use Rattle.stock_filters.specs.Narrow.{narrow, narrowed_back, narrow_keeps};
    ghost use Rattle.filter_core.specs.Lawful.{forwards_once, ends_after_six, forwards_the_same, questions_are_answered, returns_an_answer};

    type Pending = Forwarded;

    ghost turn = { λ _. narrow };

    ghost stands = { λ _ _ _ inputs. inputs ≡ [] };

    fn start(&self, _alloc: Global, request: Body) -> Result<Move<Forwarded>, NoMemory> {
        Ok(Move::Forward(request, Forwarded))
    }

    fn resume(
        &self,
        alloc: Global,
        _pending: Forwarded,
        input: Input,
    ) -> Result<Move<Forwarded>, NoMemory> {
        match input.into_response() {
            Some(response) => Ok(Move::Return(Some(narrowed(alloc, response)?))),
            None => Ok(Move::Return(None)),
        }
    }

    ghost forwards_once = { λ _. forwards_once Forward narrowed_back narrow_keeps };

    ghost ends_after_six = { λ _. ends_after_six Forward narrowed_back narrow_keeps };

    ghost forwards_the_same = { λ _. forwards_the_same Forward narrowed_back narrow_keeps };

    ghost questions_are_answered = { λ _. questions_are_answered Forward narrowed_back narrow_keeps };

    ghost returns_an_answer = { λ _. returns_an_answer Forward narrowed_back narrow_keeps };
}

// The response as it passes.
fn narrowed(alloc: Global, response: Body) -> Result<Body, NoMemory>
    ensures { IfOk result (λ new. new ≡ narrowed_response response) }
{
    if response.key() != API_VERSIONS {
        return Ok(response);
    }
    match api_versions::narrow(alloc, response) {
        Ok(new) => Ok(new),
        Err(_) => Err(NoMemory),
    }
}
