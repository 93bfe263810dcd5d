ghost use Rattle.std.specs.Prelude.{◌≡◌, ◌≤◌, length, IfOk, ⊤};
ghost use Rattle.filter_core.specs.Decision.{Makes};
ghost use Rattle.filter_probes.specs.Grown.{grown};

use crate::growth::Growth;
use crate::messages::{is_message, sync_group, sync_group_response};
use bytes::Bytes;
use filter_core::{Filter, Input, Move};
use kp_edge::NoMemory;
use std::alloc::Global;
use tree_codec::Body;

/// What [`Grows`] keeps of a request that it forwarded: nothing.
#[derive(Debug, Drop)]
pub struct Growing;

/// A filter that knows SyncGroup of version 0. It forwards another such request, of group `g`, generation 1 and member
/// `m`, with one assignment, whose member is empty and whose bytes are the payload. Or it answers at once without an
/// error, and with the payload. What else comes passes as it came.
///
/// The payload's bytes are shared, and are copied where a message is spelled.
#[derive(Drop)]
pub struct Grows {
    growth: Growth,
    payload: Bytes,
    ghost payload_fits: { length payload ≤ 2147483647 },
}

impl Grows {
    ghost use Rattle.filter_probes.specs.Grown.{growing};

    /// An INT32 says the length of the payload ("Protocol Primitive Types": BYTES).
    pub fn by(growth: Growth, payload: Bytes) -> Grows
        requires { length payload ≤ 2147483647 }
        ensures { ⟦<Grows as Filter>⟧.turn result ≡ growing growth payload }
    {
        Grows { growth, payload }
    }

    fn grown(&self, alloc: Global) -> Result<Move<Growing>, NoMemory>
        ensures { IfOk result (λ made. Makes (λ _. ⊤) (grown self.now.growth self.now.payload) made) }
    {
        let payload = match self.payload.clone() {
            Ok(payload) => payload,
            Err(_) => return Err(NoMemory),
        };
        match self.growth {
            Growth::Sends => Ok(Move::Forward(sync_group(alloc, payload)?, Growing)),
            Growth::Responses => Ok(Move::Return(Some(sync_group_response(alloc, payload)?))),
        }
    }
}

impl Filter for Grows {
    ghost use Rattle.std.specs.Prelude.{◌≡◌, []};
    ghost use Rattle.filter_core.specs.TwoTurns.{handed_back};
    ghost use Rattle.filter_core.specs.Lawful.{forwards_once, ends_after_six, forwards_the_same, questions_are_answered, returns_an_answer};
    ghost use Rattle.filter_probes.specs.Grown.{growing, grown_or_itself, growing_keeps};

    type Pending = Growing;

    ghost turn = { λ filter. growing filter.growth filter.payload };

    ghost stands = { λ _ _ _ inputs. inputs ≡ [] };

    fn start(&self, alloc: Global, request: Body) -> Result<Move<Growing>, NoMemory> {
        if is_message(&request, 14, 0) {
            self.grown(alloc)
        } else {
            Ok(Move::Forward(request, Growing))
        }
    }

    fn resume(
        &self,
        _alloc: Global,
        _pending: Growing,
        input: Input,
    ) -> Result<Move<Growing>, NoMemory> {
        Ok(Move::Return(input.into_response()))
    }

    ghost forwards_once = { λ filter. forwards_once (grown_or_itself filter.growth filter.payload) handed_back (growing_keeps filter.growth filter.payload filter.payload_fits) };

    ghost ends_after_six = { λ filter. ends_after_six (grown_or_itself filter.growth filter.payload) handed_back (growing_keeps filter.growth filter.payload filter.payload_fits) };

    ghost forwards_the_same = { λ filter. forwards_the_same (grown_or_itself filter.growth filter.payload) handed_back (growing_keeps filter.growth filter.payload filter.payload_fits) };

    ghost questions_are_answered = { λ filter. questions_are_answered (grown_or_itself filter.growth filter.payload) handed_back (growing_keeps filter.growth filter.payload filter.payload_fits) };

    ghost returns_an_answer = { λ filter. returns_an_answer (grown_or_itself filter.growth filter.payload) handed_back (growing_keeps filter.growth filter.payload filter.payload_fits) };
}
