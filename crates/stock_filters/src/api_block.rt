ghost use Rattle.std.specs.Prelude.{◌≡◌, IsTrue};
ghost use Rattle.stock_filters.specs.ApiBlock.{is_blocked};

use crate::forwarded::Forwarded;
use filter_core::{Filter, Input, Move, Reason};
use kp_edge::NoMemory;
use std::alloc::Global;
use tree_codec::Body;

/// `api-block`: a request for one of these APIs shuts the connection, with the API's key as the code.
#[derive(Drop)]
pub struct ApiBlock {
    pub keys: Vec<i16>,
}

impl Filter for ApiBlock {
    ghost use Rattle.std.specs.Prelude.{◌≡◌, []};
    ghost use Rattle.filter_core.specs.TwoTurns.{handed_back};
    ghost use Rattle.stock_filters.specs.ApiBlock.{block, api_block, api_block_keeps};
    ghost use Rattle.filter_core.specs.Lawful.{forwards_once, ends_after_six, forwards_the_same, questions_are_answered, returns_an_answer};

    type Pending = Forwarded;

    ghost turn = { λ filter. api_block filter.keys.items };

    ghost stands = { λ _ _ _ inputs. inputs ≡ [] };

    fn start(&self, _alloc: Global, request: Body) -> Result<Move<Forwarded>, NoMemory> {
        let key = request.key();
        if !self.lists(key) {
            return Ok(Move::Forward(request, Forwarded));
        }
        match u16::try_from(key) {
            Ok(code) => Ok(Move::Shut(Reason::Code(code))),
            Err(_) => Ok(Move::Forward(request, Forwarded)),
        }
    }

    fn resume(
        &self,
        _alloc: Global,
        _pending: Forwarded,
        input: Input,
    ) -> Result<Move<Forwarded>, NoMemory> {
        Ok(Move::Return(input.into_response()))
    }

    ghost forwards_once = { λ filter. forwards_once (block filter.keys.items) handed_back (api_block_keeps filter.keys.items) };

    ghost ends_after_six = { λ filter. ends_after_six (block filter.keys.items) handed_back (api_block_keeps filter.keys.items) };

    ghost forwards_the_same = { λ filter. forwards_the_same (block filter.keys.items) handed_back (api_block_keeps filter.keys.items) };

    ghost questions_are_answered = { λ filter. questions_are_answered (block filter.keys.items) handed_back (api_block_keeps filter.keys.items) };

    ghost returns_an_answer = { λ filter. returns_an_answer (block filter.keys.items) handed_back (api_block_keeps filter.keys.items) };
}

impl ApiBlock {
    fn lists(&self, key: i16) -> bool
        ensures { result ≡ is_blocked self.now.keys.items key }
    {
        for listed in &self.keys {
            if *listed == key {
                return true;
            }
        }
        false
    }
}
