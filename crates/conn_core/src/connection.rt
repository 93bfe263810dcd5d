ghost use Rattle.std.specs.Prelude.{◌≡◌, ◌≤◌, length, IsOk, is_some, true};
ghost use Rattle.conn_rules.specs.Meaning.{Meaning};
ghost use Rattle.conn_rules.specs.State.{State, opening};
ghost use Rattle.conn_rules.specs.Connections.{Follows, FrameComesBack, AnswerComesBack, VerdictComesBack};

use crate::chain::Chain;
use bytes::Bytes;
use conn_rules::{AnswerFault, CompleteFault, Connection, Emit, Fault, Look, TakeFault, Ticket};
use filter_core::Filter;
use kp_edge::{Blob, Steps};
use serving::Serving;
use std::alloc::Global;

/// A connection between a client and its broker, whose requests pass through a chain of filters.
#[derive(Drop)]
pub struct Core<F: Filter + Drop> {
    serving: Serving<Chain<F>>,
}

impl<F: Filter + Drop> Core<F> {
    ghost use Rattle.std.specs.Prelude.{map};
    ghost use Rattle.conn_core.specs.Chained.{chained};

    /// A connection to which nothing came yet, for 1 to 64 requests in flight. The filter nearest the client stands
    /// first in the chain.
    pub fn new(alloc: Global, chain: Vec<F>, in_flight: u32) -> Core<F>
        requires some { 1 ≤ in_flight }
        requires few { in_flight ≤ 64 }
        ensures meaning { ⟦<Core<F> as Connection>⟧.meaning result ≡ chained (map F.turn chain.items) in_flight }
        ensures opens { ⟦<Core<F> as Connection>⟧.stands result opening }
    {
        let filters = chain;
        Core {
            serving: Serving::over(alloc, Chain { alloc, filters }, in_flight),
        }
    }
}

impl<F: Filter + Drop> Connection for Core<F> {
    ghost meaning = { λ core. ⟦<Serving<Chain<F>> as Connection>⟧.meaning core.serving };

    ghost stands = { λ core. ⟦<Serving<Chain<F>> as Connection>⟧.stands core.serving };

    fn take<L>(&mut self, frame: Bytes, steps: &mut Steps<L>) -> Result<(), TakeFault> {
        self.serving.take(frame, steps)
    }

    fn answer<L>(&mut self, frame: Bytes, steps: &mut Steps<L>) -> Result<(), AnswerFault> {
        self.serving.answer(frame, steps)
    }

    fn complete<L>(
        &mut self,
        request: u64,
        index: u32,
        verdict: Blob,
        steps: &mut Steps<L>,
    ) -> Result<(), CompleteFault> {
        self.serving.complete(request, index, verdict, steps)
    }

    fn client_end(&mut self, rest: u64) {
        self.serving.client_end(rest);
    }

    fn broker_end(&mut self, rest: u64) {
        self.serving.broker_end(rest);
    }

    fn fault(&mut self, fault: Fault) {
        self.serving.fault(fault);
    }

    fn send(&mut self) -> Option<Bytes> {
        self.serving.send()
    }

    fn emit(&mut self) -> Emit {
        self.serving.emit()
    }

    fn pick(&mut self) -> Option<Ticket> {
        self.serving.pick()
    }

    fn look(&self) -> Look {
        self.serving.look()
    }
}
