ghost use Rattle.std.specs.Prelude.{◌≡◌, ◌≤◌, ◌+◌, [], ◌∷◌, ◌++◌, List, map, IfOk, OnOk};
ghost use Rattle.tree_spelling.specs.Body.{Contents};
ghost use Rattle.filter_chain.specs.declared.outside.Outside.{Outside};
ghost use Rattle.filter_chain.specs.Outcomes.{turns};
ghost use Rattle.filter_chain.specs.Suspensions.{IsConclusion};
ghost use Rattle.filter_chain.specs.RunStates.{IsState, RunsFor, budget_unused, state_budget_unused};

use crate::awaited::Awaited;
use crate::outside::Outside;
use crate::passing::{Passing, Stop};
use crate::state::{ShutCause, State};
use crate::suspended::Suspended;
use crate::turns::pass;
use filter_core::Filter;
use kp_edge::{NoMemory, Steps};
use side_requests::AskBook;
use std::alloc::Global;
use tree_codec::Body;

/// A request on its way through a chain, which waits for an answer from outside: the pending value of each suspended
/// filter. It is moved into and out of [`Run::poll`].
#[derive(Drop)]
pub struct Run<P: Drop> {
    pub(crate) suspended: Vec<Suspended<P>>,
    pub(crate) awaits: Awaited,
    pub(crate) book: AskBook,
}

impl<P: Drop> Run<P> {
    /// A client's request enters the chain. The filter nearest the client stands first in it.
    pub fn start<F: Filter<Pending = P>, L>(
        alloc: Global,
        chain: &[F],
        request: Body,
        steps: &mut Steps<L>,
    ) -> Result<State<P>, NoMemory>
        ensures state { IfOk result (λ state. IsState F.turn F.stands chain.now request [] state) }
        ensures counted { OnOk result (steps.new ≡ steps.old + turns (map F.turn chain.now) request []) }
    {
        let mut suspended = Vec::new(alloc);
        let main = true;
        let message = request;
        let passing = Passing::Message { message, main };
        let stop = pass(alloc, chain, &mut suspended, passing, steps)?;
        Ok(conclude(suspended, AskBook::new(), stop))
    }

    /// The request is given what it asked for. The chain is that of `start`.
    pub fn poll<F: Filter<Pending = P>, L>(
        self,
        alloc: Global,
        chain: &[F],
        outside: Outside,
        steps: &mut Steps<L>,
    ) -> Result<State<P>, NoMemory>
        ensures state { IfOk result (λ state. (request : Contents) (given : List Outside) → RunsFor F.turn F.stands chain.now request given self
            → IsState F.turn F.stands chain.now request (given ++ outside ∷ []) state) }
        ensures counted { OnOk result ((request : Contents) (given : List Outside) → RunsFor F.turn F.stands chain.now request given self
            → steps.new + turns (map F.turn chain.now) request given ≡ steps.old + turns (map F.turn chain.now) request (given ++ outside ∷ [])) }

        // It asks 64 times at most, so each poll leaves it fewer.
        ensures fewer { IfOk result (λ state. state_budget_unused state ≤ budget_unused self) }
    {
        let mut suspended = self.suspended;
        let passing = Passing::Input(self.awaits.input_of(outside));
        let stop = pass(alloc, chain, &mut suspended, passing, steps)?;
        Ok(conclude(suspended, self.book, stop))
    }
}

/// How a request that stopped stands. `book` has numbered its asks so far.
fn conclude<P: Drop>(suspended: Vec<Suspended<P>>, book: AskBook, stop: Stop) -> State<P>
    ensures { IsConclusion suspended.items book stop result }
{
    let mut book = book;
    match stop {
        Stop::Needs(ask) => {
            if book.next().is_none() {
                return State::Shut(ShutCause::AskBudget);
            }
            let awaits = Awaited::by(&ask);
            let run = Run {
                suspended,
                awaits,
                book,
            };
            State::Needs(run, ask)
        }
        Stop::Done(input) => State::Done(input.into_response()),
        Stop::Shut { filter, reason } => State::Shut(ShutCause::Filter { filter, reason }),
    }
}
