// How a request stands under its chain, as the connection is told it.
ghost use Rattle.std.specs.Prelude.{◌≡◌, ◌+◌, ◌≤◌, ℕ, suc, List, length, IfOk, IfSome};
ghost use Rattle.tree_spelling.specs.Body.{Contents};
ghost use Rattle.side_requests.specs.declared.ask.Ask.{Ask};
ghost use Rattle.filter_chain.specs.declared.state.State.TheVariants as state;
ghost use Rattle.filter_chain.specs.RunStates.{budget_unused, state_budget_unused};
ghost use Rattle.serving.specs.Services.{progress_remaining};
ghost use Rattle.serving.specs.Causes.{why_of};
ghost use Rattle.conn_core.specs.Requests.{is_silent};
ghost use Rattle.conn_core.specs.Chained.{message_status, completed, shut_end, outcome_status, response_body};
ghost use Rattle.conn_core.specs.Underway.{IsEnvelopeOf, IsAskedBy, KeepsRun, IsToldAs, outcome_in};

use crate::chain_run::{Asked, ChainRun};
use crate::envelope::Envelope;
use filter_chain::{Run, ShutCause, State};
use filter_core::Reason;
use kp_edge::NoMemory;
use serving::{Cause, Progress};
use side_requests::Ask;
use tree_codec::Body;

// The greatest size of a frame that goes out.
const MOST_OUT: u64 = 134_217_728;

/// How the request in this envelope stands.
pub(crate) fn tell<P: Drop>(
    envelope: Envelope,
    state: State<P>,
) -> Result<Progress<ChainRun<P>>, NoMemory>
    ensures told { IfOk result (λ progress. (frame : List ℕ) → IsEnvelopeOf envelope frame
        → IsToldAs (is_silent frame) (outcome_status frame (outcome_in state)) (KeepsRun envelope state) progress) }
    ensures fewer { IfOk result (λ progress. progress_remaining (λ (kept : ChainRun P). budget_unused kept.run) progress ≤ state_budget_unused state) }
{
    match state {
        State::Needs(run, ask) => match ask {
            Ask::Broker { request, main } => tell_send(envelope, request, main, run),
            Ask::Hold { filter: _, key } => {
                let asked = Asked::Verdict;
                Ok(Progress::Holds(
                    key,
                    ChainRun {
                        envelope,
                        asked,
                        run,
                    },
                ))
            }
        },
        State::Done(response) => tell_done(&envelope, response),
        State::Shut(cause) => Ok(Progress::Failed(cause_of(cause))),
    }
}

// The message goes to the broker, unless its frame has grown past the limit.
fn tell_send<P: Drop>(
    envelope: Envelope,
    request: Body,
    main: bool,
    run: Run<P>,
) -> Result<Progress<ChainRun<P>>, NoMemory>
    ensures told { IfOk result (λ progress. (frame : List ℕ) → IsEnvelopeOf envelope frame
        → IsToldAs (is_silent frame) (message_status frame request main) (KeepsRun envelope (state.Needs run (Ask.Broker request main))) progress) }
    ensures fewer { IfOk result (λ progress. progress_remaining (λ (kept : ChainRun P). budget_unused kept.run) progress ≤ suc (budget_unused run)) }
{
    let Some(size) = envelope.message_size(&request) else {
        return Err(NoMemory);
    };
    if size > MOST_OUT {
        return Ok(Progress::Failed(Cause::GrownPast { size }));
    }
    let message = envelope.message(&request, main, size)?;
    let asked = Asked::Response {
        key: request.key(),
        version: request.version(),
    };
    Ok(Progress::Sends(
        message,
        ChainRun {
            envelope,
            asked,
            run,
        },
    ))
}

// The response goes to the client, unless its frame has grown past the limit.
fn tell_done<P: Drop>(
    envelope: &Envelope,
    response: Option<Body>,
) -> Result<Progress<ChainRun<P>>, NoMemory>
    ensures told { IfOk result (λ progress. (frame : List ℕ) → IsEnvelopeOf envelope.now frame
        → IsToldAs (is_silent frame) (completed frame response) (λ kept. ⊥) progress) }
    ensures fewer { IfOk result (λ progress. progress_remaining (λ (kept : ChainRun P). budget_unused kept.run) progress ≡ 0) }
{
    if envelope.silent {
        return Ok(Progress::Done(None));
    }
    let Some(size) = response_size(&response) else {
        return Err(NoMemory);
    };
    if size > MOST_OUT {
        return Ok(Progress::Failed(Cause::GrownPast { size }));
    }
    Ok(Progress::Done(Some(envelope.response(response, size)?)))
}

// The size of a response's frame, where 64 bits can say it.
fn response_size(response: &Option<Body>) -> Option<u64>
    ensures { IfSome result (λ size. size ≡ 4 + length (response_body response.now)) }
{
    match response {
        Some(body) => body.size().checked_add(4),
        None => Some(4),
    }
}

// Why a request that its chain shut ends the connection.
fn cause_of(cause: ShutCause) -> Cause
    ensures { why_of result ≡ shut_end cause }
{
    match cause {
        ShutCause::Filter { filter, reason } => match reason {
            Reason::Code(code) => Cause::FilterShut { filter, code },
            Reason::NodeOutOfRange(node) => Cause::NodeOutOfRange { node },
            Reason::NameTooLong(length) => Cause::NameTooLong { length },
        },
        ShutCause::AskBudget => Cause::AskBudget,
    }
}
