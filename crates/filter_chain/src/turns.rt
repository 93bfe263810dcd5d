// A request goes from filter to filter, turn by turn, until it waits for something from outside, is done or is shut.
ghost use Rattle.std.specs.Prelude.{◌≡◌, ◌++◌, length, IfOk, OnOk};
ghost use Rattle.filter_chain.specs.Suspensions.{Leads, next_of, kept};

use crate::passing::{Next, Passing, Stop};
use crate::suspended::Suspended;
use filter_core::{Filter, Input, Move};
use kp_edge::{NoMemory, Steps};
use side_requests::Ask;
use std::alloc::Global;
use tree_codec::Body;

/// How many inputs a filter is given, at most.
const MOST_INPUTS: u8 = 6;

/// What passes goes on until nothing passes any more.
pub(crate) fn pass<F: Filter, L>(
    alloc: Global,
    chain: &[F],
    suspended: &mut Vec<Suspended<F::Pending>>,
    passing: Passing,
    steps: &mut Steps<L>,
) -> Result<Stop, NoMemory>
    ensures { IfOk result (λ stop. Leads F.turn F.stands chain.now suspended.old.items (Next.Passes passing) steps.old suspended.new.items (Next.Stops stop) steps.new) }
{
    let mut current = passing;
    // the limit is never reached: each filter has seven turns at most on each message
    for _turn in 0..u64::MAX {
        match turn_once(alloc, chain, suspended, current, steps)? {
            Next::Passes(next) => current = next,
            Next::Stops(stop) => return Ok(stop),
        }
    }
    Err(NoMemory)
}

fn turn_once<F: Filter, L>(
    alloc: Global,
    chain: &[F],
    suspended: &mut Vec<Suspended<F::Pending>>,
    passing: Passing,
    steps: &mut Steps<L>,
) -> Result<Next, NoMemory>
    ensures { IfOk result (λ next. Leads F.turn F.stands chain.now suspended.old.items (Next.Passes passing) steps.old suspended.new.items next steps.new) }
{
    match passing {
        Passing::Message { message, main } => {
            first_turn(alloc, chain, suspended, message, main, steps)
        }
        Passing::Input(input) => next_turn(alloc, chain, suspended, input, steps),
    }
}

/// The next filter is started on a message. Behind the last one stands the broker.
fn first_turn<F: Filter, L>(
    alloc: Global,
    chain: &[F],
    suspended: &mut Vec<Suspended<F::Pending>>,
    message: Body,
    main: bool,
    steps: &mut Steps<L>,
) -> Result<Next, NoMemory>
    ensures { IfOk result (λ next. Leads F.turn F.stands chain.now suspended.old.items (Next.Passes (Passing.Message message main)) steps.old suspended.new.items next steps.new) }
{
    let Some(filter) = chain.get(suspended.len()) else {
        let request = message;
        return Ok(Next::Stops(Stop::Needs(Ask::Broker { request, main })));
    };
    steps.tick();
    let made = filter.start(alloc, message)?;
    act(suspended, main, MOST_INPUTS, made)
}

/// The filter that was suspended last is given an input. Before the first one stands the client.
fn next_turn<F: Filter, L>(
    alloc: Global,
    chain: &[F],
    suspended: &mut Vec<Suspended<F::Pending>>,
    input: Input,
    steps: &mut Steps<L>,
) -> Result<Next, NoMemory>
    ensures { IfOk result (λ next. Leads F.turn F.stands chain.now suspended.old.items (Next.Passes (Passing.Input input)) steps.old suspended.new.items next steps.new) }
{
    let Some(last) = suspended.pop() else {
        return Ok(Next::Stops(Stop::Done(input)));
    };
    // A lawful filter goes on after six inputs no more.
    let Some(unused) = last.unused.checked_sub(1) else {
        return Err(NoMemory);
    };
    let Some(filter) = chain.get(suspended.len()) else {
        return Err(NoMemory);
    };
    steps.tick();
    let made = filter.resume(alloc, last.pending, input)?;
    act(suspended, last.main, unused, made)
}

/// What a filter's move leads to. A filter that goes on is suspended behind the others.
fn act<P: Drop>(
    suspended: &mut Vec<Suspended<P>>,
    main: bool,
    unused: u8,
    made: Move<P>,
) -> Result<Next, NoMemory>
    ensures next { IfOk result (λ next. next ≡ next_of (length suspended.old.items) main made) }
    ensures suspended { OnOk result (suspended.new.items ≡ suspended.old.items ++ kept main unused made) }
{
    let place = suspended.len();
    let Ok(filter) = u32::try_from(place) else {
        return Err(NoMemory);
    };
    let (next, pending) = match made {
        Move::Forward(message, pending) => {
            (Next::Passes(Passing::Message { message, main }), pending)
        }
        Move::Side(message, pending) => {
            let main = false;
            (Next::Passes(Passing::Message { message, main }), pending)
        }
        Move::Hold(key, pending) => (Next::Stops(Stop::Needs(Ask::Hold { filter, key })), pending),
        Move::Return(response) => return Ok(Next::Passes(Passing::Input(Input::of(response)))),
        Move::Shut(reason) => return Ok(Next::Stops(Stop::Shut { filter, reason })),
    };
    suspended.push(Suspended {
        pending,
        main,
        unused,
    })?;
    Ok(next)
}
