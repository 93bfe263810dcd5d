// A run beside the plain program.
use filter_chain::{Outside, Run, ShutCause, State};
use filter_core::Reason;
use filter_probes::{Probe, Waits, heartbeat, heartbeat_error};
use kp_edge::{Blob, NoMemory, Steps};
use plain_chain::{Came, Message, Outcome, ProbeKind, Response, ResponseBody, course_of};
use side_requests::Ask;
use std::alloc::Global;
use tree_codec::{Body, Item};

const REQUEST: Message = Message::Own {
    key: 12,
    version: 0,
};

// What is counted: nothing.
pub struct Unused;

fn probe_of(kind: ProbeKind) -> Probe {
    match kind {
        ProbeKind::AsksHeartbeat(times) => Probe::asking(0, times),
        ProbeKind::AsksMetadata(times) => Probe::asking(1, times),
        ProbeKind::Holds(times) => Probe::asking(2, times),
        ProbeKind::Changes => Probe::two_turns(0),
        ProbeKind::Answers => Probe::two_turns(1),
        ProbeKind::Shuts => Probe::two_turns(2),
        ProbeKind::ShutsMetadata => Probe::two_turns(3),
        ProbeKind::Heeds => Probe::heeding(),
    }
}

// The answer with this place is a Heartbeat's with an error of its own, up to the sixth.
fn error_at(place: usize) -> i16 {
    [20, 21, 22, 23, 24, 25][place.min(5)]
}

fn outside_of(alloc: Global, came: Came, place: usize) -> Result<Outside, NoMemory> {
    match came {
        Came::Answer { .. } => Ok(Outside::Answer(heartbeat_error(alloc, error_at(place))?)),
        Came::NoResponse => Ok(Outside::NoResponse),
        Came::Verdict(Some(byte)) => Ok(Outside::Verdict(Blob::copy(alloc, &[byte, b'!'])?)),
        Came::Verdict(None) => Ok(Outside::Verdict(Blob::copy(alloc, b"")?)),
    }
}

fn error_of(response: &Body) -> Option<i64> {
    match response.get(&[0]) {
        Ok(Some(Item::Number(error))) => Some(error),
        _ => None,
    }
}

fn is_response(got: &Option<Body>, want: Option<Response>) -> bool {
    match (got, want) {
        (None, None) => true,
        (Some(got), Some(want)) => {
            let error = match want.body {
                ResponseBody::Came(place) => error_at(place),
                ResponseBody::Error(error) => error,
            };
            (got.key(), got.version()) == (want.key, want.version)
                && error_of(got) == Some(i64::from(error))
        }
        _ => false,
    }
}

fn is_outcome(got: &State<Waits>, want: Outcome) -> bool {
    match (got, want) {
        (
            State::Needs(_, Ask::Broker { request, main }),
            Outcome::Sends {
                message,
                main: wanted,
            },
        ) => { (request.key(), request.version()) == message.api() && *main == wanted }
        (State::Needs(_, Ask::Hold { filter, .. }), Outcome::Holds { filter: wanted }) => {
            *filter == wanted
        }
        (State::Done(response), Outcome::Done(wanted)) => is_response(response, wanted),
        (
            State::Shut(ShutCause::Filter { filter, reason }),
            Outcome::Shut {
                filter: wanted,
                code,
            },
        ) => { *filter == wanted && *reason == Reason::Code(code) }
        (State::Shut(ShutCause::AskBudget), Outcome::AskBudget) => true,
        _ => false,
    }
}

// How a run under this chain stands with all that came, or with as much as it used.
fn state_of(alloc: Global, chain: &[Probe], came: &[Came]) -> Result<State<Waits>, NoMemory> {
    let mut steps: Steps<Unused> = Steps::new();
    let mut state = Run::start(alloc, chain, heartbeat(alloc)?, &mut steps)?;
    for (place, came) in came.iter().enumerate() {
        state = match state {
            State::Needs(run, _) => {
                run.poll(alloc, chain, outside_of(alloc, *came, place)?, &mut steps)?
            }
            ended => ended,
        };
    }
    Ok(state)
}

// How many turns the probes of this run had, where it stands as the plain program says, after as many turns.
pub fn run_beside(
    alloc: Global,
    kinds: &[ProbeKind],
    came: &[Came],
) -> Result<Option<u64>, NoMemory> {
    let want = course_of(alloc, kinds, REQUEST, came).map_err(|_| NoMemory)?;
    let mut chain = Vec::new(alloc);
    for kind in kinds {
        chain.push(probe_of(*kind))?;
    }
    let state = state_of(alloc, chain.as_slice(), came)?;
    let mut turns = 0u64;
    for filter in chain.as_slice() {
        turns = turns.saturating_add(filter.calls());
    }
    let is_alike = is_outcome(&state, want.outcome) && turns == u64::from(want.turns);
    Ok(is_alike.then_some(turns))
}
