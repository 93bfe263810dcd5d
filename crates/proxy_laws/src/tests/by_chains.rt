// Chains of up to three probes of six kinds on a Heartbeat, each given what it asks for, until it asks no more.
use filter_chain::{Outside, Run, State};
use filter_probes::{Probe, Waits, heartbeat, heartbeat_error};
use kp_edge::{NoMemory, Steps};
use kp_schema::{Dir, supported};
use side_requests::Ask;
use std::alloc::Global;
use std::test::*;
use tree_codec::{Body, Builder, Primitive};

// What is counted in the tests.
struct Counted;

// What came of a request.
#[derive(Clone, Copy, Debug, PartialEq, Eq)]
enum Came {
    // a response of the request's own API and version
    Own,
    Foreign,
    Nothing,
    Shut,
    Unending,
}

#[derive(Clone, Copy, Debug, PartialEq, Eq)]
struct Seen {
    came: Came,
    // how often the request itself went to the broker
    main_sends: u32,
    // messages that the broker was sent and that it doesn't support, or main ones of another API or version
    strange: u32,
    turns: u64,
}

fn probe_of(kind: u32) -> Probe {
    match kind {
        0 => Probe::asking(0, 3),
        1 => Probe::asking(1, 1),
        2 => Probe::asking(2, 1),
        3 => Probe::two_turns(0),
        4 => Probe::two_turns(1),
        _ => Probe::two_turns(3),
    }
}

// The chain with this number, of so many probes: its digits in base six, the least first.
fn chain_of(alloc: Global, length: u32, number: u32) -> Result<Vec<Probe>, NoMemory> {
    let mut chain = Vec::new(alloc);
    let mut rest = number;
    for _ in 0..length {
        chain.push(probe_of(rest % 6))?;
        rest /= 6;
    }
    Ok(chain)
}

fn push(out: &mut Builder, item: Primitive) -> Result<(), NoMemory> {
    out.push(item).map_err(|_| NoMemory)
}

// A response to Metadata of version 4, without brokers and topics.
fn empty_cluster(alloc: Global) -> Result<Body, NoMemory> {
    let mut out = Builder::new(alloc, 3, 4, Dir::Response);
    push(&mut out, Primitive::Int32(0))?;
    push(&mut out, Primitive::Count(Some(0)))?;
    push(&mut out, Primitive::Text(None))?;
    push(&mut out, Primitive::Int32(0))?;
    push(&mut out, Primitive::Count(Some(0)))?;
    out.finish().map_err(|_| NoMemory)
}

fn is_supported(message: &Body) -> bool {
    for (key, least, greatest) in supported() {
        if message.key() == *key && *least <= message.version() && message.version() <= *greatest {
            return true;
        }
    }
    false
}

fn is_heartbeat(body: &Body) -> bool {
    body.key() == 12 && body.version() == 0
}

fn answer_to(alloc: Global, ask: Ask, seen: &mut Seen) -> Result<Outside, NoMemory> {
    let (request, main) = match ask {
        Ask::Broker { request, main } => (request, main),
        Ask::Hold { key, .. } => return Ok(Outside::Verdict(key)),
    };
    if main {
        seen.main_sends = seen.main_sends.saturating_add(1);
    }
    if !is_supported(&request) || main && !is_heartbeat(&request) {
        seen.strange = seen.strange.saturating_add(1);
    }
    if request.key() == 3 {
        Ok(Outside::Answer(empty_cluster(alloc)?))
    } else {
        Ok(Outside::Answer(heartbeat_error(alloc, 11)?))
    }
}

fn response_kind(response: Option<Body>) -> Came {
    match response {
        Some(response) if is_heartbeat(&response) && response.dir() == Dir::Response => Came::Own,
        Some(_) => Came::Foreign,
        None => Came::Nothing,
    }
}

// How the request goes on from this state, or what came of it.
fn turned(
    alloc: Global,
    chain: &[Probe],
    state: State<Waits>,
    seen: &mut Seen,
) -> Result<Option<State<Waits>>, NoMemory> {
    let mut steps: Steps<Counted> = Steps::new();
    match state {
        State::Needs(run, ask) => {
            let outside = answer_to(alloc, ask, seen)?;
            Ok(Some(run.poll(alloc, chain, outside, &mut steps)?))
        }
        State::Done(response) => {
            seen.came = response_kind(response);
            Ok(None)
        }
        State::Shut(_) => {
            seen.came = Came::Shut;
            Ok(None)
        }
    }
}

fn seen_of(alloc: Global, chain: &[Probe]) -> Result<Seen, NoMemory> {
    let mut steps: Steps<Counted> = Steps::new();
    let mut seen = Seen {
        came: Came::Unending,
        main_sends: 0,
        strange: 0,
        turns: 0,
    };
    let mut state = Run::start(alloc, chain, heartbeat(alloc)?, &mut steps)?;
    for _ in 0..66u32 {
        state = match turned(alloc, chain, state, &mut seen)? {
            Some(state) => state,
            None => break,
        };
    }
    for filter in chain {
        seen.turns = seen.turns.saturating_add(filter.calls());
    }
    Ok(seen)
}

// Seven turns for one filter, seven and six times as many for one more: 7, 49 and 301.
fn turns_within(length: u32) -> u64 {
    match length {
        0 => 0,
        1 => 7,
        2 => 49,
        _ => 301,
    }
}

#[derive(Clone, Copy, Debug, PartialEq, Eq)]
struct Counts {
    chains: u32,
    own: u32,
    shut: u32,
    sent: u32,
    kept: u32,
}

fn count(counts: &mut Counts, length: u32, seen: Seen) {
    counts.chains = counts.chains.saturating_add(1);
    if seen.came == Came::Own {
        counts.own = counts.own.saturating_add(1);
    }
    if seen.came == Came::Shut {
        counts.shut = counts.shut.saturating_add(1);
    }
    if seen.main_sends == 1 {
        counts.sent = counts.sent.saturating_add(1);
    }
    if seen.main_sends <= 1 && seen.strange == 0 && seen.turns <= turns_within(length) {
        counts.kept = counts.kept.saturating_add(1);
    }
}

fn counts_of(alloc: Global) -> Result<Counts, NoMemory> {
    let mut counts = Counts {
        chains: 0,
        own: 0,
        shut: 0,
        sent: 0,
        kept: 0,
    };
    for length in 0..4u32 {
        for number in 0..6u32.saturating_pow(length) {
            let chain = chain_of(alloc, length, number)?;
            let seen = seen_of(alloc, chain.as_slice())?;
            count(&mut counts, length, seen);
        }
    }
    Ok(counts)
}

// Every one of the 259 chains ends: 243 with a response of the request's own API and version. 16 shut: those in which a probe that
// shuts at Metadata stands behind one that asks it aside, without one before both that answers at once. Where none answers or shuts the
// request itself goes to the broker: 142 times.
#[test]
fn each_chain_keeps_the_laws(rt: HostRuntime) -> Result<(), Fail> {
    let counts = counts_of(rt.alloc()).ok().ok_or("memory")?;
    let wanted = Counts {
        chains: 259,
        own: 243,
        shut: 16,
        sent: 142,
        kept: 259,
    };
    assert_eq!(rt; counts, wanted);
    Ok(())
}
