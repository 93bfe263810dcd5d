// Requests that are all held, and go on once the oldest of them has its verdict.
use crate::exchange::{is_answered, is_emitted, is_sent, is_taken};
use conn_core::{Connection, Core};
use filter_probes::Probe;
use kp_edge::{Blob, Steps};
use std::alloc::{AllocError, Global};

// What is counted by steps: nothing.
struct Unused;

pub fn went_right(alloc: Global, in_flight: u32, rounds: u32) -> Result<bool, AllocError> {
    let mut chain = Vec::new(alloc);
    chain.push(Probe::asking(2, 1))?;
    let mut core = Core::new(alloc, chain, in_flight.clamp(1, 64));
    let mut first = 0u32;
    for _ in 0..rounds {
        let Some(end) = first.checked_add(in_flight) else {
            return Ok(false);
        };
        let is_right = are_held(alloc, &mut core, first, end)?
            && are_completed(alloc, &mut core, first, end)?
            && are_drained(alloc, &mut core, first, end)?;
        if !is_right {
            return Ok(false);
        }
        first = end;
    }
    Ok(true)
}

// All are taken, and their holds are picked, the oldest first.
fn are_held(
    alloc: Global,
    core: &mut Core<Probe>,
    first: u32,
    end: u32,
) -> Result<bool, AllocError> {
    for number in first..end {
        if !(is_taken(alloc, core, number)? && is_picked(core, number)) {
            return Ok(false);
        }
    }
    Ok(core.pick().is_none())
}

fn is_picked(core: &mut Core<Probe>, number: u32) -> bool {
    match core.pick() {
        Some(ticket) => ticket.request == u64::from(number) && ticket.index == 0,
        None => false,
    }
}

// The verdicts come, that on the oldest last. Before it nothing can be sent.
fn are_completed(
    alloc: Global,
    core: &mut Core<Probe>,
    first: u32,
    end: u32,
) -> Result<bool, AllocError> {
    for number in first.saturating_add(1)..end {
        if !is_completed(alloc, core, number)? {
            return Ok(false);
        }
    }
    Ok(core.send().is_none() && is_completed(alloc, core, first)?)
}

fn is_completed(alloc: Global, core: &mut Core<Probe>, number: u32) -> Result<bool, AllocError> {
    let verdict = Blob::from_vec(Vec::from_slice(alloc, b"yes")?);
    let told = core.complete(u64::from(number), 0, verdict, &mut Steps::<Unused>::new());
    Ok(told.is_ok())
}

// All are sent, then answered, then emitted.
fn are_drained(
    alloc: Global,
    core: &mut Core<Probe>,
    first: u32,
    end: u32,
) -> Result<bool, AllocError> {
    for number in first..end {
        if !is_sent(core, number) {
            return Ok(false);
        }
    }
    for number in first..end {
        if !is_answered(alloc, core, number)? {
            return Ok(false);
        }
    }
    for number in first..end {
        if !is_emitted(core, number) {
            return Ok(false);
        }
    }
    Ok(true)
}
