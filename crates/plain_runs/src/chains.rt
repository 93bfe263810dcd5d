// Chains of probes, and lists of what comes.
use crate::alike::run_beside;
use plain_chain::{Came, ProbeKind};
use std::alloc::{AllocError, Global};

const KINDS: [ProbeKind; 7] = [
    ProbeKind::AsksHeartbeat(2),
    ProbeKind::AsksMetadata(1),
    ProbeKind::Holds(1),
    ProbeKind::Changes,
    ProbeKind::Answers,
    ProbeKind::ShutsMetadata,
    ProbeKind::Heeds,
];

// An empty verdict comes only where a probe of the chain heeds.
const CAME: [Came; 4] = [
    Came::Answer {
        key: 12,
        version: 0,
    },
    Came::NoResponse,
    Came::Verdict(Some(118)),
    Came::Verdict(None),
];

// How the lists under a chain went.
#[derive(Drop)]
pub enum Lists {
    // So many, and all alike.
    Alike(u32),
    // This one isn't.
    Differs(Vec<Came>),
}

// The digit of a number at this place, the least first.
fn digit(number: usize, base: usize, place: u32) -> usize {
    let rest = number.checked_div(base.saturating_pow(place)).unwrap_or(0);
    rest.checked_rem(base).unwrap_or(0)
}

// The chain of this length whose kinds are the digits of the number.
pub fn chain_of(alloc: Global, length: u32, number: usize) -> Result<Vec<ProbeKind>, AllocError> {
    let mut chain = Vec::new(alloc);
    for place in 0..length {
        if let Some(kind) = KINDS.get(digit(number, 7, place)) {
            chain.push(*kind)?;
        }
    }
    Ok(chain)
}

fn list_of(
    alloc: Global,
    kinds: usize,
    length: u32,
    number: usize,
) -> Result<Vec<Came>, AllocError> {
    let mut list = Vec::new(alloc);
    for place in 0..length {
        if let Some(came) = CAME.get(digit(number, kinds, place)) {
            list.push(*came)?;
        }
    }
    Ok(list)
}

// All lists of up to six things.
pub fn compared_lists(alloc: Global, chain: &[ProbeKind]) -> Result<Lists, AllocError> {
    let heeds = chain.iter().any(|kind| *kind == ProbeKind::Heeds);
    let kinds = if heeds { 4usize } else { 3 };
    let mut count = 0u32;
    for length in 0..7u32 {
        for number in 0..kinds.saturating_pow(length) {
            let came = list_of(alloc, kinds, length, number)?;
            let beside = run_beside(alloc, chain, came.as_slice()).map_err(|_| AllocError)?;
            if beside.is_none() {
                return Ok(Lists::Differs(came));
            }
            count = count.saturating_add(1);
        }
    }
    Ok(Lists::Alike(count))
}
