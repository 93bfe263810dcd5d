//! Requests through a chain of probes, each polled until it is done. `bench/polls.sh` times it.
//!
//! ```text
//!   a Heartbeat --start--> Run --poll, a Heartbeat's answer--> Run --poll, ..--> Done: counted
//! ```
//!
//! The arguments are how many probes the chain has, how often each asks a Heartbeat aside, three times at most, and how
//! many requests. It writes how many polls completed them. The status is 1 where a request isn't done after 64 polls, as
//! the budget has it, or is shut.
#![tactic(auto)]

use filter_chain::{Outside, Run, State};
use filter_probes::{Probe, heartbeat, heartbeat_error};
use kp_edge::{NoMemory, Steps};
use std::alloc::{AllocError, Global};
use std::env::args;
use std::io;
use std::process::ExitCode;

// What is counted by steps: nothing.
struct Unused;

fn main(rt: HostRuntime) -> ExitCode {
    match completed(&rt) {
        Ok(true) => ExitCode::from(0),
        Ok(false) => ExitCode::from(1),
        Err(_) => ExitCode::from(2),
    }
}

// Whether all requests that the arguments ask for are done.
fn completed(rt: &HostRuntime) -> io::Result<bool> {
    let words: Vec<String> = args(rt)?.collect(rt.alloc())?;
    let probes = number_in(words.get(1));
    let asks = u8::try_from(number_in(words.get(2))).unwrap_or(u8::MAX);
    let requests = number_in(words.get(3));
    let chain = chain_of(rt.alloc(), probes, asks)?;
    let mut polls = 0u64;
    for _ in 0..requests {
        match polls_of(rt.alloc(), chain.as_slice()) {
            Ok(Some(count)) => polls = polls.saturating_add(count),
            Ok(None) | Err(NoMemory) => return Ok(false),
        }
    }
    println!(rt; "{requests} requests completed by {polls} polls")?;
    Ok(true)
}

fn number_in(word: Option<&String>) -> u64 {
    match word {
        Some(word) => word.parse::<u64>().unwrap_or(1),
        None => 1,
    }
}

fn chain_of(alloc: Global, probes: u64, asks: u8) -> Result<Vec<Probe>, AllocError> {
    let mut chain = Vec::new(alloc);
    for _ in 0..probes {
        chain.push(Probe::asking(0, asks))?;
    }
    Ok(chain)
}

// How many polls complete a Heartbeat under this chain, where it is done by 64 of them.
fn polls_of(alloc: Global, chain: &[Probe]) -> Result<Option<u64>, NoMemory> {
    let mut steps = Steps::<Unused>::new();
    let mut state = Run::start(alloc, chain, heartbeat(alloc)?, &mut steps)?;
    for polls in 0..65u64 {
        let run = match state {
            State::Needs(run, _ask) => run,
            State::Done(_) => return Ok(Some(polls)),
            State::Shut(_) => return Ok(None),
        };
        let answer = Outside::Answer(heartbeat_error(alloc, 0)?);
        state = run.poll(alloc, chain, answer, &mut steps)?;
    }
    Ok(None)
}
