//! Runs of requests under chains of probes, each beside a plain program over lists.
//!
//! ```text
//!   a chain of up to three probes, up to six things that come --+--> filter_chain::Run      --> outcome, turns --+
//!                                                               +--> plain_chain::course_of --> outcome, turns --+--> alike?
//! ```
//!
//! The plain program begins anew with each list, and shares no code with `filter_chain`. All chains and all lists are
//! compared, and so are the asks up to their budget. Behind them come verdicts, messages, answers and responses of odd
//! and great sizes: each has to be whole.
#![tactic(auto)]

mod alike;
mod chains;
mod sizes;

use alike::run_beside;
use chains::{Lists, chain_of, compared_lists};
use plain_chain::{Came, ProbeKind};
use sizes::{SIZES, Whole, wholes};
use std::alloc::{AllocError, Global};
use std::io;
use std::process::ExitCode;

const HEARTBEAT: Came = Came::Answer {
    key: 12,
    version: 0,
};

const ASKS: ProbeKind = ProbeKind::AsksHeartbeat(3);

fn main(rt: HostRuntime) -> ExitCode {
    match is_all_alike(&rt) {
        Ok(true) => ExitCode::from(0),
        Ok(false) => ExitCode::from(1),
        Err(_) => ExitCode::from(2),
    }
}

fn is_all_alike(rt: &HostRuntime) -> io::Result<bool> {
    Ok(are_chains_alike(rt)? && are_budgets_alike(rt)? && are_sizes_whole(rt)?)
}

// All chains of up to three probes.
fn are_chains_alike(rt: &HostRuntime) -> io::Result<bool> {
    let (mut chains, mut runs) = (0u32, 0u32);
    for length in 0..4u32 {
        for number in 0..7usize.saturating_pow(length) {
            let chain = chain_of(rt.alloc(), length, number)?;
            match compared_lists(rt.alloc(), chain.as_slice())? {
                Lists::Alike(count) => runs = runs.saturating_add(count),
                Lists::Differs(came) => {
                    println!(rt; "{chain:?} with {came:?}: differs")?;
                    return Ok(false);
                }
            }
            chains = chains.saturating_add(1);
        }
    }
    println!(rt; "{chains} chains, {runs} runs, all alike")?;
    Ok(true)
}

// Probes that ask three times aside, and every ask is answered.
fn are_budgets_alike(rt: &HostRuntime) -> io::Result<bool> {
    let three: &[ProbeKind] = &[ASKS, ASKS, ASKS];
    let four: &[ProbeKind] = &[ASKS, ASKS, ASKS, ASKS];
    for (chain, answers) in [(three, 63), (three, 64), (four, 63), (four, 64)] {
        let count = chain.len();
        let beside = budget_beside(rt.alloc(), chain, answers)?;
        let Some(turns) = beside else {
            println!(rt; "{count} probes that ask, {answers} answers: differs")?;
            return Ok(false);
        };
        println!(rt; "{count} probes that ask, {answers} answers: alike after {turns} turns")?;
    }
    Ok(true)
}

fn budget_beside(
    alloc: Global,
    chain: &[ProbeKind],
    answers: usize,
) -> Result<Option<u64>, AllocError> {
    let came = vec![in alloc; HEARTBEAT; answers]?;
    run_beside(alloc, chain, came.as_slice()).map_err(|_| AllocError)
}

fn are_sizes_whole(rt: &HostRuntime) -> io::Result<bool> {
    for size in SIZES {
        let whole = wholes(rt.alloc(), size).map_err(|_| AllocError)?;
        match whole {
            Whole::All => println!(rt; "{size} bytes: all whole")?,
            Whole::AllBut(what) => {
                println!(rt; "{size} bytes: {what} differs")?;
                return Ok(false);
            }
        }
    }
    Ok(true)
}
