//! Random histories of a connection, each answered by `Core` and by a plain program over lists.
//!
//! ```text
//!   seed, number --> a chain of probes, a limit in flight, sixty events --+--> Core       --> replies --+
//!                                                                         +--> Plain      --> replies --+--> alike?
//! ```
//!
//! The plain program is docs/CONNECTION.md written out: it keeps all requests and sends, begins every chain anew at
//! each event (`plain_chain`), and shares no code with the crates of the connection.
//!
//! The arguments are a seed and how many histories. It writes that all were alike, or the first event that wasn't, with
//! its history and chain. A third argument, whatever it is, has it write what the histories came to as well.
#![tactic(auto)]

mod chance;
mod comparing;
mod counts;
mod event;
mod frames;
mod plain;
mod random;
mod samples;
mod settling;
mod status;
mod steps;

use comparing::{EVENTS, History, compared_history};
use counts::Counts;
use std::env::args;
use std::io;
use std::process::ExitCode;

fn main(rt: HostRuntime) -> ExitCode {
    match compared(&rt) {
        Ok(true) => ExitCode::from(0),
        Ok(false) => ExitCode::from(1),
        Err(_) => ExitCode::from(2),
    }
}

// Whether all histories that the arguments name went alike.
fn compared(rt: &HostRuntime) -> io::Result<bool> {
    let words: Vec<String> = args(rt)?.collect(rt.alloc())?;
    let seed = number_in(words.get(1));
    let count = number_in(words.get(2));
    let mut counts = Counts::new(rt.alloc());
    for number in 0..count {
        match compared_history(rt.alloc(), seed, number)? {
            History::Alike(plain) => counts.add(&plain)?,
            History::Differs { event, chain } => {
                println!(rt;
                    "seed {seed}, history {number}, event {event}: differs, under {chain:?}"
                )?;
                return Ok(false);
            }
        }
    }
    println!(rt; "seed {seed}: {count} histories of {EVENTS} events, all alike")?;
    if words.len() > 3 {
        for (name, times) in counts.counts() {
            println!(rt; "{times} {name}")?;
        }
    }
    Ok(true)
}

fn number_in(word: Option<&String>) -> u64 {
    match word {
        Some(word) => word.parse::<u64>().unwrap_or(1),
        None => 1,
    }
}
