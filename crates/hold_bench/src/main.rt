//! Connections whose requests are answered in turn, or are held until the oldest has its verdict. `bench/holds.sh`
//! times them.
//!
//! ```text
//!   plain  the oldest is answered and emitted, and the next request is taken     no probe
//!   held   so many are taken and held; the younger ones are completed, then the oldest; then all are
//!          sent, answered and emitted                                            one probe, which holds each request
//! ```
//!
//! The arguments are `plain` or `held`, how many requests are in flight, and how many there are in all, or how many
//! rounds of that many. It writes what was done. The status is 1 where a call answers otherwise than is right there.
#![tactic(auto)]

mod exchange;
mod held;
mod plain;

use std::env::args;
use std::io;
use std::process::ExitCode;

fn main(rt: HostRuntime) -> ExitCode {
    match done(&rt) {
        Ok(true) => ExitCode::from(0),
        Ok(false) => ExitCode::from(1),
        Err(_) => ExitCode::from(2),
    }
}

// Whether all went as it should.
fn done(rt: &HostRuntime) -> io::Result<bool> {
    let words: Vec<String> = args(rt)?.collect(rt.alloc())?;
    let in_flight = number_in(words.get(2)).clamp(1, 64);
    let count = number_in(words.get(3));
    if is_held(words.get(1)) {
        if !held::went_right(rt.alloc(), in_flight, count)? {
            return Ok(false);
        }
        println!(rt; "{count} rounds of {in_flight} requests, held, completed and drained")?;
    } else {
        if !plain::went_right(rt.alloc(), in_flight, count)? {
            return Ok(false);
        }
        println!(rt; "{count} requests exchanged, {in_flight} in flight")?;
    }
    Ok(true)
}

fn is_held(word: Option<&String>) -> bool {
    match word {
        Some(word) => word.as_str() == "held",
        None => false,
    }
}

fn number_in(word: Option<&String>) -> u32 {
    match word {
        Some(word) => word.parse::<u32>().unwrap_or(1),
        None => 1,
    }
}
