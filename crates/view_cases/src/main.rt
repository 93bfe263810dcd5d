//! Messages from bytes to structs and back.
//!
//! ```text
//!   12 0 request 00026769000000140002 6d69 3       HeartbeatRequest { version: 0, .. } same bytes; 3: Misplaced { field: 3 }
//! ```
//!
//! A line of the input has a message's key, version, direction and bytes, and then other versions. It is answered by the
//! struct as text, by whether its body is spelled by the same bytes, and by what the struct comes to with each of the other
//! versions. Any other line is a heading, and is written as it is.
#![tactic(auto)]

mod case;
mod messages;
mod telling;

use std::io;
use std::io::{BufRead, BufReader};

fn main(rt: HostRuntime) -> io::Result<()> {
    let alloc = rt.alloc();
    for line in BufReader::new(alloc, rt.reader())?.lines(alloc) {
        let line = line?;
        match case::case_of(alloc, line.as_str())? {
            Some(case) => {
                let text = messages::answer(alloc, &case)?;
                println!(rt; "{text}")?;
            }
            None => println!(rt; "{line}")?,
        }
    }
    Ok(())
}
