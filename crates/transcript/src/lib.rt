//! The text of a replay script, line by line, and of the lines that answer it.
//!
//! ```text
//!   client 0000000c0012000000000007ffff   --read_line-->  Line::Client(..)
//!   emit                                  --read_line-->  Line::Emit
//!   to-client 0000000a00000007..          <----print----  Answer::ToClient(..)
//! ```
//!
//! Words are parted by one space. Bytes are written as two hexadecimal digits each, and no bytes as `-`.
//! Cutting a script into lines, numbering them, and what a line does to a connection are left to the
//! crates above.
#![tactic(auto)]

mod answer;
mod laws;
mod line;
mod numbers;
mod printing;
mod reading;
#[cfg(test)]
mod tests;
mod words;

pub use answer::Answer;
pub use laws::one_line;
pub use line::{Line, LineFault};
pub use printing::print;
pub use reading::read_line;
