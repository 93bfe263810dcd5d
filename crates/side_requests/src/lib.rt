//! What a request asks of the world outside, and how often.
//!
//! ```text
//!   a filter's move    Forward, Side      Hold
//!                          |                |
//!   an ask             Broker { .. }    Hold { .. }      numbered 0, 1, .. 63, and then no more
//! ```
//!
//! Who asks, and in which order, is said in `filter_chain`.
#![tactic(auto)]

mod ask;
mod ask_book;
#[cfg(test)]
mod tests;

pub use ask::Ask;
pub use ask_book::AskBook;
