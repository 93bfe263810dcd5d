//! Which request a broker's frame belongs to.
//!
//! ```text
//!   push --> unsent --take--> the broker
//!              owners, by number <--answer-- the broker's frame
//! ```
//!
//! Sends are numbered from 0 as they are listed. Send number `j` goes to the broker with correlation id `j` modulo
//! 2^31, so ids never go below 0. The broker answers in the order of the sends, so its next frame belongs to the first
//! send that it was given, that gets a response, and that has none yet. A Produce with acks 0 gets none, and is passed
//! over.
//!
//! This crate keeps owners and frames. What a request is and what its answer means isn't known here.
#![tactic(auto)]

mod laws;
mod owner;
mod sends;
#[cfg(test)]
mod tests;

pub use laws::window_laws;
pub use owner::{AnswerRefusal, Owner};
pub use sends::Sends;
