//! What follows of every chain of filters, since each of its filters keeps the five laws.
//!
//! ```text
//!   a whole request ---> a chain of lawful filters ---> Needs: of the broker the request itself, once at most,
//!                                                             or a message aside whose response will come
//!        what may come for it -----^                ---> Completed: a response of the request's own API and version
//!                                                   ---> never: a filter without an end
//! ```
//!
//! `filter_chain` says what a chain means, whatever its filters do, and `filter_core` says which laws a filter keeps.
//! This crate says what these two come to. It has no code that a program runs: a call of a law does nothing but give it
//! to its caller's proof.
#![tactic(auto)]

mod chains;
mod ends;
mod responses;
#[cfg(test)]
mod tests;
mod worked;

pub use chains::{filters_are_lawful, lawful_chain_laws};
pub use conn_rules::order_law;
pub use ends::chain_ends_law;
pub use responses::{awaited_law, connection_laws, filters_history_laws, frames_law, history_laws};
pub use worked::worked_chain;
