//! The trait of filters, which see each request and what comes back for it.
//!
//! ```text
//!   request --start--> a move --> Forward, Side: a message towards the broker --its response--+
//!                        ^  |---> Hold: a question to an authority ------its verdict----------+--> resume
//!                        |  |---> Return: the response        Shut: the connection ends       |
//!                        +--------------------------------------------------------------------+
//! ```
//!
//! A filter is a function from a request and all that it was given since to a decision (`turn`). The code keeps a
//! *pending* value in place of what it was given. The laws say what a chain may rely on: docs/FILTERS.md has them in
//! plain words, each with its reason, and one filter shown whole.
//!
//! How filters follow one another is said in `filter_chain`.
#![tactic(auto)]

mod filter;
mod input;
mod laws;
mod moves;
mod reason;

pub use filter::Filter;
pub use input::Input;
pub use laws::acks_law;
pub use moves::Move;
pub use reason::Reason;
