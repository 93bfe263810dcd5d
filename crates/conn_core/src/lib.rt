//! One proxied connection without its streams, whose requests pass through a chain of filters.
//!
//! ```text
//!   client frame --take--> Chain::begin: read, and given to the chain | told the known versions | no request
//!   broker frame --answer--> Chain::read: its body | it ends the connection
//!                            Chain::go_on: the chain is given the answer --> one more send | a hold | the response
//!   client <--emit-- the response behind the client's own correlation id
//! ```
//!
//! [`Chain`] is a service of `serving`, whose [`Core`] does at each event what the machine of `conn_rules` does. This
//! crate reads no socket and cuts no stream.
#![tactic(auto)]

mod acks;
mod answer_body;
mod chain;
mod chain_run;
mod connection;
mod envelope;
mod kinds;
mod laws;
mod opening;
mod read_answer;
#[cfg(test)]
mod steady;
mod telling;
#[cfg(test)]
mod tests;

pub use answer_body::AnswerBody;
pub use chain::Chain;
pub use chain_run::ChainRun;
pub use conn_rules::{
    AnswerFault, CompleteFault, Connection, Emit, Fault, Look, TakeFault, Ticket,
};
pub use connection::Core;
pub use kp_edge::End;
pub use laws::{chain_law, own_ends_law, spelled_law};
