//! One proxied connection with its two byte streams, on one thread.
//!
//! ```text
//!   client pieces --client--> |framer| --take-->   |            | --send--> frames for the broker
//!                             | kept |             | connection |
//!   responses     <--emit---------------------------|            | <--answer-- |framer| <--broker-- broker pieces
//! ```
//!
//! A [`Station`] cuts what comes from its two peers into frames and hands them on to the connection. A client's frame
//! that finds no room is kept, and is handed on by a later call. The crate reads no socket, and it waits for nothing: its
//! caller brings the pieces and takes away what is to be written.
#![tactic(auto)]

mod hand_on;
mod laws;
mod peer;
mod receipt;
mod side;
mod station;
mod told;

pub use laws::stream_laws;
pub use peer::Peer;
pub use station::Station;
pub use told::Told;

#[cfg(test)]
mod tests;
