//! One proxied connection without its streams, for whatever its requests mean.
//!
//! ```text
//!   client frame --take--> begin --> a slot --its asks--> sends --send--> broker
//!                                     |  ^--- go_on <--answer-- broker frame
//!                                     |  ^--- go_on <--complete-- verdict on a hold <--pick--
//!   client <--emit-- its response <---+
//! ```
//!
//! A [`Service`] says what a request means: what it asks for, with what it goes on, and its response. [`Serving`]
//! keeps the requests in flight and the sends, and does at each event what the machine of `conn_rules` does. It reads
//! no socket and no body, and knows no API.
#![tactic(auto)]

mod cause;
mod connection;
mod flight;
mod frame;
mod given;
mod listing;
mod message;
mod progress;
mod service;
mod slot;

pub use cause::Cause;
pub use connection::Serving;
pub use frame::WholeFrame;
pub use given::Given;
pub use message::Message;
pub use progress::{Begun, Progress};
pub use service::Service;

#[cfg(test)]
mod tests;
