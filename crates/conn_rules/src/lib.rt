//! The rules of one proxied connection, as a machine: what may come to it, what it answers, when it ends,
//! and the law that its client is sent the responses to the first of its requests, in order.
//!
//!   client frame --take--> request --its asks--> sends --send--> broker
//!   client <--emit-- response <--what its request means-- answers <--answer-- broker frame
//!
//! Beside definitions and laws it has the trait `Connection` and `Causes`. It knows no socket, no buffer
//! and no filter: what a request asks for and what its response is comes as a `Meaning` from above.
#![tactic(auto)]

mod causes;
mod connection;
mod event;
mod laws;

pub use causes::Causes;
pub use connection::Connection;
pub use event::{AnswerFault, CompleteFault, Emit, Event, Fault, Look, Reply, TakeFault, Ticket};
pub use laws::{
    causes_law, end_stays_law, first_frames_law, order_law, requests_law, sweep_laws, told_law,
    work_law, worked_exchange,
};
