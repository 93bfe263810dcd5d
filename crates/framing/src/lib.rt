//! A stream of bytes, cut into the frames that Kafka sends on it ("Common Request and Response
//! Structure" of the protocol guide).
//!
//! ```text
//!   pieces, as they come    |         |                   |             |
//!   the stream              [size|frame ][size|    frame      ][size|fra
//!                            given        given                ^ at     rest is from here on
//! ```
//!
//! A [`Framer`] is fed with pieces and gives frames. [`RequestHead`] and [`ResponseHead`] read and
//! write what a frame begins with. The crate reads no socket and no body, and never ends a stream by
//! itself: a bad size is an answer, and the caller decides.
#![tactic(auto)]

mod framer;
mod head_fault;
mod laws;
mod next;
mod request_head;
mod response_head;

pub use framer::Framer;
pub use head_fault::HeadFault;
pub use laws::{
    bad_size_stays, cut_in_pieces, each_stream_has_a_cut, first_frames_of_a_cut, frame_or_tail,
    frames_of_a_run, one_cut,
};
pub use next::Next;
pub use request_head::{RequestHead, body_place, start};
pub use response_head::ResponseHead;

#[cfg(test)]
mod tests;
