//! What becomes of a request under a chain of probes, worked out by a plain program over lists.
//!
//! ```text
//!   the kinds of the probes, from the client to the broker --+
//!   the client's request ------------------------------------+--> course_of: how the request stands, and how many
//!   all that came for it from outside, in order -------------+            turns the probes had
//! ```
//!
//! The program begins anew with each list. It keeps no run, shares no code with `filter_chain` or `filter_probes`, and
//! knows a response as the place of the answer that brought it. Tests compare it with them.
#![tactic(auto)]

mod course;
mod message;
mod probe_kind;

pub use course::{Course, Outcome, course_of};
pub use message::{Came, Message, Response, ResponseBody};
pub use probe_kind::ProbeKind;
