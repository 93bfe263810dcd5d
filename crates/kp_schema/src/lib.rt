//! Every Kafka message that is read, as data: which fields each version of it has, in order.
//!
//! ```text
//!   key 1, version 4, Request            0 replica_id I32
//!        │                               ..
//!        │  fields                       0 topics Array
//!        └─────────────────────────▶     1   name Str, marked Topic
//!                                        1   partitions Array
//!                                        2     partition I32
//!                                        ..
//! ```
//!
//! A *message* is a request or a response of an API, without its header. It is a list of *fields*.
//! An array's entries are the fields behind it that lie deeper; an array of plain numbers or texts
//! has entries of one field. A *mark* says that a text names a topic, a group, a transactional id,
//! or whatever a coordinator is asked for.
//!
//! The table is all there is: no byte is read or written here, no header is described, and no name
//! of a field is kept when the program runs. The names are in the source, for its reader, and in
//! `docs/MESSAGES.md`. The versions with tagged fields ("flexible versions", KIP-482) are left out.
#![tactic(auto)]

mod dir;
mod field;
mod kind;
mod laws;
mod lookup;
mod mark;
mod messages;
mod table;
#[cfg(test)]
mod tests;

pub use dir::Dir;
pub use field::Field;
pub use kind::Kind;
pub use laws::table_laws;
pub use lookup::{fields, supported};
pub use mark::Mark;
