//! Bodies of messages, read and spelled exactly.
//!
//! ```text
//!   bytes of a body ── decode ──▶ Body ── encode ──▶ the same bytes
//!         │                        │ ▲
//!         ▼                        │ └── set, retain, Builder
//!   DecodeFault at the bad place   └── get, items
//! ```
//!
//! A [`Body`] keeps its items in reading order, one behind the other. Texts, and lists of bytes, are parts
//! of the frame that they came in: a record batch is neither copied nor looked at by [`decode`]. What a body is, and
//! which bytes spell it, is said in `tree_spelling`.
//!
//! The codec goes by an *agenda*: the fields that are still to come, by the levels of the arrays that the
//! next one lies in. It knows no message but by the table of `kp_schema`, and no header.
#![tactic(auto)]

mod agenda;
mod body;
mod builder;
mod decode_fault;
mod decoder;
mod edit;
mod encode_fault;
mod encoder;
mod found;
mod item_reader;
mod items;
mod level;
mod message;
mod message_fields;
mod read;
mod retain;
mod walk;

pub use body::Body;
pub use builder::Builder;
pub use decode_fault::DecodeFault;
pub use decoder::decode;
pub use encode_fault::EncodeFault;
pub use encoder::{append, encode};
pub use tree_spelling::{EditFault, Item, Primitive};

#[cfg(test)]
mod tests;
