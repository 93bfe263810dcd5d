//! What a body is, and which bytes spell it: the definitions that the codec meets, and those who
//! read and change bodies cite.
//!
//! ```text
//!   fields of a version     shape                    value                  items         bytes
//!   0 error_code I16        Plain I16                 0                      Int16 0       0000
//!   0 api_keys   Array      Array (                   [ (18, 0, 3),          Count 2       00000002
//!   1   api_key    I16        Plain I16 ..              (19, 0, 4) ]         Int16 18      0012
//!   ..                      )                                                ..            ..
//! ```
//!
//! A *shape* is what the fields of a message look like without their depths. A *value* of a shape is
//! a tree of numbers, texts, lists of bytes, nulls and lists of entries. Its *items* are these in
//! reading order, with the count of an array before its entries, and its spelling is the spellings of
//! the items, one behind the other ("Protocol Primitive Types" of the guide).
//!
//! Bytes that are read have to spell a value within the limit of entries. Bytes that don't have one
//! bad place. `specs/Shape.antt`, `Value.antt` and `Spelling.antt` say so; `Agenda.antt` is what the
//! proofs of the codec go by.
//!
//! No byte is read or written here: that is `tree_codec`.
#![tactic(auto)]

mod edit_fault;
mod item;
mod laws;
mod primitive;

pub use edit_fault::EditFault;
pub use item::Item;
pub use laws::{decoding_law, spelling_laws, worked_bodies};
pub use primitive::Primitive;
