//! Messages as structs, with Kafka's own names for their fields.
//!
//! ```text
//!                    of                                          read: one call a field
//!   Body   ───────────────────────▶   HeartbeatRequest {      ◀──── Cursor, over the body's items
//!   (12, 3, Request,                    version: 3,
//!    Text, Int32, Text, Text)           group_id: Some(b"g"),
//!          ◀───────────────────────     ..                    ────▶ Writer, over a Builder of the body
//!                   body              }                          write: one call a field
//! ```
//!
//! A [`View`] is a struct of this kind, and an [`Entry`] is what stands in one of its arrays. Here is what all of them
//! share: `of` and `body`, the calls by which a struct says its fields, and the law that items have one view.
//!
//! What a view is of its body is said by a *format* and by the values of its fields in that order (`specs/Format.antt`),
//! from which follow the items (`specs/Reading.antt`) and which fields don't fit the version (`specs/Fitting.antt`).
//!
//! No byte is read or written here: that is `tree_codec`. No field is looked for by its path.
#![tactic(auto)]

mod cursor;
mod entries;
mod entry;
mod laws;
mod name;
mod number;
mod view;
mod view_fault;
mod writer;

pub use cursor::Cursor;
pub use entries::Entries;
pub use entry::Entry;
pub use laws::view_laws;
pub use name::Name;
pub use number::Number;
pub use view::View;
pub use view_fault::ViewFault;
pub use writer::Writer;
