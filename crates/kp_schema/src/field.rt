//! A row of the table.
use crate::kind::Kind;
use crate::mark::Mark;

/// A field of a message, and the versions of the message that have it.
#[derive(Clone, Copy, Debug, PartialEq, Eq)]
pub struct Field {
    /// In how many arrays the field lies.
    pub depth: u8,
    pub kind: Kind,
    /// The first version that has the field.
    pub from: i16,
    /// The last one.
    pub to: i16,
    pub mark: Mark,
}
