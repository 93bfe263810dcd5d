//! The primitive types of the protocol.

/// What a field is, by the guide's "Protocol Primitive Types".
#[derive(Clone, Copy, Debug, PartialEq, Eq)]
pub enum Kind {
    /// INT8.
    I8,
    /// INT16.
    I16,
    /// INT32.
    I32,
    /// INT64.
    I64,
    /// BOOLEAN.
    Bool,
    /// STRING or NULLABLE_STRING, which are spelled alike but for null.
    Str,
    /// BYTES, NULLABLE_BYTES or RECORDS.
    Bytes,
    /// ARRAY, whose entries' fields follow it one deeper. It may be null.
    Array,
}
