use bytes::Bytes;

/// One item of a body, as those see it who look at bodies and make them. `None` is null.
#[derive(Debug, PartialEq, Eq, Drop)]
pub enum Item {
    /// INT8, INT16, INT32 or INT64.
    Number(i64),
    /// BOOLEAN, as its byte.
    Flag(u8),
    /// STRING, BYTES or RECORDS.
    Text(Option<Bytes>),
    /// How many entries an ARRAY has.
    Entries(Option<u32>),
}
