use bytes::Bytes;

/// What comes next on a stream.
#[derive(Debug, Drop, PartialEq, Eq)]
pub enum Next {
    /// A frame without its size.
    Frame(Bytes),
    /// The bytes at the front begin a frame and don't end it.
    Wait,
    /// The bytes at the front begin with a size outside the limits. `at` is its place in the whole
    /// stream.
    BadSize { at: u64, size: i32 },
}
