/// Why a filter ends the connection.
#[derive(Clone, Copy, Debug, PartialEq, Eq, Drop)]
pub enum Reason {
    /// A number of the filter's own.
    Code(u16),
    /// The broker names a node that the plan has no port for.
    NodeOutOfRange(i32),
    /// A name would have so many bytes, more than a STRING can say.
    NameTooLong(u64),
}
