/// What the caller of a station is told.
#[derive(Clone, Copy, Debug, PartialEq, Eq)]
pub enum Told {
    /// None of the others: each frame found room, and nothing was refused.
    Fine,
    /// A client's frame found no room, and is kept.
    Full,
    /// The stream has ended before, or the connection refused a frame of it.
    Closed,
    /// Nothing waits for this verdict.
    NotWaiting,
}
