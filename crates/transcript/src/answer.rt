use bytes::Bytes;
use kp_edge::{Blob, End};

/// What a line of a script gives.
#[derive(Debug, Drop)]
pub enum Answer {
    /// It was done.
    Fine,
    /// A client's frame found no room, and is kept.
    Full,
    /// That side has ended, or the connection takes no more.
    Closed,
    /// No such hold waits for a verdict.
    NotWaiting,
    /// A frame for the broker, its size in front.
    ToBroker(Bytes),
    /// A frame for the client, its size in front.
    ToClient(Bytes),
    /// There is nothing to take.
    Nothing,
    /// No response is ready yet.
    Later,
    /// The connection is over.
    Over(End),
    /// The hold of a request by the number of its ask.
    Ticket { request: u64, index: u32, key: Blob },
}
