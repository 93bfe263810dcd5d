use kp_edge::Blob;

/// What a request that waits is given from outside.
#[derive(Drop)]
pub enum Given<A: Drop> {
    /// The body of the broker's response to its send, as the service read it.
    Answer(A),
    /// Its send is listed and gets no response, as a Produce with acks 0.
    NoResponse,
    /// The verdict on its hold.
    Verdict(Blob),
}
