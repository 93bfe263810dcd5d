use kp_edge::Blob;
use tree_codec::Body;

/// What a request is given from outside of the chain.
#[derive(Drop)]
pub enum Outside {
    /// The broker's response to the message that was asked.
    Answer(Body),
    /// The message gets no response, as a Produce with acks 0.
    NoResponse,
    /// The verdict on a hold.
    Verdict(Blob),
}
