use crate::input::Input;
use crate::reason::Reason;
use kp_edge::Blob;
use tree_codec::Body;

/// A filter's move. `P` is what it keeps until it is given an [`Input`].
#[derive(Drop)]
pub enum Move<P: Drop> {
    /// The request goes on towards the broker as this message. The input is its response, or that there is none.
    Forward(Body, P),
    /// This message is asked of the broker aside. The input is its response.
    Side(Body, P),
    /// An authority is asked about this key. The input is its verdict.
    Hold(Blob, P),
    /// This response goes back towards the client. `None` is no response.
    Return(Option<Body>),
    /// The connection ends.
    Shut(Reason),
}
