use bytes::Bytes;

// What became of a frame that was handed on.
#[derive(Drop)]
pub(crate) enum Receipt {
    Accepted,
    // The connection takes no more frames of this peer.
    Refused,
    // There is no room for it. It comes back.
    Full(Bytes),
    NoMemory,
}
