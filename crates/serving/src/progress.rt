use crate::cause::Cause;
use crate::frame::WholeFrame;
use crate::message::Message;
use kp_edge::Blob;

/// What comes of a client's frame.
#[derive(Drop)]
pub enum Begun<R: Drop> {
    /// It is no request, and ends the connection in its place.
    NoRequest(Cause),
    /// It is a request. A silent one gets no response.
    Request { silent: bool, progress: Progress<R> },
}

/// How far a request has come, with the run that goes on once it is given what it waits for.
#[derive(Drop)]
pub enum Progress<R: Drop> {
    /// It waits for the broker's response to this message, or for its listing where it gets none.
    Sends(Message, R),
    /// It waits for a verdict on this key.
    Holds(Blob, R),
    /// It is done, with its response. A silent one has none.
    Done(Option<WholeFrame>),
    /// It ends the connection.
    Failed(Cause),
}
