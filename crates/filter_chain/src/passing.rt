use filter_core::{Input, Reason};
use side_requests::Ask;
use tree_codec::Body;

/// What passes from one filter to another.
#[derive(Drop)]
pub enum Passing {
    /// A message goes on to the next filter, or to the broker.
    Message { message: Body, main: bool },
    /// Something comes back to the filter that was suspended last, or to the client.
    Input(Input),
}

/// Where nothing passes any more.
#[derive(Drop)]
pub enum Stop {
    Needs(Ask),
    Done(Input),
    Shut { filter: u32, reason: Reason },
}

/// What comes of a turn.
#[derive(Drop)]
pub enum Next {
    Passes(Passing),
    Stops(Stop),
}
