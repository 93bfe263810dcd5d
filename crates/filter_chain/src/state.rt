use crate::run::Run;
use filter_core::Reason;
use side_requests::Ask;
use tree_codec::Body;

/// How a request stands.
#[derive(Drop)]
pub enum State<P: Drop> {
    /// It waits for this. The run goes on once it is given the answer.
    Needs(Run<P>, Ask),
    /// Its response, or that it gets none.
    Done(Option<Body>),
    /// The connection ends.
    Shut(ShutCause),
}

/// Why a request ends the connection.
#[derive(Clone, Copy, Debug, PartialEq, Eq, Drop)]
pub enum ShutCause {
    /// The filter with this number shut it. The filter nearest the client has 0.
    Filter { filter: u32, reason: Reason },
    /// It was given 64 answers from outside and asks for one more.
    AskBudget,
}
