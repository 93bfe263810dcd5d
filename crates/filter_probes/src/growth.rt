/// What of a SyncGroup request a filter has grow.
#[derive(Clone, Copy, Debug)]
pub enum Growth {
    /// The message that goes to the broker.
    Sends,
    /// The response that goes to the client. The broker isn't asked.
    Responses,
}
