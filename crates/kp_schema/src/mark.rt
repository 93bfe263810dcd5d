//! What a text names.

/// What a field's text names in the cluster. A field that isn't a text is plain.
#[derive(Clone, Copy, Debug, PartialEq, Eq)]
pub enum Mark {
    /// None of the following.
    Plain,
    /// A topic.
    Topic,
    /// A consumer group.
    Group,
    /// A transactional id.
    Txn,
    /// A group or a transactional id, as the request's `key_type` says (FindCoordinator).
    CoordinatorKey,
}
