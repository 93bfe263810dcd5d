use crate::sequence::Sequence;
use kp_edge::Blob;

/// A filter that a plan asks for, by its word in the configuration.
#[derive(Debug, Drop)]
pub enum FilterPlan {
    /// `produce-all`
    ProduceAll,
    /// `topic-deny`, with the topics' names.
    TopicDeny(Sequence<Blob>),
    /// `api-block`, with the API keys.
    ApiBlock(Sequence<i16>),
    /// `topic-policy`
    TopicPolicy,
    /// `topic-exists`
    TopicExists,
    /// `group-live`
    GroupLive,
}
