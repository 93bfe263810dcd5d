//! The filters that a configuration can name.
//!
//! ```text
//!   Narrow        of a broker's versions pass those that both know; each chain begins with it
//!   produce-all   a Produce request with acks 1 goes on with acks -1
//!   topic-deny    a Produce request with a listed topic is answered at once, each partition refused
//!   api-block     a request for a listed API shuts the connection
//!   topic-policy  an authority says which topics of a CreateTopics request may be created
//!   topic-exists  topics that a broker has already are refused before a CreateTopics request is forwarded
//!   group-live    of the groups that a broker lists pass those that aren't dead
//! ```
//!
//! Each stands in a source file and a spec file of its own. What a filter doesn't name passes as it came. How to write
//! one is said in docs/FILTERS.md.
#![tactic(auto)]

mod api_block;
mod building;
mod create_topics;
mod forwarded;
mod group_live;
mod laws;
mod narrow;
mod produce;
mod produce_all;
#[cfg(test)]
mod tests;
mod topic_deny;
mod topic_exists;
mod topic_policy;
mod versions;

pub use api_block::ApiBlock;
pub use create_topics::Screened;
pub use forwarded::Forwarded;
pub use group_live::{GroupLive, Listing};
pub use laws::fields_law;
pub use narrow::Narrow;
pub use produce_all::ProduceAll;
pub use topic_deny::TopicDeny;
pub use topic_exists::TopicExists;
pub use topic_policy::TopicPolicy;
