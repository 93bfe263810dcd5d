//! The messages about brokers and topics as structs: Metadata, FindCoordinator, ApiVersions, CreateTopics and DeleteTopics.
//!
//! ```text
//!   FindCoordinator response, version 1        FindCoordinatorResponse { version: 1,
//!     throttle_time_ms  INT32          0         throttle_time_ms: Some(0),              None in version 0
//!     error_code        INT16          0         error_code: 0,
//!     error_message     STRING      null         error_message: Some(None),              None in version 0
//!     node_id           INT32          1         node_id: 1,
//!     host              STRING         k         host: Some("k"),
//!     port              INT32       9092         port: 9092 }
//! ```
//!
//! An API has a request and a response, in a file of its own. A struct has the version and then the fields of the
//! guide's "The Messages", with the guide's names and in its order (docs/MESSAGES.md). Texts are bytes that may be null.
//!
//! `of` and `body` of the trait `View` lead from a body to its struct and back. Nothing here knows what a message is for.
#![tactic(auto)]

mod api_versions;
mod create_topics;
mod delete_topics;
mod find_coordinator;
mod laws;
mod metadata_request;
mod metadata_response;

pub use api_versions::{ApiVersionsRequest, ApiVersionsResponse, ApiVersionsResponseApiKey};
pub use create_topics::{
    CreateTopicsRequest, CreateTopicsRequestAssignment, CreateTopicsRequestConfig,
    CreateTopicsRequestTopic, CreateTopicsResponse, CreateTopicsResponseTopic,
};
pub use delete_topics::{DeleteTopicsRequest, DeleteTopicsResponse, DeleteTopicsResponseTopic};
pub use find_coordinator::{FindCoordinatorRequest, FindCoordinatorResponse};
pub use laws::{
    api_versions_formats, create_topics_formats, delete_topics_formats, find_coordinator_formats,
    metadata_formats,
};
pub use metadata_request::{MetadataRequest, MetadataRequestTopic};
pub use metadata_response::{
    MetadataResponse, MetadataResponseBroker, MetadataResponsePartition, MetadataResponseTopic,
};

#[cfg(test)]
mod tests;
