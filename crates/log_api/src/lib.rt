//! The messages about records as structs: Produce, Fetch and ListOffsets.
//!
//! ```text
//!   Produce request, version 3                 ProduceRequest { version: 3,
//!     transactional_id  STRING      null         transactional_id: None,
//!     acks              INT16         -1         acks: -1,
//!     timeout_ms        INT32       1000         timeout_ms: 1000,
//!     topics            ARRAY          1         topics: Some([ ProduceRequestTopic {
//!       name              STRING       t             name: Some("t"),
//!       partitions        ARRAY        1             partitions: Some([ ProduceRequestPartition {
//!         index             INT32      0                 index: 0,
//!         records           BYTES      ..                records: Some(..) } ]) } ]) }
//! ```
//!
//! An API has a request and a response, in a file of its own. A struct has the version and then the fields of the
//! guide's "The Messages", with the guide's names and in its order (docs/MESSAGES.md). Records are bytes: no batch is read.
//!
//! `of` and `body` of the trait `View` lead from a body to its struct and back. Nothing here knows what a message is for.
#![tactic(auto)]

mod fetch_request;
mod fetch_response;
mod laws;
mod list_offsets;
mod produce_request;
mod produce_response;

pub use fetch_request::{
    FetchRequest, FetchRequestForgottenTopic, FetchRequestPartition, FetchRequestTopic,
};
pub use fetch_response::{
    FetchResponse, FetchResponseAbortedTransaction, FetchResponsePartition, FetchResponseTopic,
};
pub use laws::{fetch_formats, list_offsets_formats, produce_formats};
pub use list_offsets::{
    ListOffsetsRequest, ListOffsetsRequestPartition, ListOffsetsRequestTopic, ListOffsetsResponse,
    ListOffsetsResponsePartition, ListOffsetsResponseTopic,
};
pub use produce_request::{ProduceRequest, ProduceRequestPartition, ProduceRequestTopic};
pub use produce_response::{
    ProduceResponse, ProduceResponsePartition, ProduceResponseRecordError, ProduceResponseTopic,
};

#[cfg(test)]
mod tests;
