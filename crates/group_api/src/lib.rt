//! The messages about consumer groups as structs.
//!
//! ```text
//!   Heartbeat request, version 3               HeartbeatRequest { version: 3,
//!     group_id          STRING         g         group_id: Some("g"),
//!     generation_id     INT32          1         generation_id: 1,
//!     member_id         STRING         m         member_id: Some("m"),
//!     group_instance_id STRING      null         group_instance_id: Some(None) }     None in versions 0 to 2
//! ```
//!
//! An API has a request and a response, in a file of its own. A struct has the version and then the fields of the
//! guide's "The Messages", with the guide's names and in its order (docs/MESSAGES.md). Texts are bytes that may be null.
//! What stands in an array is a struct too, or a `Number` or a `Name` where it is one of these alone.
//!
//! `of` and `body` of the trait `View` lead from a body to its struct and back. Nothing here knows what a message is for.
#![tactic(auto)]

mod describe_groups;
mod heartbeat;
mod join_group;
mod laws;
mod leave_group;
mod list_groups;
mod offset_commit;
mod offset_fetch;
mod sync_group;

pub use describe_groups::{
    DescribeGroupsRequest, DescribeGroupsResponse, DescribeGroupsResponseGroup,
    DescribeGroupsResponseMember,
};
pub use heartbeat::{HeartbeatRequest, HeartbeatResponse};
pub use join_group::{
    JoinGroupRequest, JoinGroupRequestProtocol, JoinGroupResponse, JoinGroupResponseMember,
};
pub use laws::{
    describe_groups_formats, heartbeat_formats, join_group_formats, leave_group_formats,
    list_groups_formats, offset_commit_formats, offset_fetch_formats, sync_group_formats,
};
pub use leave_group::{
    LeaveGroupRequest, LeaveGroupRequestMember, LeaveGroupResponse, LeaveGroupResponseMember,
};
pub use list_groups::{ListGroupsRequest, ListGroupsResponse, ListGroupsResponseGroup};
pub use offset_commit::{
    OffsetCommitRequest, OffsetCommitRequestPartition, OffsetCommitRequestTopic,
    OffsetCommitResponse, OffsetCommitResponsePartition, OffsetCommitResponseTopic,
};
pub use offset_fetch::{
    OffsetFetchRequest, OffsetFetchRequestTopic, OffsetFetchResponse, OffsetFetchResponsePartition,
    OffsetFetchResponseTopic,
};
pub use sync_group::{SyncGroupRequest, SyncGroupRequestAssignment, SyncGroupResponse};

#[cfg(test)]
mod tests;
