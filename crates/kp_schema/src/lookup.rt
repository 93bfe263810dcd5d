//! The table by key, version and direction.
ghost use Rattle.std.specs.Prelude.{◌≡◌, is_some, option_copied};
ghost use Rattle.kp_schema.specs.Messages.{fields_of, is_supported, supported_versions};

use crate::dir::Dir;
use crate::field::Field;
use crate::messages::{
    api_versions, create_topics, delete_topics, describe_groups, fetch, find_coordinator,
    heartbeat, join_group, leave_group, list_groups, list_offsets, metadata, offset_commit,
    offset_fetch, produce, sync_group,
};

static SUPPORTED: [(i16, i16, i16); 16] = [
    (0, 3, 8), // Produce
    (1, 4, 11), // Fetch
    (2, 1, 5), // ListOffsets
    (3, 1, 8), // Metadata
    (8, 2, 7), // OffsetCommit
    (9, 1, 5), // OffsetFetch
    (10, 0, 2), // FindCoordinator
    (11, 0, 5), // JoinGroup
    (12, 0, 3), // Heartbeat
    (13, 0, 3), // LeaveGroup
    (14, 0, 3), // SyncGroup
    (15, 0, 4), // DescribeGroups
    (16, 0, 2), // ListGroups
    (18, 0, 2), // ApiVersions
    (19, 0, 4), // CreateTopics
    (20, 0, 3), // DeleteTopics
];

/// The APIs that are read, with their least and their greatest version, as a broker lists them in
/// its answer to ApiVersions ("API Keys").
#[tactic(auto, unfolding(crate::specs::Messages::messages, crate::specs::Messages::supported_versions))]
pub fn supported() -> &'static [(i16, i16, i16)]
    ensures { result.now ≡ supported_versions }
{
    &SUPPORTED
}

/// The fields of a message of this API and version, in the order in which they are sent, or `None`
/// where the API or the version isn't one of those that are read.
pub fn fields(key: i16, version: i16, dir: Dir) -> Option<&'static [Field]>
    ensures fields { option_copied result ≡ fields_of key version dir }
    ensures supported { is_some result ≡ is_supported key version }
{
    match dir {
        Dir::Request => request(key, version),
        Dir::Response => response(key, version),
    }
}

#[tactic(auto, unfolding(crate::specs::Messages::messages, crate::specs::Messages::fields_of))]
fn request(key: i16, version: i16) -> Option<&'static [Field]>
    ensures { option_copied result ≡ fields_of key version Dir.Request }
{
    match key {
        0 => produce::request(version),
        1 => fetch::request(version),
        2 => list_offsets::request(version),
        3 => metadata::request(version),
        8 => offset_commit::request(version),
        9 => offset_fetch::request(version),
        10 => find_coordinator::request(version),
        11 => join_group::request(version),
        12 => heartbeat::request(version),
        13 => leave_group::request(version),
        14 => sync_group::request(version),
        15 => describe_groups::request(version),
        16 => list_groups::request(version),
        18 => api_versions::request(version),
        19 => create_topics::request(version),
        20 => delete_topics::request(version),
        _ => None,
    }
}

#[tactic(auto, unfolding(crate::specs::Messages::messages, crate::specs::Messages::fields_of))]
fn response(key: i16, version: i16) -> Option<&'static [Field]>
    ensures { option_copied result ≡ fields_of key version Dir.Response }
{
    match key {
        0 => produce::response(version),
        1 => fetch::response(version),
        2 => list_offsets::response(version),
        3 => metadata::response(version),
        8 => offset_commit::response(version),
        9 => offset_fetch::response(version),
        10 => find_coordinator::response(version),
        11 => join_group::response(version),
        12 => heartbeat::response(version),
        13 => leave_group::response(version),
        14 => sync_group::response(version),
        15 => describe_groups::response(version),
        16 => list_groups::response(version),
        18 => api_versions::response(version),
        19 => create_topics::response(version),
        20 => delete_topics::response(version),
        _ => None,
    }
}
