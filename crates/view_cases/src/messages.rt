//! The messages by their keys.
use crate::case::Case;
use crate::telling::told;
use cluster_api::*;
use group_api::*;
use kp_schema::Dir;
use log_api::*;
use std::alloc::{AllocError, Global};

/// What the message of this case comes to.
pub fn answer(alloc: Global, case: &Case) -> Result<String, AllocError> {
    match case.dir {
        Dir::Request => request(alloc, case),
        Dir::Response => response(alloc, case),
    }
}

fn request(alloc: Global, case: &Case) -> Result<String, AllocError> {
    match case.key {
        0 => told(
            alloc,
            case,
            |view: &mut ProduceRequest, version| view.version = version,
        ),
        1 => told(
            alloc,
            case,
            |view: &mut FetchRequest, version| view.version = version,
        ),
        2 => told(
            alloc,
            case,
            |view: &mut ListOffsetsRequest, version| view.version = version,
        ),
        3 => told(
            alloc,
            case,
            |view: &mut MetadataRequest, version| view.version = version,
        ),
        8 => told(
            alloc,
            case,
            |view: &mut OffsetCommitRequest, version| view.version = version,
        ),
        9 => told(
            alloc,
            case,
            |view: &mut OffsetFetchRequest, version| view.version = version,
        ),
        10 => told(
            alloc,
            case,
            |view: &mut FindCoordinatorRequest, version| view.version = version,
        ),
        11 => told(
            alloc,
            case,
            |view: &mut JoinGroupRequest, version| view.version = version,
        ),
        12 => told(
            alloc,
            case,
            |view: &mut HeartbeatRequest, version| view.version = version,
        ),
        13 => told(
            alloc,
            case,
            |view: &mut LeaveGroupRequest, version| view.version = version,
        ),
        14 => told(
            alloc,
            case,
            |view: &mut SyncGroupRequest, version| view.version = version,
        ),
        15 => told(
            alloc,
            case,
            |view: &mut DescribeGroupsRequest, version| view.version = version,
        ),
        16 => told(
            alloc,
            case,
            |view: &mut ListGroupsRequest, version| view.version = version,
        ),
        18 => told(
            alloc,
            case,
            |view: &mut ApiVersionsRequest, version| view.version = version,
        ),
        19 => told(
            alloc,
            case,
            |view: &mut CreateTopicsRequest, version| view.version = version,
        ),
        20 => told(
            alloc,
            case,
            |view: &mut DeleteTopicsRequest, version| view.version = version,
        ),
        _ => String::from_str(alloc, "no such message"),
    }
}

fn response(alloc: Global, case: &Case) -> Result<String, AllocError> {
    match case.key {
        0 => told(
            alloc,
            case,
            |view: &mut ProduceResponse, version| view.version = version,
        ),
        1 => told(
            alloc,
            case,
            |view: &mut FetchResponse, version| view.version = version,
        ),
        2 => told(
            alloc,
            case,
            |view: &mut ListOffsetsResponse, version| view.version = version,
        ),
        3 => told(
            alloc,
            case,
            |view: &mut MetadataResponse, version| view.version = version,
        ),
        8 => told(
            alloc,
            case,
            |view: &mut OffsetCommitResponse, version| view.version = version,
        ),
        9 => told(
            alloc,
            case,
            |view: &mut OffsetFetchResponse, version| view.version = version,
        ),
        10 => told(
            alloc,
            case,
            |view: &mut FindCoordinatorResponse, version| view.version = version,
        ),
        11 => told(
            alloc,
            case,
            |view: &mut JoinGroupResponse, version| view.version = version,
        ),
        12 => told(
            alloc,
            case,
            |view: &mut HeartbeatResponse, version| view.version = version,
        ),
        13 => told(
            alloc,
            case,
            |view: &mut LeaveGroupResponse, version| view.version = version,
        ),
        14 => told(
            alloc,
            case,
            |view: &mut SyncGroupResponse, version| view.version = version,
        ),
        15 => told(
            alloc,
            case,
            |view: &mut DescribeGroupsResponse, version| view.version = version,
        ),
        16 => told(
            alloc,
            case,
            |view: &mut ListGroupsResponse, version| view.version = version,
        ),
        18 => told(
            alloc,
            case,
            |view: &mut ApiVersionsResponse, version| view.version = version,
        ),
        19 => told(
            alloc,
            case,
            |view: &mut CreateTopicsResponse, version| view.version = version,
        ),
        20 => told(
            alloc,
            case,
            |view: &mut DeleteTopicsResponse, version| view.version = version,
        ),
        _ => String::from_str(alloc, "no such message"),
    }
}
