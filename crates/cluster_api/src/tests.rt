//! Fields that come with one version: each but the first, alone.
use crate::*;
use bytes::Bytes;
use std::test::*;
use views::{View, ViewFault};

fn misplaced(field: u16) -> Option<ViewFault> {
    Some(ViewFault::Misplaced { field })
}

#[test]
fn an_error_message_comes_with_version_1(rt: HostRuntime) -> Result<(), Fail> {
    for (version, throttle_time_ms, error_message) in [
        (0, None, Some(None)),
        (1, Some(0), None),
        (2, Some(0), None),
    ] {
        let view = FindCoordinatorResponse {
            version,
            throttle_time_ms,
            error_code: 0,
            error_message,
            node_id: 1,
            host: Some(Bytes::from_static(b"k")),
            port: 9092,
        };
        assert!(rt; view.body(rt.alloc()).err() == misplaced(2));
    }
    Ok(())
}

#[test]
fn operations_of_topics_are_asked_for_in_version_8(rt: HostRuntime) -> Result<(), Fail> {
    for (version, cluster, topic) in [(7, None, Some(1)), (8, Some(1), None)] {
        let view = MetadataRequest {
            version,
            topics: None,
            allow_auto_topic_creation: Some(0),
            include_cluster_authorized_operations: cluster,
            include_topic_authorized_operations: topic,
        };
        assert!(rt; view.body(rt.alloc()).err() == misplaced(4));
    }
    Ok(())
}

#[test]
fn operations_of_the_cluster_come_with_version_8(rt: HostRuntime) -> Result<(), Fail> {
    for (version, cluster) in [(7, Some(1)), (8, None)] {
        let view = MetadataResponse {
            version,
            throttle_time_ms: Some(0),
            brokers: None,
            cluster_id: Some(None),
            controller_id: 1,
            topics: None,
            cluster_authorized_operations: cluster,
        };
        assert!(rt; view.body(rt.alloc()).err() == misplaced(24));
    }
    Ok(())
}
