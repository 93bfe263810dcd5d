//! Fields that come with one version: each but the first, alone.
use crate::*;
use std::alloc::Global;
use std::test::*;
use views::{Entries, View, ViewFault};

fn misplaced(field: u16) -> Option<ViewFault> {
    Some(ViewFault::Misplaced { field })
}

#[test]
fn sessions_are_asked_for_from_version_7_on(rt: HostRuntime) -> Result<(), Fail> {
    for (version, id, epoch, forgotten, field) in [
        (6, None, Some(0), None, 6),
        (7, Some(0), None, Some(None), 6),
        (6, None, None, Some(None), 15),
        (7, Some(0), Some(0), None, 15),
    ] {
        let view = FetchRequest {
            version,
            replica_id: -1,
            max_wait_ms: 500,
            min_bytes: 1,
            max_bytes: 1000,
            isolation_level: 0,
            session_id: id,
            session_epoch: epoch,
            topics: None,
            forgotten,
            rack_id: None,
        };
        assert!(rt; view.body(rt.alloc()).err() == misplaced(field));
    }
    Ok(())
}

#[test]
fn a_session_is_told_from_version_7_on(rt: HostRuntime) -> Result<(), Fail> {
    for (version, error_code, session_id) in [(6, None, Some(0)), (7, Some(0), None)] {
        let view = FetchResponse {
            version,
            throttle_time_ms: 0,
            error_code,
            session_id,
            topics: None,
        };
        assert!(rt; view.body(rt.alloc()).err() == misplaced(2));
    }
    Ok(())
}

fn produced(
    alloc: Global,
    partition: ProduceResponsePartition,
) -> Result<Option<Entries<ProduceResponseTopic>>, Fail> {
    let topic = ProduceResponseTopic {
        name: None,
        partitions: Some(Entries::from_vec(vec![in alloc; partition]?)),
    };
    Ok(Some(Entries::from_vec(vec![in alloc; topic]?)))
}

#[test]
fn a_message_of_a_partition_comes_with_version_8(rt: HostRuntime) -> Result<(), Fail> {
    let alloc = rt.alloc();
    for (version, record_errors, error_message) in [(7, None, Some(None)), (8, Some(None), None)] {
        let partition = ProduceResponsePartition {
            index: 0,
            error_code: 0,
            base_offset: 0,
            log_append_time_ms: -1,
            log_start_offset: Some(0),
            record_errors,
            error_message,
        };
        let view = ProduceResponse {
            version,
            topics: produced(alloc, partition)?,
            throttle_time_ms: 0,
        };
        assert!(rt; view.body(alloc).err() == misplaced(11));
    }
    Ok(())
}
