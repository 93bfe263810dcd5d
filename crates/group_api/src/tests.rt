//! One struct and its body by hand; bodies without a struct, and structs without a body.
use crate::*;
use bytes::Bytes;
use kp_schema::Dir;
use std::alloc::Global;
use std::test::*;
use tree_codec::{Body, decode, encode};
use views::{Entries, View, ViewFault};

fn read(
    alloc: Global,
    key: i16,
    version: i16,
    dir: Dir,
    bytes: &'static [u8],
) -> Result<Body, Fail> {
    let body = decode(alloc, key, version, dir, Bytes::from_static(bytes));
    Ok(body.ok().ok_or("a body")?)
}

fn text(bytes: &'static [u8]) -> Option<Bytes> {
    Some(Bytes::from_static(bytes))
}

fn heartbeat(version: i16, group_instance_id: Option<Option<Bytes>>) -> HeartbeatRequest {
    HeartbeatRequest {
        version,
        group_id: text(b"g"),
        generation_id: 1,
        member_id: text(b"m"),
        group_instance_id,
    }
}

#[test]
fn a_heartbeat_is_its_body(rt: HostRuntime) -> Result<(), Fail> {
    let alloc = rt.alloc();
    let body = heartbeat(0, None).body(alloc).ok().ok_or("a body")?;
    let spelled = encode(alloc, &body, 64).ok().ok_or("the bytes")?;
    assert!(rt; spelled.as_slice() == b"\0\x01g\0\0\0\x01\0\x01m".as_slice());
    let view = HeartbeatRequest::of(alloc, &body).ok().ok_or("a view")?;
    assert_eq!(rt; view.version, 0);
    assert!(rt; view.group_id == text(b"g"));
    assert_eq!(rt; view.generation_id, 1);
    assert!(rt; view.member_id == text(b"m"));
    assert!(rt; view.group_instance_id == None);
    let fault = heartbeat(0, Some(None)).body(alloc).err();
    assert!(rt; fault == Some(ViewFault::Misplaced { field: 3 }));
    Ok(())
}

#[test]
fn a_body_of_another_message_has_no_such_view(rt: HostRuntime) -> Result<(), Fail> {
    let alloc = rt.alloc();
    let bytes = b"\0\x01g\0\0\0\x01\0\x01m";
    let body = read(alloc, 12, 0, Dir::Request, bytes)?;
    let view = HeartbeatResponse::of(alloc, &body);
    assert!(rt; view.err() == Some(ViewFault::WrongApi));
    let list = read(alloc, 16, 0, Dir::Request, b"")?;
    let view = HeartbeatRequest::of(alloc, &list);
    assert!(rt; view.err() == Some(ViewFault::WrongApi));
    Ok(())
}

static LONG: [u8; 32768] = [b'x'; 32768];

#[test]
fn a_text_that_is_too_long_has_no_spelling(rt: HostRuntime) -> Result<(), Fail> {
    let alloc = rt.alloc();
    let mut view = heartbeat(0, None);
    view.member_id = Some(Bytes::from_static(&LONG));
    assert!(rt; view.body(alloc).err() == Some(ViewFault::TooLong { length: 32768 }));
    let mut view = heartbeat(0, Some(None));
    view.group_id = Some(Bytes::from_static(&LONG));
    assert!(rt; view.body(alloc).err() == Some(ViewFault::Misplaced { field: 3 }));
    Ok(())
}

fn leave_group(
    version: i16,
    member_id: Option<Option<Bytes>>,
    members: Option<Option<Entries<LeaveGroupRequestMember>>>,
) -> LeaveGroupRequest {
    LeaveGroupRequest {
        version,
        group_id: text(b"g"),
        member_id,
        members,
    }
}

// Two fields come and go with one version.
#[test]
fn the_first_field_that_does_not_fit_is_told(rt: HostRuntime) -> Result<(), Fail> {
    let alloc = rt.alloc();
    for (view, field) in [
        (leave_group(2, None, Some(None)), 1),
        (leave_group(3, Some(None), None), 1),
        (leave_group(2, Some(None), Some(None)), 2),
        (leave_group(3, None, None), 2),
    ] {
        let fault = view.body(alloc).err();
        assert!(rt; fault == Some(ViewFault::Misplaced { field }));
    }
    Ok(())
}
