// One row a move of each filter, with ample memory. Other messages and versions are data: `examples/exchanges`.
mod group_live;
mod topic_exists;
mod topic_policy;

use super::*;
use bytes::Bytes;
use filter_core::{Filter, Input, Move, Reason};
use kp_edge::{Blob, NoMemory};
use kp_schema::Dir;
use std::alloc::Global;
use std::test::*;
use tree_codec::{Body, decode, encode};

// A Metadata request for topic a and for one without a name.
const METADATA: &'static [u8] = b"\0\0\0\x02\0\x01a\xff\xff";

fn request(alloc: Global, key: i16, version: i16, bytes: &'static [u8]) -> Option<Body> {
    decode(alloc, key, version, Dir::Request, Bytes::from_static(bytes)).ok()
}

fn response(alloc: Global, key: i16, version: i16, bytes: &'static [u8]) -> Option<Input> {
    let bytes = Bytes::from_static(bytes);
    let body = decode(alloc, key, version, Dir::Response, bytes);
    Some(Input::Response(body.ok()?))
}

// A message's key and version, and its bytes.
fn spelled(alloc: Global, body: &Body) -> Option<(i16, i16, Bytes)> {
    let bytes = encode(alloc, body, 256).ok()?;
    Some((body.key(), body.version(), bytes))
}

// What a filter forwards, and what it keeps.
fn sent_on<P: Drop>(
    alloc: Global,
    moved: Result<Move<P>, NoMemory>,
) -> Option<((i16, i16, Bytes), P)> {
    match moved {
        Ok(Move::Forward(message, pending)) => Some((spelled(alloc, &message)?, pending)),
        _other => None,
    }
}

// What a filter asks aside, and what it keeps.
fn asked<P: Drop>(
    alloc: Global,
    moved: Result<Move<P>, NoMemory>,
) -> Option<((i16, i16, Bytes), P)> {
    match moved {
        Ok(Move::Side(question, pending)) => Some((spelled(alloc, &question)?, pending)),
        _other => None,
    }
}

// What a filter returns.
fn returned<P: Drop>(alloc: Global, moved: Result<Move<P>, NoMemory>) -> Option<(i16, i16, Bytes)> {
    match moved {
        Ok(Move::Return(Some(response))) => spelled(alloc, &response),
        _other => None,
    }
}

#[test]
fn a_listed_request_shuts_with_its_key(rt: HostRuntime) -> Result<(), Fail> {
    let mut keys = Vec::new(rt.alloc());
    keys.push(18)?;
    keys.push(3)?;
    let filter = ApiBlock { keys };
    let message = request(rt.alloc(), 3, 1, METADATA).ok_or("memory")?;
    let code = match filter.start(rt.alloc(), message) {
        Ok(Move::Shut(Reason::Code(code))) => Some(code),
        _other => None,
    };
    assert_eq!(rt; code, Some(3));
    let message = request(rt.alloc(), 16, 0, b"").ok_or("memory")?;
    let moved = filter.start(rt.alloc(), message);
    let (went, pending) = sent_on(rt.alloc(), moved).ok_or("it goes on")?;
    assert_eq!(rt; (went.0, went.1, went.2.len()), (16, 0, 0));
    let told: &'static [u8] = b"\0\x0e\0\0\0\0";
    let came = response(rt.alloc(), 16, 0, told).ok_or("response")?;
    let moved = filter.resume(rt.alloc(), pending, came);
    let back = returned(rt.alloc(), moved).ok_or("it goes back")?;
    assert_eq!(rt; (back.0, back.1, back.2.as_slice()), (16, 0, told));
    Ok(())
}

#[test]
fn versions_are_narrowed(rt: HostRuntime) -> Result<(), Fail> {
    let message = request(rt.alloc(), 3, 1, METADATA).ok_or("memory")?;
    let moved = Narrow.start(rt.alloc(), message);
    let (went, _pending) = sent_on(rt.alloc(), moved).ok_or("it goes on")?;
    assert_eq!(rt; (went.0, went.1, went.2.as_slice()), (3, 1, METADATA));
    // Of three APIs the versions of one are known.
    let told: &'static [u8] = b"\0\0\0\0\0\x03\0\0\0\0\0\x09\0\x3c\0\0\0\0\0\x01\0\x0c\0\x0d";
    let came = response(rt.alloc(), 18, 0, told).ok_or("response")?;
    let moved = Narrow.resume(rt.alloc(), Forwarded, came);
    let back = returned(rt.alloc(), moved).ok_or("it goes back")?;
    let wanted: &'static [u8] = b"\0\0\0\0\0\x01\0\0\0\x03\0\x08";
    assert_eq!(rt; (back.0, back.1, back.2.as_slice()), (18, 0, wanted));
    let back = match Narrow.resume(rt.alloc(), Forwarded, Input::NoResponse) {
        Ok(Move::Return(back)) => Some(back.is_none()),
        _other => None,
    };
    assert_eq!(rt; back, Some(true));
    Ok(())
}

#[test]
fn acks_of_one_become_all(rt: HostRuntime) -> Result<(), Fail> {
    let produce: &'static [u8] = b"\0\x01x\0\x01\0\0\0\x64\xff\xff\xff\xff";
    let message = request(rt.alloc(), 0, 8, produce).ok_or("memory")?;
    let moved = ProduceAll.start(rt.alloc(), message);
    let (went, pending) = sent_on(rt.alloc(), moved).ok_or("it goes on")?;
    let wanted: &'static [u8] = b"\0\x01x\xff\xff\0\0\0\x64\xff\xff\xff\xff";
    assert_eq!(rt; (went.0, went.1, went.2.as_slice()), (0, 8, wanted));
    let told: &'static [u8] = b"\xff\xff\xff\xff\0\0\0\x09";
    let came = response(rt.alloc(), 0, 8, told).ok_or("response")?;
    let moved = ProduceAll.resume(rt.alloc(), pending, came);
    let back = returned(rt.alloc(), moved).ok_or("it goes back")?;
    assert_eq!(rt; (back.0, back.1, back.2.as_slice()), (0, 8, told));
    Ok(())
}

// A Produce request: topic t with partitions 0 and 2, topic u with null for its partitions, and a topic without a name
// and without partitions.
const ASKED: &'static [u8] = &[
    0xff, 0xff, 0, 1, 0, 0, 0, 0x64, 0, 0, 0, 3, 0, 1, b't', 0, 0, 0, 2, 0, 0, 0, 0, 0xff, 0xff,
    0xff, 0xff, 0, 0, 0, 2, 0, 0, 0, 1, 7, 0, 1, b'u', 0xff, 0xff, 0xff, 0xff, 0xff, 0xff, 0, 0, 0,
    0,
];

// Its answer in version 8, by the guide.
const DENIED: &'static [u8] = &[
    0, 0, 0, 3, 0, 1, b't', 0, 0, 0, 2, 0, 0, 0, 0, 0, 29, 0xff, 0xff, 0xff, 0xff, 0xff, 0xff,
    0xff, 0xff, 0xff, 0xff, 0xff, 0xff, 0xff, 0xff, 0xff, 0xff, 0xff, 0xff, 0xff, 0xff, 0xff, 0xff,
    0xff, 0xff, 0, 0, 0, 0, 0xff, 0xff, 0, 0, 0, 2, 0, 29, 0xff, 0xff, 0xff, 0xff, 0xff, 0xff,
    0xff, 0xff, 0xff, 0xff, 0xff, 0xff, 0xff, 0xff, 0xff, 0xff, 0xff, 0xff, 0xff, 0xff, 0xff, 0xff,
    0xff, 0xff, 0, 0, 0, 0, 0xff, 0xff, 0, 1, b'u', 0xff, 0xff, 0xff, 0xff, 0xff, 0xff, 0, 0, 0, 0,
    0, 0, 0, 0,
];

fn denying(alloc: Global, first: &[u8], second: &[u8]) -> Option<TopicDeny> {
    let mut topics = Vec::new(alloc);
    topics.push(Blob::copy(alloc, first).ok()?).ok()?;
    topics.push(Blob::copy(alloc, second).ok()?).ok()?;
    Some(TopicDeny { topics })
}

#[test]
fn a_listed_topic_is_denied(rt: HostRuntime) -> Result<(), Fail> {
    let filter = denying(rt.alloc(), b"v", b"u").ok_or("memory")?;
    let message = request(rt.alloc(), 0, 8, ASKED).ok_or("request")?;
    let moved = filter.start(rt.alloc(), message);
    let back = returned(rt.alloc(), moved).ok_or("it is answered")?;
    assert_eq!(rt; (back.0, back.1, back.2.as_slice()), (0, 8, DENIED));
    Ok(())
}

#[test]
fn what_is_not_listed_goes_on(rt: HostRuntime) -> Result<(), Fail> {
    let filter = denying(rt.alloc(), b"v", b"").ok_or("memory")?;
    let message = request(rt.alloc(), 0, 3, ASKED).ok_or("request")?;
    let moved = filter.start(rt.alloc(), message);
    let (went, pending) = sent_on(rt.alloc(), moved).ok_or("it goes on")?;
    assert_eq!(rt; (went.0, went.1, went.2.as_slice()), (0, 3, ASKED));
    let told: &'static [u8] = b"\xff\xff\xff\xff\0\0\0\x09";
    let came = response(rt.alloc(), 0, 3, told).ok_or("response")?;
    let moved = filter.resume(rt.alloc(), pending, came);
    let back = returned(rt.alloc(), moved).ok_or("it goes back")?;
    assert_eq!(rt; (back.0, back.1, back.2.as_slice()), (0, 3, told));
    Ok(())
}
