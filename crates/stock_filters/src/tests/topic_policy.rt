use super::{request, response, returned, sent_on};
use crate::{Screened, TopicPolicy};
use filter_core::{Filter, Input, Move};
use kp_edge::{Blob, NoMemory};
use std::alloc::Global;
use std::test::*;

// Topics a and b.
const BOTH: &'static [u8] =
    b"\0\0\0\x02\0\x01a\0\0\0\x01\0\x01\0\0\0\0\0\0\0\0\0\x01b\0\0\0\x01\0\x01\0\0\0\0\0\0\0\0\0\0\0\x07";

// The move on a verdict about both topics, whose names are the key of the hold.
fn decided(alloc: Global, verdict: &[u8]) -> Option<Result<Move<Screened>, NoMemory>> {
    match TopicPolicy.start(alloc, request(alloc, 19, 0, BOTH)?) {
        Ok(Move::Hold(key, pending)) => {
            if key.as_slice() != b"\0\0\0\x02\0\x01a\0\x01b".as_slice() {
                return None;
            }
            let verdict = Blob::copy(alloc, verdict).ok()?;
            Some(TopicPolicy.resume(alloc, pending, Input::Verdict(verdict)))
        }
        _other => None,
    }
}

#[test]
fn a_topic_is_refused_by_the_verdict(rt: HostRuntime) -> Result<(), Fail> {
    let alloc = rt.alloc();
    let moved = decided(alloc, b"\0\x01\0").ok_or("held")?;
    let (went, pending) = sent_on(alloc, moved).ok_or("it goes on")?;
    let wanted: &'static [u8] = b"\0\0\0\x01\0\x01a\0\0\0\x01\0\x01\0\0\0\0\0\0\0\0\0\0\0\x07";
    assert_eq!(rt; (went.0, went.1, went.2.as_slice()), (19, 0, wanted));
    let came = response(alloc, 19, 0, b"\0\0\0\x01\0\x01a\0\0").ok_or("answer")?;
    let moved = TopicPolicy.resume(alloc, pending, came);
    let back = returned(alloc, moved).ok_or("it goes back")?;
    let wanted: &'static [u8] = b"\0\0\0\x02\0\x01a\0\0\0\x01b\0\x1d";
    assert_eq!(rt; (back.0, back.1, back.2.as_slice()), (19, 0, wanted));
    Ok(())
}

#[test]
fn where_all_topics_are_refused_none_goes_on(rt: HostRuntime) -> Result<(), Fail> {
    let moved = decided(rt.alloc(), b"\x01").ok_or("held")?;
    let back = returned(rt.alloc(), moved).ok_or("it goes back")?;
    let wanted: &'static [u8] = b"\0\0\0\x02\0\x01a\0\x1d\0\x01b\0\x1d";
    assert_eq!(rt; (back.0, back.1, back.2.as_slice()), (19, 0, wanted));
    Ok(())
}

#[test]
fn topic_policy_leaves_requests_without_topics(rt: HostRuntime) -> Result<(), Fail> {
    let none: &'static [u8] = b"\0\0\0\0\0\0\0\0\0";
    let message = request(rt.alloc(), 19, 4, none).ok_or("request")?;
    let moved = TopicPolicy.start(rt.alloc(), message);
    let (went, _pending) = sent_on(rt.alloc(), moved).ok_or("it goes on")?;
    assert_eq!(rt; (went.0, went.1, went.2.as_slice()), (19, 4, none));
    Ok(())
}
