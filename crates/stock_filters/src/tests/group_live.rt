use super::{asked, request, response, returned, sent_on};
use crate::{GroupLive, Listing};
use filter_core::Filter;
use std::alloc::Global;
use std::test::*;

// What is kept for the answer to a request without a body, which goes on as it came.
fn waiting(alloc: Global, key: i16) -> Option<Listing> {
    let moved = GroupLive.start(alloc, request(alloc, key, 0, b"")?);
    let (went, pending) = sent_on(alloc, moved)?;
    if (went.0, went.1, went.2.len()) != (key, 0, 0) {
        return None;
    }
    Some(pending)
}

#[test]
fn a_dead_group_is_left_out(rt: HostRuntime) -> Result<(), Fail> {
    let alloc = rt.alloc();
    let pending = waiting(alloc, 16).ok_or("forwarded")?;
    let listed = b"\0\0\0\0\0\x02\0\x01g\0\x08consumer\0\x01h\0\x08consumer";
    let came = response(alloc, 16, 0, listed).ok_or("listed")?;
    let moved = GroupLive.resume(alloc, pending, came);
    let (question, pending) = asked(alloc, moved).ok_or("it asks")?;
    let wanted: &'static [u8] = b"\0\0\0\x02\0\x01g\0\x01h";
    assert_eq!(rt;
        (question.0, question.1, question.2.as_slice()),
        (15, 0, wanted)
    );
    let described =
        b"\0\0\0\x02\0\0\0\x01g\0\x06Stable\0\0\0\0\0\0\0\0\0\0\0\x01h\0\x04Dead\0\0\0\0\0\0\0\0";
    let came = response(alloc, 15, 0, described).ok_or("described")?;
    let moved = GroupLive.resume(alloc, pending, came);
    let back = returned(alloc, moved).ok_or("it goes back")?;
    let wanted: &'static [u8] = b"\0\0\0\0\0\x01\0\x01g\0\x08consumer";
    assert_eq!(rt; (back.0, back.1, back.2.as_slice()), (16, 0, wanted));
    Ok(())
}

#[test]
fn nothing_is_asked_where_no_group_has_an_id(rt: HostRuntime) -> Result<(), Fail> {
    let alloc = rt.alloc();
    let pending = waiting(alloc, 16).ok_or("forwarded")?;
    let listed: &'static [u8] = b"\0\0\0\0\0\x01\xff\xff\0\x01c";
    let came = response(alloc, 16, 0, listed).ok_or("listed")?;
    let moved = GroupLive.resume(alloc, pending, came);
    let back = returned(alloc, moved).ok_or("it goes back")?;
    assert_eq!(rt; (back.0, back.1, back.2.as_slice()), (16, 0, listed));
    Ok(())
}

#[test]
fn group_live_leaves_other_responses(rt: HostRuntime) -> Result<(), Fail> {
    let alloc = rt.alloc();
    let pending = waiting(alloc, 18).ok_or("forwarded")?;
    let told: &'static [u8] = b"\0\0\0\x02\0\x01a\0\0\xff\xff\0\x03";
    let came = response(alloc, 20, 0, told).ok_or("response")?;
    let moved = GroupLive.resume(alloc, pending, came);
    let back = returned(alloc, moved).ok_or("it goes back")?;
    assert_eq!(rt; (back.0, back.1, back.2.as_slice()), (20, 0, told));
    Ok(())
}
