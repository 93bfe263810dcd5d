use super::{asked, request, response, returned, sent_on};
use crate::TopicExists;
use filter_core::Filter;
use std::test::*;

#[test]
fn a_topic_that_exists_is_refused(rt: HostRuntime) -> Result<(), Fail> {
    let alloc = rt.alloc();
    let both =
        b"\0\0\0\x02\0\x01a\0\0\0\x01\0\x01\0\0\0\0\0\0\0\0\0\x01b\0\0\0\x01\0\x01\0\0\0\0\0\0\0\0\0\0\0\0";
    let message = request(alloc, 19, 0, both).ok_or("request")?;
    let moved = TopicExists.start(alloc, message);
    let (question, pending) = asked(alloc, moved).ok_or("it asks")?;
    let wanted: &'static [u8] = b"\0\0\0\x02\0\x01a\0\x01b\0";
    assert_eq!(rt;
        (question.0, question.1, question.2.as_slice()),
        (3, 4, wanted)
    );
    // The broker has topic b.
    let known =
        b"\0\0\0\0\0\0\0\0\xff\xff\xff\xff\xff\xff\0\0\0\x02\0\x03\0\x01a\0\0\0\0\0\0\0\0\x01b\0\0\0\0\0";
    let came = response(alloc, 3, 4, known).ok_or("known")?;
    let moved = TopicExists.resume(alloc, pending, came);
    let (went, pending) = sent_on(alloc, moved).ok_or("it goes on")?;
    let wanted: &'static [u8] = b"\0\0\0\x01\0\x01a\0\0\0\x01\0\x01\0\0\0\0\0\0\0\0\0\0\0\0";
    assert_eq!(rt; (went.0, went.1, went.2.as_slice()), (19, 0, wanted));
    let came = response(alloc, 19, 0, b"\0\0\0\x01\0\x01a\0\0").ok_or("answer")?;
    let moved = TopicExists.resume(alloc, pending, came);
    let back = returned(alloc, moved).ok_or("it goes back")?;
    let wanted: &'static [u8] = b"\0\0\0\x02\0\x01a\0\0\0\x01b\0\x24";
    assert_eq!(rt; (back.0, back.1, back.2.as_slice()), (19, 0, wanted));
    Ok(())
}

#[test]
fn where_all_topics_exist_none_goes_on(rt: HostRuntime) -> Result<(), Fail> {
    let alloc = rt.alloc();
    let one = b"\0\0\0\x01\0\x01b\0\0\0\x01\0\x01\0\0\0\0\0\0\0\0\0\0\0\0\0";
    let message = request(alloc, 19, 2, one).ok_or("request")?;
    let moved = TopicExists.start(alloc, message);
    let (_question, pending) = asked(alloc, moved).ok_or("it asks")?;
    let known = b"\0\0\0\0\0\0\0\0\0\0\0\0\0\0\0\0\0\x01\0\0\0\x01b\0\0\0\0\0";
    let came = response(alloc, 3, 4, known).ok_or("known")?;
    let moved = TopicExists.resume(alloc, pending, came);
    let back = returned(alloc, moved).ok_or("it goes back")?;
    let wanted: &'static [u8] = b"\0\0\0\0\0\0\0\x01\0\x01b\0\x24\xff\xff";
    assert_eq!(rt; (back.0, back.1, back.2.as_slice()), (19, 2, wanted));
    Ok(())
}

#[test]
fn topic_exists_leaves_requests_without_names(rt: HostRuntime) -> Result<(), Fail> {
    let alloc = rt.alloc();
    let none: &'static [u8] = b"\0\0\0\x01\xff\xff\0\0\0\x01\0\x01\0\0\0\0\0\0\0\0\0\0\0\0\0";
    let message = request(alloc, 19, 4, none).ok_or("request")?;
    let moved = TopicExists.start(alloc, message);
    let (went, _pending) = sent_on(alloc, moved).ok_or("it goes on")?;
    assert_eq!(rt; (went.0, went.1, went.2.as_slice()), (19, 4, none));
    Ok(())
}
