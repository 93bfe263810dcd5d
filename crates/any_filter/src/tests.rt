// The chain of a plan, and moves through `AnyFilter`, with ample memory. Each filter's moves are in its own crate, and on the
// built program in `examples/exchanges`.
use super::*;
use bytes::Bytes;
use filter_core::{Filter, Input, Move, Reason};
use kp_edge::{Blob, NoMemory};
use kp_schema::Dir;
use std::alloc::Global;
use std::test::*;
use tree_codec::{Body, decode, encode};
use virtual_cluster::{Address, ClusterPlan, FilterPlan, Plans, Sequence};

fn address(alloc: Global, port: u16) -> Option<Address> {
    let host = Blob::copy(alloc, b"k").ok()?;
    Some(Address { host, port })
}

// Nodes 0 and 1, at ports 19093 and 19094 of the host p.
fn plan(alloc: Global, filters: Vec<FilterPlan>) -> Option<ClusterPlan> {
    let mut nodes = Vec::new(alloc);
    nodes.push(address(alloc, 9_093)?).ok()?;
    nodes.push(address(alloc, 9_094)?).ok()?;
    Some(ClusterPlan {
        name: Blob::copy(alloc, b"alpha").ok()?,
        listen: Blob::copy(alloc, b"127.0.0.1").ok()?,
        advertise: Blob::copy(alloc, b"p").ok()?,
        port: 19_092,
        first_node: 0,
        bootstrap: address(alloc, 9_092)?,
        nodes: Sequence::from_vec(nodes),
        prefix: None,
        filters: Sequence::from_vec(filters),
        policy_deny: Sequence::new(alloc),
        in_flight: 16,
        completers: 2,
        connections: 64,
    })
}

fn chain_with(alloc: Global, filters: Vec<FilterPlan>) -> Option<Vec<AnyFilter>> {
    let mut list = Vec::new(alloc);
    list.push(plan(alloc, filters)?).ok()?;
    if list.len() != 1 {
        return None;
    }
    let plans = Plans::new(list).ok()?;
    match plans.list() {
        [plan] => {
            if plan.prefix.is_some() {
                return None;
            }
            chain_of(alloc, plan).ok()
        }
        _ => None,
    }
}

// Each filter once: `topic-deny` of topic t, and `api-block` of Heartbeat.
fn all_filters(alloc: Global) -> Option<Vec<FilterPlan>> {
    let mut topics = Vec::new(alloc);
    topics.push(Blob::copy(alloc, b"t").ok()?).ok()?;
    let mut keys = Vec::new(alloc);
    keys.push(12).ok()?;
    let mut filters = Vec::new(alloc);
    filters.push(FilterPlan::ProduceAll).ok()?;
    filters
        .push(FilterPlan::TopicDeny(Sequence::from_vec(topics)))
        .ok()?;
    filters
        .push(FilterPlan::ApiBlock(Sequence::from_vec(keys)))
        .ok()?;
    filters.push(FilterPlan::TopicPolicy).ok()?;
    filters.push(FilterPlan::TopicExists).ok()?;
    filters.push(FilterPlan::GroupLive).ok()?;
    Some(filters)
}

fn word(filter: &AnyFilter) -> &'static str {
    match filter {
        AnyFilter::Narrow(_) => "narrow",
        AnyFilter::ProduceAll(_) => "produce-all",
        AnyFilter::TopicDeny(_) => "topic-deny",
        AnyFilter::ApiBlock(_) => "api-block",
        AnyFilter::TopicPolicy(_) => "topic-policy",
        AnyFilter::TopicExists(_) => "topic-exists",
        AnyFilter::GroupLive(_) => "group-live",
        AnyFilter::Addresses(_) => "addresses",
    }
}

const WORDS: [&'static str; 8] = [
    "narrow",
    "produce-all",
    "topic-deny",
    "api-block",
    "topic-policy",
    "topic-exists",
    "group-live",
    "addresses",
];

#[test]
fn a_chain_has_its_filters_in_order(rt: HostRuntime) -> Result<(), Fail> {
    let filters = all_filters(rt.alloc()).ok_or("memory")?;
    let chain = chain_with(rt.alloc(), filters).ok_or("memory")?;
    assert_eq!(rt; chain.len(), 8);
    for (filter, wanted) in chain.iter().zip(WORDS.iter()) {
        assert_eq!(rt; word(filter), *wanted);
    }
    let least = chain_with(rt.alloc(), Vec::new(rt.alloc())).ok_or("memory")?;
    assert_eq!(rt; least.len(), 2);
    assert_eq!(rt; (word(&least[0]), word(&least[1])), ("narrow", "addresses"));
    Ok(())
}

// A move: its word, and the bytes of its message or key.
fn shown(alloc: Global, made: &Move<AnyPending>) -> Option<(&'static str, Bytes)> {
    match made {
        Move::Forward(message, _) => Some(("forward", encode(alloc, message, 128).ok()?)),
        Move::Side(message, _) => Some(("side", encode(alloc, message, 128).ok()?)),
        Move::Hold(key, _) => {
            let key = Bytes::copy_from_slice(alloc, key.as_slice());
            Some(("hold", key.ok()?))
        }
        Move::Return(Some(response)) => Some(("return", encode(alloc, response, 128).ok()?)),
        Move::Return(None) => Some(("return none", Bytes::new())),
        Move::Shut(Reason::Code(12)) => Some(("shut 12", Bytes::new())),
        Move::Shut(_) => None,
    }
}

// What a filter of the chain does with a request.
fn started(
    alloc: Global,
    filter: &AnyFilter,
    key: i16,
    version: i16,
    request: &'static [u8],
) -> Option<Move<AnyPending>> {
    let request = decode(
        alloc,
        key,
        version,
        Dir::Request,
        Bytes::from_static(request),
    );
    filter.start(alloc, request.ok()?).ok()
}

// A filter's number in the chain, a request by key and version, and its move.
const STARTS: [(usize, i16, i16, &'static [u8], &'static str, &'static [u8]); 4] = [
    (
        1,
        0,
        3,
        &[0xff, 0xff, 0, 1, 0, 0, 0, 0x64, 0, 0, 0, 0],
        "forward",
        &[0xff, 0xff, 0xff, 0xff, 0, 0, 0, 0x64, 0, 0, 0, 0],
    ),
    (
        3,
        12,
        0,
        &[0, 1, b'g', 0, 0, 0, 1, 0, 1, b'm'],
        "shut 12",
        &[],
    ),
    (
        4,
        19,
        0,
        &[
            0, 0, 0, 1, 0, 1, b'a', 0, 0, 0, 1, 0, 1, 0, 0, 0, 0, 0, 0, 0, 0, 0, 0, 0, 0,
        ],
        "hold",
        &[0, 0, 0, 1, 0, 1, b'a'],
    ),
    (
        5,
        19,
        0,
        &[
            0, 0, 0, 1, 0, 1, b'a', 0, 0, 0, 1, 0, 1, 0, 0, 0, 0, 0, 0, 0, 0, 0, 0, 0, 0,
        ],
        "side",
        &[0, 0, 0, 1, 0, 1, b'a', 0],
    ),
];

#[test]
fn a_request_brings_the_first_move(rt: HostRuntime) -> Result<(), Fail> {
    let filters = all_filters(rt.alloc()).ok_or("memory")?;
    let chain = chain_with(rt.alloc(), filters).ok_or("memory")?;
    for (place, key, version, request, wanted, bytes) in &STARTS {
        let filter = chain.get(*place).ok_or("short")?;
        let made = started(rt.alloc(), filter, *key, *version, *request);
        let made = shown(rt.alloc(), &made.ok_or(*wanted)?).ok_or(*wanted)?;
        assert_eq!(rt;
            (*place, made.0, made.1.as_slice()),
            (*place, *wanted, *bytes)
        );
    }
    Ok(())
}

// A filter's number in the chain, a request by key and version, the response to what it moved on, by key and version,
// and its next move.
const ANSWERS: [(
    usize,
    (i16, i16, &'static [u8]),
    (i16, i16, &'static [u8]),
    &'static str,
    &'static [u8],
); 3] = [
    (
        5,
        (
            19,
            0,
            &[
                0, 0, 0, 1, 0, 1, b'a', 0, 0, 0, 1, 0, 1, 0, 0, 0, 0, 0, 0, 0, 0, 0, 0, 0, 0,
            ],
        ),
        (
            3,
            4,
            &[
                0, 0, 0, 0, 0, 0, 0, 0, 0xff, 0xff, 0xff, 0xff, 0xff, 0xff, 0, 0, 0, 1, 0, 0, 0, 1,
                b'a', 0, 0, 0, 0, 0,
            ],
        ),
        "return",
        &[0, 0, 0, 1, 0, 1, b'a', 0, 36],
    ),
    (
        6,
        (16, 0, &[]),
        (16, 0, &[0, 0, 0, 0, 0, 1, 0, 1, b'g', 0, 1, b'c']),
        "side",
        &[0, 0, 0, 1, 0, 1, b'g'],
    ),
    (
        7,
        (10, 0, &[0, 1, b'g']),
        (10, 0, &[0, 0, 0, 0, 0, 1, 0, 1, b'k', 0, 0, 0x23, 0x86]),
        "return",
        &[0, 0, 0, 0, 0, 1, 0, 1, b'p', 0, 0, 0x4a, 0x96],
    ),
];

// What it keeps where it waits for a response.
fn kept_by(made: Move<AnyPending>) -> Option<AnyPending> {
    match made {
        Move::Forward(_message, kept) => Some(kept),
        Move::Side(_message, kept) => Some(kept),
        _other => None,
    }
}

#[test]
fn a_response_brings_the_next_move(rt: HostRuntime) -> Result<(), Fail> {
    let filters = all_filters(rt.alloc()).ok_or("memory")?;
    let chain = chain_with(rt.alloc(), filters).ok_or("memory")?;
    for (place, request, response, wanted, bytes) in &ANSWERS {
        let filter = chain.get(*place).ok_or("short")?;
        let made = started(rt.alloc(), filter, request.0, request.1, request.2);
        let kept = kept_by(made.ok_or(*wanted)?).ok_or(*wanted)?;
        let came = decode(
            rt.alloc(),
            response.0,
            response.1,
            Dir::Response,
            Bytes::from_static(response.2),
        );
        let came = Input::Response(came.ok().ok_or(*wanted)?);
        let next = filter.resume(rt.alloc(), kept, came).ok().ok_or(*wanted)?;
        let next = shown(rt.alloc(), &next).ok_or(*wanted)?;
        assert_eq!(rt;
            (*place, next.0, next.1.as_slice()),
            (*place, *wanted, *bytes)
        );
    }
    Ok(())
}

#[test]
fn what_another_filter_keeps_is_refused(rt: HostRuntime) -> Result<(), Fail> {
    let chain = chain_with(rt.alloc(), Vec::new(rt.alloc())).ok_or("memory")?;
    let first = chain.get(0).ok_or("short")?;
    let last = chain.get(1).ok_or("short")?;
    let made = started(rt.alloc(), first, 18, 0, &[]).ok_or("start")?;
    let kept = kept_by(made).ok_or("kept")?;
    let refused = match last.resume(rt.alloc(), kept, Input::NoResponse) {
        Ok(_) => false,
        Err(NoMemory) => true,
    };
    assert!(rt; refused);
    Ok(())
}
