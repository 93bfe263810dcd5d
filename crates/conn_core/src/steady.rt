// A connection that stays full: 64 requests in flight, and each answer makes room for the next. `bench/in_flight.sh`
// times these tests by their names.
use crate::{Connection, Core, Emit};
use bytes::Bytes;
use filter_probes::Probe;
use kp_edge::Steps;
use std::alloc::{AllocError, Global};
use std::test::Fail;

const IN_FLIGHT: u32 = 64;

// What is counted here: nothing.
struct Counted;

// A request for ListGroups, version 0, without a client id. Its body is empty.
fn request(alloc: Global, id: u32) -> Result<Bytes, AllocError> {
    let id = id.to_be_bytes();
    let head = [0, 16, 0, 0, id[0], id[1], id[2], id[3], 0xff, 0xff];
    Bytes::copy_from_slice(alloc, &head)
}

// No error, and no groups.
fn answer(alloc: Global, number: u32) -> Result<Bytes, AllocError> {
    let id = number.to_be_bytes();
    Bytes::copy_from_slice(alloc, &[id[0], id[1], id[2], id[3], 0, 0, 0, 0, 0, 0])
}

// The next request finds room, and goes out.
fn is_taken(alloc: Global, core: &mut Core<Probe>, id: u32) -> Result<bool, AllocError> {
    let frame = request(alloc, id)?;
    Ok(
        frame.len() >= 8
            && core.take(frame, &mut Steps::<Counted>::new()).is_ok()
            && core.send().is_some(),
    )
}

// The oldest is answered, and its response has the client's id.
fn is_answered(
    alloc: Global,
    core: &mut Core<Probe>,
    number: u32,
    own: u32,
) -> Result<bool, AllocError> {
    let frame = answer(alloc, number)?;
    if frame.len() < 4 || core.answer(frame, &mut Steps::<Counted>::new()).is_err() {
        return Ok(false);
    }
    let id = own.to_be_bytes();
    let wanted = [0, 0, 0, 10, id[0], id[1], id[2], id[3], 0, 0, 0, 0, 0, 0];
    match core.emit() {
        Emit::Bytes(response) => Ok(response.as_slice() == wanted.as_slice()),
        _ => Ok(false),
    }
}

// The first request that went otherwise, of so many. Their own ids fall from 2^32 - 1.
fn wrong_request(alloc: Global, count: u32) -> Result<Option<u32>, AllocError> {
    let mut core = Core::new(alloc, Vec::<Probe>::new(alloc), IN_FLIGHT);
    for number in 0..count {
        if let Some(oldest) = number.checked_sub(IN_FLIGHT) {
            if !is_answered(alloc, &mut core, oldest, u32::MAX - oldest)? {
                return Ok(Some(oldest));
            }
        }
        if !is_taken(alloc, &mut core, u32::MAX - number)? {
            return Ok(Some(number));
        }
    }
    Ok(None)
}

#[test]
fn ten_thousand_requests(rt: HostRuntime) -> Result<(), Fail> {
    assert_eq!(rt; wrong_request(rt.alloc(), 10_000)?, None);
    Ok(())
}

#[test]
fn a_hundred_thousand_requests(rt: HostRuntime) -> Result<(), Fail> {
    assert_eq!(rt; wrong_request(rt.alloc(), 100_000)?, None);
    Ok(())
}
