// What no clause says: that memory suffices, and the bytes of whole exchanges. Most frames are those of the protocol
// guide's Heartbeat, version 0.
use self::by_chains::{ASKED_ASIDE, CHANGED, SHUT};
use self::by_kind::{AT_ONE, KINDS};
use crate::{AnswerFault, CompleteFault, Connection, Core, Emit, Fault, Look, TakeFault, Ticket};
use bytes::Bytes;
use filter_core::Filter;
use filter_probes::Probe;
use kp_edge::{Blob, End, Steps};
use std::alloc::{AllocError, Global};
use std::test::Fail;

mod by_chains;
mod by_kind;
mod by_sizes;

#[derive(Clone, Copy)]
enum Line {
    Client(&'static [u8]),
    // a request for ListGroups, whose body is empty: its client id has this length, and behind it stand so many bytes
    ClientId(i16, u32),
    Broker(&'static [u8]),
    // for this request and this number of the ask
    Verdict(u64, u32, &'static [u8]),
    ClientEnd(u64),
    BrokerEnd(u64),
    Fails(Fault),
    Send,
    Emit,
    Pick,
    Look,
}

// What is answered to a line.
#[derive(Clone, Copy, Debug)]
enum Told<B> {
    Fine,
    Back(B),
    Full(u32, u64, B),
    Bytes(B),
    Nothing,
    Later,
    Over(End),
    Looks(Look),
    Ticket(u64, u32, B),
    NoMemory,
}

type Want = Told<&'static [u8]>;

type Got = Told<Bytes>;

// What is counted in the tests.
struct Counted;

const H7: &[u8] = b"\0\x0c\0\0\0\0\0\x07\xff\xff\0\x01g\0\0\0\x01\0\x01m";

const H8: &[u8] = b"\0\x0c\0\0\0\0\0\x08\xff\xff\0\x01g\0\0\0\x01\0\x01m";

const H0_SIZED: &[u8] = b"\0\0\0\x14\0\x0c\0\0\0\0\0\0\xff\xff\0\x01g\0\0\0\x01\0\x01m";

const H1_SIZED: &[u8] = b"\0\0\0\x14\0\x0c\0\0\0\0\0\x01\xff\xff\0\x01g\0\0\0\x01\0\x01m";

const A0: &[u8] = b"\0\0\0\0\0\0";

const A1: &[u8] = b"\0\0\0\x01\0\0";

const A7_SIZED: &[u8] = b"\0\0\0\x06\0\0\0\x07\0\0";

const A8_SIZED: &[u8] = b"\0\0\0\x06\0\0\0\x08\0\0";

// ApiVersions, version 3, and what is told of it
const V1: &[u8] = b"\0\x12\0\x03\0\0\0\x01\0\x01c\0\x03kc\x021\0";

const V1_TOLD: &[u8] = b"\0\0\0\x10\0\0\0\x01\0\x23\0\0\0\x01\0\x12\0\0\0\x02";

// What the core answered to a line.
fn taken(told: Result<(), TakeFault>) -> Got {
    match told {
        Ok(()) => Told::Fine,
        Err(TakeFault::Ending(frame)) => Told::Back(frame),
        Err(TakeFault::Full { count, held, frame }) => Told::Full(count, held, frame),
        Err(TakeFault::NoMemory) => Told::NoMemory,
    }
}

fn answered(told: Result<(), AnswerFault>) -> Got {
    match told {
        Ok(()) => Told::Fine,
        Err(AnswerFault::Dead(frame)) => Told::Back(frame),
        Err(AnswerFault::NoMemory) => Told::NoMemory,
    }
}

fn completed(alloc: Global, told: Result<(), CompleteFault>) -> Result<Got, AllocError> {
    match told {
        Ok(()) => Ok(Told::Fine),
        Err(CompleteFault::NotWaiting(verdict)) => {
            Ok(Told::Back(Bytes::copy_from_slice(alloc, verdict.as_slice())?))
        }
        Err(CompleteFault::NoMemory) => Ok(Told::NoMemory),
    }
}

fn sent(frame: Option<Bytes>) -> Got {
    match frame {
        Some(frame) => Told::Bytes(frame),
        None => Told::Nothing,
    }
}

fn emitted(emit: Emit) -> Got {
    match emit {
        Emit::Bytes(response) => Told::Bytes(response),
        Emit::Later => Told::Later,
        Emit::Over(why) => Told::Over(why),
    }
}

fn picked(alloc: Global, ticket: Option<Ticket>) -> Result<Got, AllocError> {
    match ticket {
        Some(ticket) => {
            let key = Bytes::copy_from_slice(alloc, ticket.key.as_slice())?;
            Ok(Told::Ticket(ticket.request, ticket.index, key))
        }
        None => Ok(Told::Nothing),
    }
}

// It is what was wanted.
fn is_wanted(got: &Got, want: Want) -> bool {
    match (got, want) {
        (Told::Fine, Told::Fine) => true,
        (Told::Back(bytes), Told::Back(wanted)) => bytes.as_slice() == wanted,
        (Told::Full(count, held, frame), Told::Full(many, size, wanted)) => {
            *count == many && *held == size && frame.as_slice() == wanted
        }
        (Told::Bytes(bytes), Told::Bytes(wanted)) => bytes.as_slice() == wanted,
        (Told::Ticket(request, index, key), Told::Ticket(whose, which, wanted)) => {
            *request == whose && *index == which && key.as_slice() == wanted
        }
        (Told::Nothing, Told::Nothing) => true,
        (Told::Later, Told::Later) => true,
        (Told::Over(why), Told::Over(wanted)) => *why == wanted,
        (Told::Looks(look), Told::Looks(wanted)) => *look == wanted,
        _ => false,
    }
}

fn takes<F: Filter + Drop>(core: &mut Core<F>, frame: Bytes) -> Got {
    if frame.len() < 8 {
        return Told::Nothing;
    }
    taken(core.take(frame, &mut Steps::<Counted>::new()))
}

fn with_client_id(alloc: Global, length: i16, bytes: u32) -> Result<Bytes, AllocError> {
    let mut frame = Vec::new(alloc);
    frame.extend_from_slice(b"\0\x10\0\0\0\0\0\x07")?;
    frame.extend_from_slice(&length.to_be_bytes())?;
    for _ in 0..bytes {
        frame.push(b'c')?;
    }
    Ok(Bytes::from_vec(frame)?)
}

// What the core answers to this line.
fn reply_to<F: Filter + Drop>(
    alloc: Global,
    core: &mut Core<F>,
    line: Line,
) -> Result<Got, AllocError> {
    match line {
        Line::Client(bytes) => Ok(takes(core, Bytes::copy_from_slice(alloc, bytes)?)),
        Line::ClientId(length, bytes) => Ok(takes(core, with_client_id(alloc, length, bytes)?)),
        Line::Broker(bytes) => {
            let frame = Bytes::copy_from_slice(alloc, bytes)?;
            if frame.len() < 4 {
                return Ok(Told::Nothing);
            }
            Ok(answered(core.answer(frame, &mut Steps::<Counted>::new())))
        }
        Line::Verdict(request, index, bytes) => {
            let verdict = Blob::from_vec(Vec::from_slice(alloc, bytes)?);
            completed(
                alloc,
                core.complete(request, index, verdict, &mut Steps::<Counted>::new()),
            )
        }
        Line::ClientEnd(rest) => {
            core.client_end(rest);
            Ok(Told::Fine)
        }
        Line::BrokerEnd(rest) => {
            core.broker_end(rest);
            Ok(Told::Fine)
        }
        Line::Fails(fault) => {
            core.fault(fault);
            Ok(Told::Fine)
        }
        Line::Send => Ok(sent(core.send())),
        Line::Emit => Ok(emitted(core.emit())),
        Line::Pick => picked(alloc, core.pick()),
        Line::Look => Ok(Told::Looks(core.look())),
    }
}

// A filter of a chain: it asks this so often, or has these two turns.
#[derive(Clone, Copy)]
enum Filters {
    Asks(u8, u8),
    Turns(u8),
}

fn chain_of(alloc: Global, filters: &[Filters]) -> Result<Vec<Probe>, AllocError> {
    let mut chain = Vec::new(alloc);
    for filter in filters {
        chain.push(match filter {
            Filters::Asks(what, times) => Probe::asking(*what, *times),
            Filters::Turns(what) => Probe::two_turns(*what),
        })?;
    }
    Ok(chain)
}

// The first line that a core with this chain and this limit answers otherwise: its number, and what was got.
fn wrong_line(
    alloc: Global,
    chain: &[Filters],
    in_flight: u32,
    lines: &[(Line, Want)],
) -> Result<Option<(usize, Got)>, AllocError> {
    if in_flight == 0 || in_flight > 64 {
        return Ok(Some((0, Told::Nothing)));
    }
    let mut core = Core::new(alloc, chain_of(alloc, chain)?, in_flight);
    wrong_reply(alloc, &mut core, lines)
}

// The first of these lines that this core answers otherwise.
fn wrong_reply<F: Filter + Drop>(
    alloc: Global,
    core: &mut Core<F>,
    lines: &[(Line, Want)],
) -> Result<Option<(usize, Got)>, AllocError> {
    for (i, (line, want)) in lines.iter().enumerate() {
        let got = reply_to(alloc, core, *line)?;
        if !is_wanted(&got, *want) {
            return Ok(Some((i, got)));
        }
    }
    Ok(None)
}

#[test]
fn scripts_are_answered(rt: HostRuntime) -> Result<(), Fail> {
    for (in_flight, scripts) in [
        (64, KINDS),
        (64, CHANGED),
        (64, SHUT),
        (64, ASKED_ASIDE),
        (1, AT_ONE),
    ] {
        for (name, chain, lines) in scripts {
            if let Some((i, got)) = wrong_line(rt.alloc(), chain, in_flight, lines)? {
                let want = lines.get(i).map(|line| line.1);
                assert!(rt; false, "{name}, line {i}: wanted {want:?}, got {got:?}");
            }
        }
    }
    Ok(())
}
