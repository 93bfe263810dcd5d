// What no clause says: that memory suffices, and the bytes of whole exchanges, over a small service.
use self::by_rule::{AT_ONE, AT_SIXTY_FOUR, RULES};
use self::trial::Trial;
use crate::Serving;
use bytes::Bytes;
use conn_rules::{AnswerFault, CompleteFault, Connection, Emit, Fault, Look, TakeFault, Ticket};
use kp_edge::{Blob, End, Steps};
use std::alloc::{AllocError, Global};
use std::test::Fail;

mod by_memory;
mod by_rule;
mod trial;

#[derive(Clone, Copy)]
enum Line {
    Client(&'static [u8]),
    // the same frame so many times
    Clients(u32, &'static [u8]),
    Broker(&'static [u8]),
    Verdict(u64, u32, &'static [u8]),
    ClientEnd(u64),
    BrokerEnd(u64),
    Fails(Fault),
    Send,
    Emit,
    Pick,
    Look,
}

// What is answered to a line.
#[derive(Clone, Copy, Debug)]
enum Told<B> {
    Fine,
    Back(B),
    Full(u32, u64, B),
    Bytes(B),
    Nothing,
    Later,
    Over(End),
    Looks(Look),
    Ticket(u64, u32, B),
    NoMemory,
}

type Want = Told<&'static [u8]>;

type Got = Told<Bytes>;

// Scripts by their names: lines, and what is answered to each.
type Scripts = &'static [(&'static str, &'static [(Line, Want)])];

// What is counted in the tests.
struct Counted;

// A connection over the small service.
type Core = Serving<Trial>;

fn opened(alloc: Global, in_flight: u32) -> Option<Core> {
    if in_flight == 0 || in_flight > 64 {
        return None;
    }
    Some(Serving::over(alloc, Trial { alloc }, in_flight))
}

fn taken(told: Result<(), TakeFault>) -> Got {
    match told {
        Ok(()) => Told::Fine,
        Err(TakeFault::Ending(frame)) => Told::Back(frame),
        Err(TakeFault::Full { count, held, frame }) => Told::Full(count, held, frame),
        Err(TakeFault::NoMemory) => Told::NoMemory,
    }
}

fn answered(told: Result<(), AnswerFault>) -> Got {
    match told {
        Ok(()) => Told::Fine,
        Err(AnswerFault::Dead(frame)) => Told::Back(frame),
        Err(AnswerFault::NoMemory) => Told::NoMemory,
    }
}

fn completed(alloc: Global, told: Result<(), CompleteFault>) -> Result<Got, AllocError> {
    match told {
        Ok(()) => Ok(Told::Fine),
        Err(CompleteFault::NotWaiting(verdict)) => {
            Ok(Told::Back(Bytes::copy_from_slice(alloc, verdict.as_slice())?))
        }
        Err(CompleteFault::NoMemory) => Ok(Told::NoMemory),
    }
}

fn sent(frame: Option<Bytes>) -> Got {
    match frame {
        Some(frame) => Told::Bytes(frame),
        None => Told::Nothing,
    }
}

fn emitted(emit: Emit) -> Got {
    match emit {
        Emit::Bytes(response) => Told::Bytes(response),
        Emit::Later => Told::Later,
        Emit::Over(why) => Told::Over(why),
    }
}

fn picked(alloc: Global, ticket: Option<Ticket>) -> Result<Got, AllocError> {
    match ticket {
        Some(ticket) => {
            let key = Bytes::copy_from_slice(alloc, ticket.key.as_slice())?;
            Ok(Told::Ticket(ticket.request, ticket.index, key))
        }
        None => Ok(Told::Nothing),
    }
}

// It is what was wanted.
fn is_wanted(got: &Got, want: Want) -> bool {
    match (got, want) {
        (Told::Fine, Told::Fine) => true,
        (Told::Back(bytes), Told::Back(wanted)) => bytes.as_slice() == wanted,
        (Told::Full(count, held, frame), Told::Full(many, size, wanted)) => {
            *count == many && *held == size && frame.as_slice() == wanted
        }
        (Told::Bytes(bytes), Told::Bytes(wanted)) => bytes.as_slice() == wanted,
        (Told::Nothing, Told::Nothing) => true,
        (Told::Later, Told::Later) => true,
        (Told::Over(why), Told::Over(wanted)) => *why == wanted,
        (Told::Looks(look), Told::Looks(wanted)) => *look == wanted,
        (Told::Ticket(request, index, key), Told::Ticket(whose, number, wanted)) => {
            *request == whose && *index == number && key.as_slice() == wanted
        }
        _ => false,
    }
}

fn takes(core: &mut Core, frame: Bytes) -> Got {
    if frame.len() < 8 {
        return Told::Nothing;
    }
    taken(core.take(frame, &mut Steps::<Counted>::new()))
}

fn answers(core: &mut Core, frame: Bytes) -> Got {
    if frame.len() < 4 {
        return Told::Nothing;
    }
    answered(core.answer(frame, &mut Steps::<Counted>::new()))
}

// The first of so many frames that isn't taken, or the last.
fn takes_many(alloc: Global, core: &mut Core, times: u32, frame: &[u8]) -> Result<Got, AllocError> {
    let mut got = Told::Nothing;
    for _ in 0..times {
        got = takes(core, Bytes::copy_from_slice(alloc, frame)?);
        if !is_wanted(&got, Told::Fine) {
            break;
        }
    }
    Ok(got)
}

fn completes(
    alloc: Global,
    core: &mut Core,
    request: u64,
    index: u32,
    verdict: &[u8],
) -> Result<Got, AllocError> {
    let verdict = Blob::from_vec(Vec::from_slice(alloc, verdict)?);
    let mut steps = Steps::<Counted>::new();
    completed(alloc, core.complete(request, index, verdict, &mut steps))
}

// What the core answers to this line.
fn reply_to(alloc: Global, core: &mut Core, line: Line) -> Result<Got, AllocError> {
    match line {
        Line::Client(bytes) => Ok(takes(core, Bytes::copy_from_slice(alloc, bytes)?)),
        Line::Clients(times, bytes) => takes_many(alloc, core, times, bytes),
        Line::Broker(bytes) => Ok(answers(core, Bytes::copy_from_slice(alloc, bytes)?)),
        Line::Verdict(request, index, bytes) => completes(alloc, core, request, index, bytes),
        Line::ClientEnd(rest) => {
            core.client_end(rest);
            Ok(Told::Fine)
        }
        Line::BrokerEnd(rest) => {
            core.broker_end(rest);
            Ok(Told::Fine)
        }
        Line::Fails(fault) => {
            core.fault(fault);
            Ok(Told::Fine)
        }
        Line::Send => Ok(sent(core.send())),
        Line::Emit => Ok(emitted(core.emit())),
        Line::Pick => picked(alloc, core.pick()),
        Line::Look => Ok(Told::Looks(core.look())),
    }
}

// The first of these lines that the core answers otherwise: its number, what was wanted and what was got.
fn wrong_line(
    alloc: Global,
    core: &mut Core,
    lines: &[(Line, Want)],
) -> Result<Option<(usize, Want, Got)>, AllocError> {
    for (i, (line, want)) in lines.iter().enumerate() {
        let got = reply_to(alloc, core, *line)?;
        if !is_wanted(&got, *want) {
            return Ok(Some((i, *want, got)));
        }
    }
    Ok(None)
}

// The first script of the table that is answered otherwise: its name, the line, what was wanted and what was got.
fn wrong_script(
    alloc: Global,
    in_flight: u32,
    scripts: Scripts,
) -> Result<Option<(&'static str, usize, Want, Got)>, AllocError> {
    for (name, lines) in scripts {
        let Some(mut core) = opened(alloc, in_flight) else {
            return Ok(Some((*name, 0, Told::Fine, Told::Nothing)));
        };
        if let Some((i, want, got)) = wrong_line(alloc, &mut core, lines)? {
            return Ok(Some((*name, i, want, got)));
        }
    }
    Ok(None)
}

#[test]
fn scripts_are_answered(rt: HostRuntime) -> Result<(), Fail> {
    for (in_flight, scripts) in [(64, RULES), (1, AT_ONE), (64, AT_SIXTY_FOUR)] {
        if let Some((name, i, want, got)) = wrong_script(rt.alloc(), in_flight, scripts)? {
            assert!(rt; false, "{name}, line {i}: wanted {want:?}, got {got:?}");
        }
    }
    Ok(())
}
