// What comes next, by chance. Most of it is what a client, a broker and an authority do that keep the rules.
use crate::event::Event;
use crate::frames::joined;
use crate::plain::Plain;
use crate::random::Random;
use crate::samples::{NO_REQUESTS, REQUESTS, Sample};
use crate::steps::upstream_id;
use conn_core::Fault;
use plain_chain::ProbeKind;
use std::alloc::{AllocError, Global};

// With different first bytes, the least and the greatest among them.
const VERDICTS: [&[u8]; 4] = [b"yes", b"\0", b"\xff!", b"\x4d"];

// Up to three probes.
pub fn chain_by_chance(alloc: Global, random: &mut Random) -> Result<Vec<ProbeKind>, AllocError> {
    let mut chain = Vec::new(alloc);
    for _ in 0..random.one_of(4) {
        chain.push(kind_by_chance(random))?;
    }
    Ok(chain)
}

fn kind_by_chance(random: &mut Random) -> ProbeKind {
    let times = [1, 2, 3, 0][random.one_of(4) & 3];
    match random.one_of(30) {
        0..5 => ProbeKind::AsksHeartbeat(times),
        5..9 => ProbeKind::AsksMetadata(times),
        9..14 => ProbeKind::Holds(times),
        14..18 => ProbeKind::Changes,
        18..21 => ProbeKind::Answers,
        21 => ProbeKind::Shuts,
        22 | 23 => ProbeKind::ShutsMetadata,
        _ => ProbeKind::Heeds,
    }
}

pub fn event_by_chance(plain: &Plain, random: &mut Random) -> Result<Event, AllocError> {
    match random.one_of(100) {
        0..24 => Ok(frame_by_chance(random)),
        24..44 => Ok(Event::Send),
        44..66 => answer_by_chance(plain, random),
        66..80 => Ok(Event::Emit),
        80..86 => Ok(Event::Pick),
        86..95 => verdict_by_chance(plain, random),
        95..98 => Ok(Event::Look),
        _ if random.chance(300) => end_by_chance(plain, random),
        _ => Ok(Event::Emit),
    }
}

fn frame_by_chance(random: &mut Random) -> Event {
    let sample: Sample = if random.chance(15) {
        NO_REQUESTS[random.one_of(4) & 3]
    } else {
        REQUESTS[random.one_of(7).min(6)]
    };
    Event::Take(sample, random.bytes())
}

// Mostly the answer to the due send, and nothing where none is due.
fn answer_by_chance(plain: &Plain, random: &mut Random) -> Result<Event, AllocError> {
    let due = match plain.due() {
        None if random.chance(990) => return Ok(Event::Send),
        due => due,
    };
    let number = due.unwrap_or(0);
    let api = match plain.sends.get(number) {
        Some(send) => send.message.api(),
        None => (12, 0),
    };
    let id = if random.chance(10) {
        u32::from_be_bytes(random.bytes())
    } else {
        upstream_id(number)
    };
    let mut body = body_by_chance(plain.alloc, api, random)?;
    let whole = !random.chance(10);
    if !whole {
        let _ = body.pop();
    }
    Ok(Event::Answer { id, body, whole })
}

// A response of this key and version, by the protocol guide.
fn body_by_chance(
    alloc: Global,
    api: (i16, i16),
    random: &mut Random,
) -> Result<Vec<u8>, AllocError> {
    let bytes = random.bytes();
    let number = [bytes[0], bytes[1]];
    match api {
        // error_code
        (12, 0) => joined(alloc, &[&number]),
        // throttle_time_ms, brokers, cluster_id, controller_id, topics
        (3, 4) => joined(
            alloc,
            &[b"\0\0", &number, b"\0\0\0\0\xff\xff\0\0\0\0\0\0\0\0"],
        ),
        // error_code, groups
        (16, 0) => joined(alloc, &[&number, b"\0\0\0\0"]),
        // responses, throttle_time_ms
        _ => joined(alloc, &[b"\0\0\0\0\0\0", &number]),
    }
}

// Mostly one of the holds that requests wait for: the request and the number of the ask.
fn hold_by_chance(plain: &Plain, random: &mut Random) -> Result<(usize, usize), AllocError> {
    let first = random.one_of(plain.requests.len());
    if random.chance(900) {
        for number in first..plain.requests.len() {
            if let Some(ask) = plain.hold_of(number)? {
                return Ok((number, ask));
            }
        }
    }
    Ok((first, random.one_of(4)))
}

fn verdict_by_chance(plain: &Plain, random: &mut Random) -> Result<Event, AllocError> {
    let verdict = if random.chance(500) {
        VERDICTS[random.one_of(4) & 3]
    } else {
        b""
    };
    let (request, index) = hold_by_chance(plain, random)?;
    Ok(Event::Complete {
        request: request as u64,
        index: u32::try_from(index).unwrap_or(0),
        verdict,
    })
}

fn end_by_chance(plain: &Plain, random: &mut Random) -> Result<Event, AllocError> {
    let rest = random.one_of(3) as u64;
    Ok(match random.one_of(14) {
        0 | 1 => Event::ClientEnd(rest),
        2 | 3 => Event::BrokerEnd(rest),
        4 => Event::Fails(Fault::ClientRead),
        5 => Event::Fails(Fault::ClientWrite),
        6 => Event::Fails(Fault::BrokerRead),
        7 => Event::Fails(Fault::BrokerWrite),
        8 => Event::Fails(Fault::ClientBadSize { at: 20, size: -1 }),
        9 => Event::Fails(Fault::BrokerBadSize { at: 8, size: 2 }),
        10 => Event::Fails(Fault::Thread),
        11 => Event::Fails(Fault::NoMemory),
        _ => {
            let request = hold_by_chance(plain, random)?.0 as u64;
            Event::Fails(Fault::Authority { request })
        }
    })
}
