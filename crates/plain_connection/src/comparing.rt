// The plain connection beside the one of the proxy.
use crate::chance::{chain_by_chance, event_by_chance};
use crate::event::{Event, Reply};
use crate::frames::joined;
use crate::plain::Plain;
use crate::random::Random;
use bytes::Bytes;
use conn_core::{AnswerFault, CompleteFault, Connection, Core, Emit, TakeFault};
use filter_probes::Probe;
use kp_edge::{Blob, Steps};
use plain_chain::ProbeKind;
use std::alloc::{AllocError, Global};

// How many events a history has.
pub const EVENTS: u32 = 60;

// What is counted: nothing.
struct Unused;

// How a history went.
#[derive(Drop)]
pub enum History {
    // All events were answered alike. The plain connection is then so.
    Alike(Plain),
    // This event wasn't.
    Differs { event: u32, chain: Vec<ProbeKind> },
}

fn probe_of(kind: ProbeKind) -> Probe {
    match kind {
        ProbeKind::AsksHeartbeat(times) => Probe::asking(0, times),
        ProbeKind::AsksMetadata(times) => Probe::asking(1, times),
        ProbeKind::Holds(times) => Probe::asking(2, times),
        ProbeKind::Changes => Probe::two_turns(0),
        ProbeKind::Answers => Probe::two_turns(1),
        ProbeKind::Shuts => Probe::two_turns(2),
        ProbeKind::ShutsMetadata => Probe::two_turns(3),
        ProbeKind::Heeds => Probe::heeding(),
    }
}

fn core_of(alloc: Global, chain: &[ProbeKind], in_flight: u32) -> Result<Core<Probe>, AllocError> {
    let mut probes = Vec::new(alloc);
    for kind in chain {
        probes.push(probe_of(*kind))?;
    }
    Ok(Core::new(alloc, probes, in_flight.clamp(1, 64)))
}

// One history of this seed: a chain, a limit of requests in flight, and sixty events.
pub fn compared_history(alloc: Global, seed: u64, number: u64) -> Result<History, AllocError> {
    let mut random = Random::of(seed, number);
    let chain = chain_by_chance(alloc, &mut random)?;
    let in_flight = [1, 2, 3, 5, 8, 64, 64, 64][random.one_of(8) & 7];
    let mut core = core_of(alloc, chain.as_slice(), in_flight)?;
    let mut plain = Plain::new(alloc, chain, in_flight as usize);
    for number in 0..EVENTS {
        let event = event_by_chance(&plain, &mut random)?;
        let is_alike = is_answered_alike(alloc, &mut core, &mut plain, &event)?;
        if !is_alike {
            let chain = plain.chain;
            return Ok(History::Differs {
                event: number,
                chain,
            });
        }
    }
    Ok(History::Alike(plain))
}

fn is_answered_alike(
    alloc: Global,
    core: &mut Core<Probe>,
    plain: &mut Plain,
    event: &Event,
) -> Result<bool, AllocError> {
    let frame = frame_of(alloc, event)?;
    let came = Bytes::copy_from_slice(alloc, frame.as_slice())?;
    let want = plain.answer_to(event)?;
    let mut steps = Steps::<Unused>::new();
    Ok(match event {
        Event::Take(..) if came.len() >= 8 => {
            is_taken_alike(core.take(came, &mut steps), &want, frame.as_slice())
        }
        Event::Answer { .. } if came.len() >= 4 => {
            is_matched_alike(core.answer(came, &mut steps), &want, frame.as_slice())
        }
        Event::Take(..) | Event::Answer { .. } => false,
        Event::Complete {
            request,
            index,
            verdict,
        } => {
            let blob = Blob::from_vec(joined(alloc, &[*verdict])?);
            let told = core.complete(*request, *index, blob, &mut steps);
            is_completed_alike(told, &want, verdict)
        }
        Event::ClientEnd(rest) => {
            core.client_end(*rest);
            true
        }
        Event::BrokerEnd(rest) => {
            core.broker_end(*rest);
            true
        }
        Event::Fails(fault) => {
            core.fault(*fault);
            true
        }
        Event::Send => match (core.send(), want) {
            (Some(frame), Reply::Bytes(wanted)) => frame.as_slice() == wanted.as_slice(),
            (None, Reply::Nothing) => true,
            _ => false,
        },
        Event::Emit => match (core.emit(), want) {
            (Emit::Bytes(response), Reply::Bytes(wanted)) => {
                response.as_slice() == wanted.as_slice()
            }
            (Emit::Later, Reply::Later) => true,
            (Emit::Over(why), Reply::Over(wanted)) => why == wanted,
            _ => false,
        },
        Event::Pick => match (core.pick(), want) {
            (Some(ticket), Reply::Ticket(request, index)) => {
                ticket.request == request
                    && ticket.index == index
                    && ticket.key.as_slice() == b"k".as_slice()
            }
            (None, Reply::Nothing) => true,
            _ => false,
        },
        Event::Look => match want {
            Reply::Looks(wanted) => core.look() == wanted,
            _ => false,
        },
    })
}

// The bytes of the frame that comes, if one does.
fn frame_of(alloc: Global, event: &Event) -> Result<Vec<u8>, AllocError> {
    let mut frame = Vec::new(alloc);
    match event {
        Event::Take(sample, own_id) => {
            frame.extend_from_slice(&sample.key.to_be_bytes())?;
            frame.extend_from_slice(&sample.version.to_be_bytes())?;
            frame.extend_from_slice(own_id)?;
            frame.extend_from_slice(sample.client_id)?;
            frame.extend_from_slice(sample.body)?;
        }
        Event::Answer { id, body, .. } => {
            frame.extend_from_slice(&id.to_be_bytes())?;
            frame.extend_from_slice(body.as_slice())?;
        }
        _ => {}
    }
    Ok(frame)
}

fn is_taken_alike(told: Result<(), TakeFault>, want: &Reply, frame: &[u8]) -> bool {
    match (told, want) {
        (Ok(()), Reply::Fine) => true,
        (Err(TakeFault::Ending(back)), Reply::Back) => back.as_slice() == frame,
        (
            Err(
                TakeFault::Full {
                    count,
                    held,
                    frame: back,
                },
            ),
            Reply::Full(wanted, bytes),
        ) => { count == *wanted && held == *bytes && back.as_slice() == frame }
        _ => false,
    }
}

fn is_matched_alike(told: Result<(), AnswerFault>, want: &Reply, frame: &[u8]) -> bool {
    match (told, want) {
        (Ok(()), Reply::Fine) => true,
        (Err(AnswerFault::Dead(back)), Reply::Back) => back.as_slice() == frame,
        _ => false,
    }
}

fn is_completed_alike(told: Result<(), CompleteFault>, want: &Reply, verdict: &[u8]) -> bool {
    match (told, want) {
        (Ok(()), Reply::Fine) => true,
        (Err(CompleteFault::NotWaiting(back)), Reply::Back) => back.as_slice() == verdict,
        _ => false,
    }
}
