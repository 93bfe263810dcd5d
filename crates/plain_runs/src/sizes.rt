// Verdicts, messages, answers and responses of odd and great sizes.
use crate::alike::Unused;
use bytes::Bytes;
use filter_chain::{Outside, Run, State};
use filter_core::Filter;
use filter_probes::{Grows, Growth, Probe, heartbeat};
use kp_edge::{Blob, NoMemory, Steps};
use kp_schema::Dir;
use side_requests::Ask;
use std::alloc::Global;
use tree_codec::{Body, decode, encode};

pub const SIZES: [usize; 4] = [0, 1, 65_537, 1_048_577];

// A Heartbeat request of version 0, of group g, generation 1 and member m.
const HEARTBEAT: &[u8] = b"\0\x01g\0\0\0\x01\0\x01m";

// The same of a SyncGroup without an assignment, and what stands before its bytes where it has one.
const SYNC_GROUP: &[u8] = b"\0\x01g\0\0\0\x01\0\x01m\0\0\0\0";

const BEFORE_SENT: &[u8] = b"\0\x01g\0\0\0\x01\0\x01m\0\0\0\x01\0\0";

// What stands before the bytes of a SyncGroup's response.
const BEFORE_RETURNED: &[u8] = b"\0\0";

// What of a size is whole.
pub enum Whole {
    All,
    AllBut(&'static str),
}

// How a request stands.
#[derive(Clone, Copy, PartialEq, Eq)]
enum Stands {
    Main,
    Held,
    Done,
}

fn is_body(alloc: Global, body: &Body, key: i16, bytes: &[u8]) -> bool {
    match encode(alloc, body, u64::MAX) {
        Ok(spelled) => body.key() == key && spelled.as_slice() == bytes,
        Err(_) => false,
    }
}

// It stands so, and asks or gets a body of this key that is spelled by these bytes. A hold has them as its key.
fn is_wanted<P: Drop>(
    alloc: Global,
    state: &State<P>,
    stands: Stands,
    key: i16,
    bytes: &[u8],
) -> bool {
    match state {
        State::Needs(_, Ask::Broker { request, main }) => {
            *main && stands == Stands::Main && is_body(alloc, request, key, bytes)
        }
        State::Needs(_, Ask::Hold { key: held, .. }) => {
            stands == Stands::Held && held.as_slice() == bytes
        }
        State::Done(Some(response)) => {
            stands == Stands::Done && is_body(alloc, response, key, bytes)
        }
        State::Done(None) | State::Shut(_) => false,
    }
}

// The run goes on with this.
fn given<P: Drop, F: Filter<Pending = P>>(
    alloc: Global,
    chain: &[F],
    state: State<P>,
    outside: Outside,
) -> Result<State<P>, NoMemory> {
    match state {
        State::Needs(run, _ask) => run.poll(alloc, chain, outside, &mut Steps::<Unused>::new()),
        ended => Ok(ended),
    }
}

// The first byte of a verdict is heeded. After an empty one the request is forwarded.
fn is_verdict_heeded(alloc: Global, size: usize) -> Result<bool, NoMemory> {
    let chain = [Probe::heeding()];
    let steps = &mut Steps::<Unused>::new();
    let state = Run::start(alloc, &chain, heartbeat(alloc)?, steps)?;
    let is_held = is_wanted(alloc, &state, Stands::Held, 0, b"k");
    let verdict = Outside::Verdict(Blob::from_vec(vec![in alloc; b'v'; size]?));
    let state = given(alloc, &chain, state, verdict)?;
    let goes_on = if size == 0 {
        is_wanted(alloc, &state, Stands::Main, 12, HEARTBEAT)
    } else {
        is_wanted(alloc, &state, Stands::Done, 12, b"\0v")
    };
    Ok(is_held && goes_on)
}

// The bytes before, an INT32 that counts those behind it, and so many of these.
fn with_count(alloc: Global, before: &[u8], size: usize) -> Result<Bytes, NoMemory> {
    let count = u32::try_from(size).map_err(|_| NoMemory)?;
    let mut bytes = Vec::from_slice(alloc, before)?;
    bytes.extend_from_slice(&count.to_be_bytes())?;
    bytes.extend_from_slice(vec![in alloc; b'p'; size]?.as_slice())?;
    Ok(Bytes::from_vec(bytes)?)
}

// A chain whose filter puts a payload of so many bytes into SyncGroup.
fn growing(alloc: Global, growth: Growth, size: usize) -> Result<Vec<Grows>, NoMemory> {
    let payload = Bytes::from_vec(vec![in alloc; b'p'; size]?)?;
    let mut chain = Vec::new(alloc);
    if payload.len() <= 2_147_483_647 {
        chain.push(Grows::by(growth, payload))?;
    }
    Ok(chain)
}

fn sync_group(alloc: Global, dir: Dir, bytes: Bytes) -> Result<Body, NoMemory> {
    decode(alloc, 14, 0, dir, bytes).map_err(|_| NoMemory)
}

fn started<P: Drop, F: Filter<Pending = P>>(
    alloc: Global,
    chain: &[F],
) -> Result<State<P>, NoMemory> {
    let request = sync_group(alloc, Dir::Request, Bytes::from_static(SYNC_GROUP))?;
    Run::start(alloc, chain, request, &mut Steps::<Unused>::new())
}

fn is_message_whole(alloc: Global, size: usize) -> Result<bool, NoMemory> {
    let chain = growing(alloc, Growth::Sends, size)?;
    let state = started(alloc, chain.as_slice())?;
    let sent = with_count(alloc, BEFORE_SENT, size)?;
    let is_sent = is_wanted(alloc, &state, Stands::Main, 14, sent.as_slice());
    let returned = with_count(alloc, BEFORE_RETURNED, size)?;
    let answer = sync_group(alloc, Dir::Response, returned.clone()?)?;
    let state = given(alloc, chain.as_slice(), state, Outside::Answer(answer))?;
    Ok(is_sent && is_wanted(alloc, &state, Stands::Done, 14, returned.as_slice()))
}

fn is_response_whole(alloc: Global, size: usize) -> Result<bool, NoMemory> {
    let chain = growing(alloc, Growth::Responses, size)?;
    let state = started(alloc, chain.as_slice())?;
    let wanted = with_count(alloc, BEFORE_RETURNED, size)?;
    Ok(is_wanted(alloc, &state, Stands::Done, 14, wanted.as_slice()))
}

pub fn wholes(alloc: Global, size: usize) -> Result<Whole, NoMemory> {
    Ok(if !is_verdict_heeded(alloc, size)? {
        Whole::AllBut("the verdict")
    } else if !is_message_whole(alloc, size)? {
        Whole::AllBut("the message or its answer")
    } else if !is_response_whole(alloc, size)? {
        Whole::AllBut("the response")
    } else {
        Whole::All
    })
}
