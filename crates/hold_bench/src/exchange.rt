// A request for ListGroups on its way, and what comes back for it. Its number is its own id and that of its send, so there
// are fewer than 2^31 of them.
use bytes::Bytes;
use conn_core::{Connection, Core, Emit};
use filter_probes::Probe;
use kp_edge::Steps;
use std::alloc::{AllocError, Global};

// What is counted by steps: nothing.
struct Unused;

// Whether a request with this number is taken.
pub fn is_taken(alloc: Global, core: &mut Core<Probe>, number: u32) -> Result<bool, AllocError> {
    let id = number.to_be_bytes();
    // version 0, without a client id; the body is empty
    let frame = [0, 16, 0, 0, id[0], id[1], id[2], id[3], 0xff, 0xff];
    let frame = Bytes::copy_from_slice(alloc, &frame)?;
    Ok(frame.len() >= 8 && core.take(frame, &mut Steps::<Unused>::new()).is_ok())
}

// Whether that request is the next one sent.
pub fn is_sent(core: &mut Core<Probe>, number: u32) -> bool {
    let id = number.to_be_bytes();
    match core.send() {
        Some(frame) => {
            let sent = [
                0, 0, 0, 10, 0, 16, 0, 0, id[0], id[1], id[2], id[3], 0xff, 0xff,
            ];
            frame.as_slice() == sent.as_slice()
        }
        None => false,
    }
}

// Whether the broker's answer to it is its.
pub fn is_answered(alloc: Global, core: &mut Core<Probe>, number: u32) -> Result<bool, AllocError> {
    let id = number.to_be_bytes();
    // no error, and no groups
    let frame = [id[0], id[1], id[2], id[3], 0, 0, 0, 0, 0, 0];
    let frame = Bytes::copy_from_slice(alloc, &frame)?;
    Ok(frame.len() >= 4 && core.answer(frame, &mut Steps::<Unused>::new()).is_ok())
}

// Whether its response is emitted next.
pub fn is_emitted(core: &mut Core<Probe>, number: u32) -> bool {
    let id = number.to_be_bytes();
    match core.emit() {
        Emit::Bytes(response) => {
            let emitted = [0, 0, 0, 10, id[0], id[1], id[2], id[3], 0, 0, 0, 0, 0, 0];
            response.as_slice() == emitted.as_slice()
        }
        Emit::Later | Emit::Over(_) => false,
    }
}
