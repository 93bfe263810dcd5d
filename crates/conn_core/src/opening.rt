// A client's frame with a good head, opened: its body is read.
ghost use Rattle.std.specs.Prelude.{◌≡◌, ◌+◌, ◌≤◌, length, Some, IfOk};
ghost use Rattle.tree_spelling.specs.Decoded.{Decoded};
ghost use Rattle.tree_codec.specs.Decoding.{HasFault};
ghost use Rattle.serving.specs.Causes.{why_of};
ghost use Rattle.framing.specs.Heads.{client_id_length};
ghost use Rattle.conn_core.specs.Requests.{request_of, body_cause};
ghost use Rattle.conn_core.specs.Underway.{IsEnvelopeOf};
ghost use Rattle.conn_core.specs.Kinds.{HasHead, Opens};

use crate::acks::has_acks_zero;
use crate::envelope::Envelope;
use bytes::Bytes;
use kp_edge::NoMemory;
use kp_schema::Dir;
use serving::Cause;
use std::alloc::Global;
use tree_codec::{Body, DecodeFault, decode};

/// What a frame with a good head is.
#[derive(Drop)]
pub(crate) enum Opened {
    Request(Envelope, Body),
    NoRequest(Cause),
}

/// The request in a frame with this head, or why its body is none. Texts and lists of bytes stay parts of the frame.
pub(crate) fn open(
    alloc: Global,
    frame: &Bytes,
    key: i16,
    version: i16,
    body_at: usize,
) -> Result<Opened, NoMemory>
    requires long { 8 ≤ length frame.now }
    requires head { HasHead frame.now key version body_at }
    ensures { IfOk result (λ opened. Opens frame.now opened) }
{
    let body = frame.slice(body_at..frame.len())?;
    match decode(alloc, key, version, Dir::Request, body) {
        Ok(request) => {
            let envelope = enclose(alloc, frame, body_at, &request)?;
            Ok(Opened::Request(envelope, request))
        }
        Err(fault) => Ok(Opened::NoRequest(cause_of_fault(key, version, fault)?)),
    }
}

// The envelope of the request whose body begins at this place.
fn enclose(
    alloc: Global,
    frame: &Bytes,
    body_at: usize,
    request: &Body,
) -> Result<Envelope, NoMemory>
    requires long { 8 ≤ length frame.now }
    requires behind { 8 ≤ body_at }
    requires inside { body_at ≤ length frame.now }
    ensures { IfOk result (λ envelope. body_at ≡ 8 + client_id_length frame.now → request.now ≡ request_of frame.now → IsEnvelopeOf envelope frame.now) }
{
    let bytes = frame.as_slice();
    Ok(Envelope {
        alloc,
        correlation_id: [bytes[4], bytes[5], bytes[6], bytes[7]],
        client_id: frame.slice(8..body_at)?,
        silent: has_acks_zero(request),
    })
}

// Why a body with this fault is no request.
fn cause_of_fault(key: i16, version: i16, fault: DecodeFault) -> Result<Cause, NoMemory>
    ensures { IfOk result (λ cause. (outcome : Decoded) → HasFault outcome fault → body_cause key version outcome ≡ Some (why_of cause)) }
{
    match fault {
        DecodeFault::NotSpelled { at } => Ok(Cause::BadBody {
            key,
            version,
            at: at as u64,
        }),
        DecodeFault::TooManyEntries { at } => Ok(Cause::TooManyEntries { at: at as u64 }),
        DecodeFault::NoMemory => Err(NoMemory),
    }
}
