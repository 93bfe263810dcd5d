ghost use Rattle.std.specs.Prelude.{◌≡◌, ◌+◌, ◌≤◌, ◌++◌, ℕ, List, length, drop, IfOk, IfSome};
ghost use Rattle.tree_spelling.specs.Spelling.{spelling};
ghost use Rattle.tree_spelling.specs.Body.{Contents};
ghost use Rattle.filter_core.specs.Acks.{has_acks_zero};
ghost use Rattle.framing.specs.Frames.{sized};
ghost use Rattle.serving.specs.Services.{awaits_answer_to};
ghost use Rattle.conn_core.specs.Chained.{most_out, sent_for, response_body};
ghost use Rattle.conn_core.specs.Underway.{IsEnvelopeOf};

use crate::acks::has_acks_zero;
use bytes::Bytes;
use kp_edge::NoMemory;
use serving::{Message, WholeFrame};
use std::alloc::Global;
use tree_codec::{Body, append};
use wire_types::Writer;

/// The header of a request, as far as it is needed once the request is read.
#[derive(Drop)]
pub struct Envelope {
    pub(crate) alloc: Global,
    /// The client's correlation id, as it came.
    pub(crate) correlation_id: [u8; 4],
    /// The client id as it came, a STRING. It is a part of the request's frame.
    pub(crate) client_id: Bytes,
    /// The request gets no response.
    pub(crate) silent: bool,
}

impl Envelope {
    /// The size of the broker's frame for a message, where 64 bits can say it.
    pub(crate) fn message_size(&self, message: &Body) -> Option<u64>
        ensures { IfSome result (λ size. size ≡ 8 + length self.now.client_id + length (spelling message.now.items)) }
    {
        let head = 8_u64.checked_add(self.client_id.len() as u64)?;
        head.checked_add(message.size())
    }

    /// The message in an envelope for the broker. `size` is that of its frame.
    pub(crate) fn message(&self, body: &Body, main: bool, size: u64) -> Result<Message, NoMemory>
        requires { size ≤ most_out }
        ensures { IfOk result (λ message. (frame : List ℕ) → IsEnvelopeOf self.now frame → sent_for frame body.now main ≡ awaits_answer_to message) }
    {
        Ok(Message {
            before: side_by_side(body.key().to_be_bytes(), body.version().to_be_bytes()),
            draft: spell_message(self.alloc, &self.client_id, body, size).map_err(|_| NoMemory)?,
            main,
            responds: !has_acks_zero(body),
        })
    }

    /// The response with this body. `size` is that of its frame.
    pub(crate) fn response(&self, response: Option<Body>, size: u64) -> Result<WholeFrame, NoMemory>
        requires exact { size ≡ 4 + length (response_body response) }
        requires small { size ≤ most_out }
        ensures { IfOk result (λ frame. frame.bytes ≡ sized (self.now.correlation_id ++ response_body response)) }
    {
        let bytes = spell_response(self.alloc, self.correlation_id, response, size).map_err(
            |_| NoMemory,
        )?;
        Ok(WholeFrame { bytes })
    }
}

// The broker's frame, whose size is `size`, behind a head of zeros: what stands behind its correlation id.
fn spell_message(
    alloc: Global,
    client_id: &Bytes,
    body: &Body,
    size: u64,
) -> Result<Vec<u8>, wire_types::NoMemory>
    requires small { size ≤ most_out }
    ensures head { IfOk result (λ draft. 12 ≤ length draft.items) }
    ensures behind { IfOk result (λ draft. drop 12 draft.items ≡ client_id.now ++ spelling body.now.items) }
{
    let mut draft = Writer::with_capacity(alloc, size as usize + 4)?;
    draft.put_all(&[0; 12])?;
    draft.put_all(client_id.as_slice())?;
    append(&mut draft, body)?;
    Ok(draft.into_vec())
}

// The whole frame, behind its size.
fn spell_response(
    alloc: Global,
    correlation_id: [u8; 4],
    response: Option<Body>,
    size: u64,
) -> Result<Bytes, wire_types::NoMemory>
    requires exact { size ≡ 4 + length (response_body response) }
    requires small { size ≤ most_out }
    ensures { IfOk result (λ bytes. bytes ≡ sized (correlation_id ++ response_body response)) }
{
    let mut out = Writer::with_capacity(alloc, size as usize + 4)?;
    out.put_all(&(size as u32).to_be_bytes())?;
    out.put_all(&correlation_id)?;
    if let Some(body) = response {
        append(&mut out, &body)?;
    }
    out.finish()
}

fn side_by_side(key: [u8; 2], version: [u8; 2]) -> [u8; 4]
    ensures { result ≡ key ++ version }
{
    [key[0], key[1], version[0], version[1]]
}
