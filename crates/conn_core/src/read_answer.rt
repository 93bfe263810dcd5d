// A broker's answer, read, or why it ends the connection: its body is no spelling of its message.
ghost use Rattle.std.specs.Prelude.{◌≡◌, IfOk};
ghost use Rattle.framing.specs.RequestStarts.{request_key, request_version};
ghost use Rattle.serving.specs.Services.{IsBodyRead};
ghost use Rattle.conn_core.specs.Requests.{answer_cause, answer_decoded, response_decoded};
ghost use Rattle.conn_core.specs.Underway.{answer_bytes};

use crate::answer_body::AnswerBody;
use bytes::Bytes;
use kp_edge::NoMemory;
use kp_schema::Dir;
use serving::Cause;
use std::alloc::Global;
use tree_codec::{DecodeFault, decode};

/// The body of a response, or why it can't be read. `before` is the key and the version of its message.
pub(crate) fn read_answer(
    alloc: Global,
    before: [u8; 4],
    bytes: Bytes,
) -> Result<Result<AnswerBody, Cause>, NoMemory>
    ensures { IfOk result (λ read. IsBodyRead (answer_cause (request_key before) (request_version before) (answer_decoded before bytes)) answer_bytes bytes read) }
{
    read_by(alloc, key_in(before), version_in(before), bytes)
}

// The same for this key and version.
fn read_by(
    alloc: Global,
    key: i16,
    version: i16,
    bytes: Bytes,
) -> Result<Result<AnswerBody, Cause>, NoMemory>
    ensures { IfOk result (λ read. IsBodyRead (answer_cause key version (response_decoded key version bytes)) answer_bytes bytes read) }
{
    match decode(alloc, key, version, Dir::Response, bytes) {
        Ok(body) => Ok(Ok(AnswerBody { body })),
        Err(DecodeFault::NotSpelled { .. } | DecodeFault::TooManyEntries { .. }) => {
            Ok(Err(Cause::BrokerBadBody { key, version }))
        }
        Err(DecodeFault::NoMemory) => Err(NoMemory),
    }
}

fn key_in(before: [u8; 4]) -> i16
    ensures { result ≡ request_key before }
{
    i16::from_be_bytes([before[0], before[1]])
}

fn version_in(before: [u8; 4]) -> i16
    ensures { result ≡ request_version before }
{
    i16::from_be_bytes([before[2], before[3]])
}
