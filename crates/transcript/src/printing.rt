ghost use Rattle.std.specs.Prelude.{◌≡◌, ◌≤◌, ◌++◌, codes, length, IfSome, OnOk, OnErr};
ghost use Rattle.std.specs.Fmt.{decimal};
ghost use Rattle.hex.specs.Hex.{encode_lower};
ghost use Rattle.transcript.specs.Hex.{hex_text};
ghost use Rattle.transcript.specs.Answers.{answer_text, HasFrontAppended};
ghost use Rattle.transcript.specs.declared.printing.TheConstants.{CHUNK};

use crate::answer::Answer;
use crate::words::Words;
use kp_edge::NoMemory;
use std::fmt::{Display, Write};
use wire_types::Writer;

/// How many bytes are written as digits at a time.
const CHUNK: usize = 512;

/// Appends an answer's text, without a line's end. Where memory runs out a front of it may stand there.
#[tactic(auto, using(crate::proofs::Printed::printing))]
pub fn print(answer: &Answer, out: &mut Writer) -> Result<(), NoMemory>
    ensures ok { OnOk result (out.new ≡ out.old ++ answer_text answer.now) }
    ensures err { OnErr result (HasFrontAppended out.old out.new (answer_text answer.now)) }
{
    match answer {
        Answer::Fine => put(out, b"ok"),
        Answer::Full => put(out, b"full"),
        Answer::Closed => put(out, b"closed"),
        Answer::NotWaiting => put(out, b"not-waiting"),
        Answer::ToBroker(frame) => {
            put(out, b"to-broker ")?;
            put_bytes(out, frame.as_slice())
        }
        Answer::ToClient(frame) => {
            put(out, b"to-client ")?;
            put_bytes(out, frame.as_slice())
        }
        Answer::Nothing => put(out, b"none"),
        Answer::Later => put(out, b"later"),
        Answer::Over(end) => put_words(out, format_args!("over {end}")),
        Answer::Ticket {
            request,
            index,
            key,
        } => {
            put_ticket(out, *request, *index)?;
            put_bytes(out, key.as_slice())
        }
    }
}

fn put(out: &mut Writer, text: &[u8]) -> Result<(), NoMemory>
    ensures ok { OnOk result (out.new ≡ out.old ++ text.now) }
    ensures err { OnErr result (out.new ≡ out.old) }
{
    out.put_all(text).map_err(|_| NoMemory)
}

// The words of a ticket in front of its key.
fn put_ticket(out: &mut Writer, request: u64, index: u32) -> Result<(), NoMemory>
    ensures ok { OnOk result (out.new
        ≡ out.old ++ (codes "ticket " ++ decimal request ++ codes " " ++ decimal index ++ codes " ")) }
    ensures err { OnErr result (out.new ≡ out.old) }
{
    put_words(out, format_args!("ticket {request} {index} "))
}

fn put_words<D: Display + Drop>(out: &mut Writer, words: D) -> Result<(), NoMemory>
    ensures ok { OnOk result (IfSome (D.output words) (λ text. out.new ≡ out.old ++ text)) }
    ensures err { OnErr result (out.new ≡ out.old) }
{
    let mut text = Words::new();
    if text.write(words).is_err() {
        return Err(NoMemory);
    }
    put(out, text.as_slice())
}

#[tactic(auto, using(crate::proofs::Printed::printing))]
fn put_bytes(out: &mut Writer, bytes: &[u8]) -> Result<(), NoMemory>
    ensures ok { OnOk result (out.new ≡ out.old ++ hex_text bytes.now) }
    ensures err { OnErr result (HasFrontAppended out.old out.new (hex_text bytes.now)) }
{
    if bytes.is_empty() {
        return put(out, b"-");
    }
    put_digits(out, bytes)
}

// Two digits for each byte.
#[tactic(auto, using(crate::proofs::Printed::printing))]
fn put_digits(out: &mut Writer, bytes: &[u8]) -> Result<(), NoMemory>
    ensures ok { OnOk result (out.new ≡ out.old ++ encode_lower bytes.now) }
    ensures err { OnErr result (HasFrontAppended out.old out.new (encode_lower bytes.now)) }
{
    let mut rest = bytes;
    while !rest.is_empty() {
        let (chunk, others) = rest.split_at(rest.len().min(CHUNK));
        put_chunk(out, chunk)?;
        rest = others;
    }
    Ok(())
}

fn put_chunk(out: &mut Writer, chunk: &[u8]) -> Result<(), NoMemory>
    requires { length chunk.now ≤ CHUNK }
    ensures ok { OnOk result (out.new ≡ out.old ++ encode_lower chunk.now) }
    ensures err { OnErr result (out.new ≡ out.old) }
{
    let mut digits = [0u8; 2 * CHUNK];
    let text = &mut digits[..2 * chunk.len()];
    hex::encode_to_slice(chunk, text).unwrap();
    put(out, text)
}
