ghost use Rattle.std.specs.Prelude.{◌≡◌, ◌==◌, ◌<◌, length, IfOk, IfSome, IsErrOf, MatchResult, option_map, position};
ghost use Rattle.transcript.specs.Lines.{Spells};
ghost use Rattle.transcript.specs.Reading.{IsReadAs, bytes_of, word_of, bare_of, verdict_of, done_of, line_of};

use crate::line::{Line, LineFault};
use crate::numbers::{number_u32, number_u64};
use kp_edge::Blob;
use std::alloc::Global;

/// The most bytes of a verdict.
const MOST_VERDICT: usize = 8_388_608;

/// The line that a text spells. The text has no line's end behind it.
pub fn read_line(alloc: Global, line: &[u8]) -> Result<Line, LineFault>
    ensures read { IfOk result (λ found. Spells found line.now) }
    ensures spelled_is_read { (spelled : Line) → Spells spelled line.now
        → MatchResult result (λ found. found ≡ spelled) (λ fault. fault ≡ LineFault.NoMemory) }
    ensures bad { IsErrOf result LineFault.BadLine → (other : Line) → ¬ (Spells other line.now) }
{
    read_text(alloc, line)
}

#[tactic(auto, unfolding(crate::specs::Reading::line_of))]
fn read_text(alloc: Global, text: &[u8]) -> Result<Line, LineFault>
    ensures { IsReadAs result (line_of text.now) }
{
    if let Some(line) = bare_line(text) {
        return Ok(line);
    }
    if let Some(word) = text.strip_prefix(b"client ") {
        return Ok(Line::Client(read_bytes(alloc, word)?));
    }
    if let Some(word) = text.strip_prefix(b"broker ") {
        return Ok(Line::Broker(read_bytes(alloc, word)?));
    }
    if let Some(words) = text.strip_prefix(b"done ") {
        return read_done(alloc, words);
    }
    if let Some(word) = text.strip_prefix(b"fault authority ") {
        let request = number_u64(word).ok_or(LineFault::BadLine)?;
        return Ok(Line::FaultAuthority { request });
    }
    Err(LineFault::BadLine)
}

// A line without bytes and numbers.
#[tactic(auto, unfolding(crate::specs::Reading::bare_of))]
fn bare_line(text: &[u8]) -> Option<Line>
    ensures { result ≡ bare_of text.now }
{
    if text == b"client-end".as_slice() {
        Some(Line::ClientEnd)
    } else if text == b"broker-end".as_slice() {
        Some(Line::BrokerEnd)
    } else if text == b"send".as_slice() {
        Some(Line::Send)
    } else if text == b"emit".as_slice() {
        Some(Line::Emit)
    } else if text == b"pick".as_slice() {
        Some(Line::Pick)
    } else if text == b"fault client-read".as_slice() {
        Some(Line::FaultClientRead)
    } else if text == b"fault client-write".as_slice() {
        Some(Line::FaultClientWrite)
    } else if text == b"fault broker-read".as_slice() {
        Some(Line::FaultBrokerRead)
    } else if text == b"fault broker-write".as_slice() {
        Some(Line::FaultBrokerWrite)
    } else {
        None
    }
}

#[tactic(auto, unfolding(crate::specs::Reading::bytes_of))]
fn read_bytes(alloc: Global, word: &[u8]) -> Result<Blob, LineFault>
    ensures { IsReadAs result (bytes_of word.now) }
{
    if word == b"-".as_slice() {
        return Ok(Blob::from_vec(Vec::new(alloc)));
    }
    if word.is_empty() {
        return Err(LineFault::BadLine);
    }
    match hex::decode(alloc, word) {
        Ok(bytes) => Ok(Blob::from_vec(bytes)),
        Err(hex::FromHexError::OutOfMemory) => Err(LineFault::NoMemory),
        Err(_) => Err(LineFault::BadLine),
    }
}

// Where the first space is.
fn first_space(text: &[u8]) -> Option<usize>
    ensures first { result ≡ position (λ c. c == 32) text.now }
    ensures within { IfSome result (λ i. i < length text.now) }
{
    text.iter().position(|c| *c == b' ')
}

// The word up to the first space, and what stands behind it.
#[tactic(auto, unfolding(crate::specs::Reading::word_of))]
fn next_word(text: &[u8]) -> Option<(&[u8], &[u8])>
    ensures { option_map (λ words. (words.0.now, words.1.now)) result ≡ word_of text.now }
{
    let space = first_space(text)?;
    Some((&text[..space], &text[space + 1..]))
}

#[tactic(auto, unfolding(crate::specs::Reading::verdict_of))]
fn read_verdict(alloc: Global, word: &[u8]) -> Result<Blob, LineFault>
    ensures { IsReadAs result (verdict_of word.now) }
{
    if word.len() > 2 * MOST_VERDICT {
        return Err(LineFault::BadLine);
    }
    read_bytes(alloc, word)
}

// The words behind `done`: the request, the number of its ask and the verdict.
#[tactic(auto, unfolding(crate::specs::Reading::done_of))]
fn read_done(alloc: Global, words: &[u8]) -> Result<Line, LineFault>
    ensures { IsReadAs result (done_of words.now) }
{
    let (first, others) = next_word(words).ok_or(LineFault::BadLine)?;
    let (second, third) = next_word(others).ok_or(LineFault::BadLine)?;
    let request = number_u64(first).ok_or(LineFault::BadLine)?;
    let index = number_u32(second).ok_or(LineFault::BadLine)?;
    let verdict = read_verdict(alloc, third)?;
    Ok(Line::Done {
        request,
        index,
        verdict,
    })
}
