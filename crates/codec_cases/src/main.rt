//! Calls of `tree_codec` as lines of data: what each line asks for, and what the call answered.
//!
//! ```text
//!   decode 12 0 request 0001670000000100016d   ──►   spelled 0 3 7
//!   with 0 fffe                                ──►   not-spelled 0
//!   get 1                                      ──►   number:1
//! ```
//!
//! The input's lines are answered in turn, one line each. The README has their kinds.
#![tactic(auto)]

mod printing;
mod reading;
mod subject;

use crate::printing::{body_text, bytes_text, edit_text, item_text};
use crate::reading::{bytes_in, direction_in, flags_in, item_in, path_in};
use crate::subject::Subject;
use std::alloc::Global;
use std::fmt::Write;
use std::io;
use std::io::{BufRead, BufReader};
use tree_codec::{Builder, EditFault, EncodeFault, encode};

fn main(rt: HostRuntime) -> io::Result<()> {
    let mut subject = Subject::none();
    for line in BufReader::new(rt.alloc(), rt.reader())?.lines(rt.alloc()) {
        let line = line?;
        match answer(rt.alloc(), &mut subject, line.as_str()) {
            Some(answer) => println!(rt; "{answer}")?,
            None => println!(rt; "bad line")?,
        }
    }
    Ok(())
}

// What is written for a line, if it can be read and memory is there. A name is written as it is.
fn answer(alloc: Global, subject: &mut Subject, line: &str) -> Option<String> {
    if line.starts_with('#') {
        return String::from_str(alloc, line).ok();
    }
    let words: Vec<&str> = line.split_whitespace().collect(alloc).ok()?;
    match words.as_slice() {
        ["decode", key, version, dir, bytes] => {
            *subject = Subject {
                key: key.parse().ok()?,
                version: version.parse().ok()?,
                dir: direction_in(*dir)?,
                bytes: bytes_in(alloc, *bytes)?,
            };
            subject.decoded(alloc)
        }
        ["with", at, bytes] => {
            let other = bytes_in(alloc, *bytes)?;
            let changed = subject.with(alloc, at.parse().ok()?, other.as_slice())?;
            changed.decoded(alloc)
        }
        ["fronts"] => subject.fronts(alloc),
        ["encode", most] => encoded(alloc, subject, most.parse().ok()?),
        ["build", key, version, dir, items @ ..] => {
            let (key, version) = (key.parse().ok()?, version.parse().ok()?);
            built(
                alloc,
                Builder::new(alloc, key, version, direction_in(*dir)?),
                items,
            )
        }
        ["get", path] => got(alloc, subject, *path),
        [kind, path, word] => edited(alloc, subject, *kind, *path, *word),
        _ => None,
    }
}

// The bytes, where so many are allowed.
fn encoded(alloc: Global, subject: &Subject, most: u64) -> Option<String> {
    let mut text = String::new(alloc);
    match encode(alloc, &subject.body(alloc)?, most) {
        Ok(bytes) => text = bytes_text(alloc, bytes.as_slice())?,
        Err(EncodeFault::GrownPast { size }) => write!(text, "grown-past {size}").ok()?,
        Err(EncodeFault::NoMemory) => return None,
    }
    Some(text)
}

fn got(alloc: Global, subject: &Subject, path: &str) -> Option<String> {
    match subject
        .body(alloc)?
        .get(path_in(alloc, path)?.as_slice())
        .ok()?
    {
        Some(item) => item_text(alloc, &item),
        None => String::from_str(alloc, "nothing").ok(),
    }
}

// The answer of a change, and the body's bytes behind it.
fn edited(alloc: Global, subject: &Subject, kind: &str, path: &str, word: &str) -> Option<String> {
    let mut body = subject.body(alloc)?;
    let path = path_in(alloc, path)?;
    let answer = match kind {
        "set" => body.set(path.as_slice(), item_in(alloc, word)?),
        "retain" => body.retain(path.as_slice(), flags_in(alloc, word)?.as_slice()),
        _ => return None,
    };
    let mut text = edit_text(alloc, answer)?;
    text.push_str(body_text(alloc, &body)?.as_str()).ok()?;
    Some(text)
}

// What each `put` answered, and then the body's bytes, or `unfinished`.
fn built(alloc: Global, mut builder: Builder, items: &[&str]) -> Option<String> {
    let mut text = String::new(alloc);
    for word in items {
        let answer = builder.put(item_in(alloc, *word)?);
        text.push_str(edit_text(alloc, answer)?.as_str()).ok()?;
    }
    let end = match builder.finish() {
        Ok(body) => body_text(alloc, &body)?,
        Err(EditFault::NoSuch) => String::from_str(alloc, "unfinished").ok()?,
        Err(_) => return None,
    };
    text.push_str(end.as_str()).ok()?;
    Some(text)
}
