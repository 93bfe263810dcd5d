//! What is written of answers, if memory is there.
use std::alloc::Global;
use std::fmt::Write;
use tree_codec::{Body, DecodeFault, EditFault, Item, encode};

// So many equal bytes are written as one, with their count.
const RUN: usize = 16;

/// Bytes, as `bytes_in` reads them.
pub(crate) fn bytes_text(alloc: Global, bytes: &[u8]) -> Option<String> {
    let mut text = String::new(alloc);
    if bytes.is_empty() {
        text.push_str("-").ok()?;
    }
    for run in bytes.chunk_by(|one, next| one == next) {
        if run.len() >= RUN {
            write!(text, "+{:02x}*{}+", run[0], run.len()).ok()?;
        } else {
            text.push_str(hex::encode(alloc, run).ok()?.as_str()).ok()?;
        }
    }
    Some(text)
}

/// The bytes that spell a body.
pub(crate) fn body_text(alloc: Global, body: &Body) -> Option<String> {
    let bytes = encode(alloc, body, body.size()).ok()?;
    bytes_text(alloc, bytes.as_slice())
}

/// An item, as `item_in` reads it.
pub(crate) fn item_text(alloc: Global, item: &Item) -> Option<String> {
    let mut text = String::new(alloc);
    match item {
        Item::Number(number) => write!(text, "number:{number}").ok()?,
        Item::Flag(byte) => write!(text, "flag:{byte}").ok()?,
        Item::Text(None) => text.push_str("text:null").ok()?,
        Item::Text(Some(bytes)) => {
            let bytes = bytes_text(alloc, bytes.as_slice())?;
            write!(text, "text:{bytes}").ok()?;
        }
        Item::Entries(None) => text.push_str("entries:null").ok()?,
        Item::Entries(Some(count)) => write!(text, "entries:{count}").ok()?,
    }
    Some(text)
}

pub(crate) fn fault_text(alloc: Global, fault: DecodeFault) -> Option<String> {
    let mut text = String::new(alloc);
    match fault {
        DecodeFault::NotSpelled { at } => write!(text, "not-spelled {at}").ok()?,
        DecodeFault::TooManyEntries { at } => write!(text, "too-many-entries {at}").ok()?,
        DecodeFault::NoMemory => return None,
    }
    Some(text)
}

/// What a change answered, with a space behind it.
pub(crate) fn edit_text(alloc: Global, answer: Result<(), EditFault>) -> Option<String> {
    let mut text = String::new(alloc);
    match answer {
        Ok(()) => text.push_str("done ").ok()?,
        Err(EditFault::NoSuch) => text.push_str("no-such ").ok()?,
        Err(EditFault::WrongKind) => text.push_str("wrong-kind ").ok()?,
        Err(EditFault::OutOfRange { value }) => write!(text, "out-of-range:{value} ").ok()?,
        Err(EditFault::TooLong { length }) => write!(text, "too-long:{length} ").ok()?,
        Err(EditFault::NoMemory) => return None,
    }
    Some(text)
}
