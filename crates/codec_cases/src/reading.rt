//! The words of a line, or none where a word can't be read.
use bytes::Bytes;
use kp_schema::Dir;
use std::alloc::Global;
use tree_codec::Item;

// The most bytes that a word stands for, so that a wrong count takes no memory.
const MOST_BYTES: usize = 16_777_216;

pub(crate) fn direction_in(word: &str) -> Option<Dir> {
    match word {
        "request" => Some(Dir::Request),
        "response" => Some(Dir::Response),
        _ => None,
    }
}

/// Two hexadecimal digits a byte; `+00*20+` for a byte that comes 20 times; `-` for no byte.
pub(crate) fn bytes_in(alloc: Global, word: &str) -> Option<Bytes> {
    let mut bytes = Vec::new(alloc);
    if word != "-" {
        for part in word.split('+') {
            let (digits, count) = part.split_once('*').unwrap_or((part, "1"));
            let found = hex::decode(alloc, digits.as_bytes()).ok()?;
            put_many(&mut bytes, found.as_slice(), count.parse().ok()?)?;
        }
    }
    Bytes::from_vec(bytes).ok()
}

fn put_many(bytes: &mut Vec<u8>, found: &[u8], count: usize) -> Option<()> {
    if count > MOST_BYTES {
        return None;
    }
    for _ in 0..count {
        bytes.extend_from_slice(found).ok()?;
    }
    Some(())
}

/// Numbers joined by dots; `-` for no number.
pub(crate) fn path_in(alloc: Global, word: &str) -> Option<Vec<u32>> {
    let mut path = Vec::new(alloc);
    if word != "-" {
        for number in word.split('.') {
            path.push(number.parse().ok()?).ok()?;
        }
    }
    Some(path)
}

/// A digit each: 1 for an entry that stays, 0 for one that goes; `-` for no flag.
pub(crate) fn flags_in(alloc: Global, word: &str) -> Option<Vec<bool>> {
    let mut flags = Vec::new(alloc);
    if word != "-" {
        for digit in word.as_bytes() {
            if !matches!(digit, b'0' | b'1') {
                return None;
            }
            flags.push(*digit == b'1').ok()?;
        }
    }
    Some(flags)
}

/// `number:5`, `flag:1`, `text:6d`, `text:null`, `entries:3` or `entries:null`.
pub(crate) fn item_in(alloc: Global, word: &str) -> Option<Item> {
    match word.split_once(':')? {
        ("number", number) => Some(Item::Number(number.parse().ok()?)),
        ("flag", byte) => Some(Item::Flag(byte.parse().ok()?)),
        ("text", "null") => Some(Item::Text(None)),
        ("text", bytes) => Some(Item::Text(Some(bytes_in(alloc, bytes)?))),
        ("entries", "null") => Some(Item::Entries(None)),
        ("entries", count) => Some(Item::Entries(Some(count.parse().ok()?))),
        _ => None,
    }
}
