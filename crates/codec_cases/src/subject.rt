//! The bytes that the last `decode` gave, and how they are read.
use crate::printing::fault_text;
use bytes::Bytes;
use kp_schema::Dir;
use std::alloc::Global;
use std::fmt::Write;
use tree_codec::{Body, Builder, DecodeFault, Primitive, append, decode, encode};
use wire_types::Writer;

#[derive(Drop)]
pub(crate) struct Subject {
    pub key: i16,
    pub version: i16,
    pub dir: Dir,
    pub bytes: Bytes,
}

impl Subject {
    /// A ListGroups request, which has no byte.
    pub(crate) fn none() -> Subject {
        Subject {
            key: 16,
            version: 0,
            dir: Dir::Request,
            bytes: Bytes::from_static(b""),
        }
    }

    fn decode(&self, alloc: Global) -> Result<Body, DecodeFault> {
        let bytes = self.bytes.clone()?;
        decode(alloc, self.key, self.version, self.dir, bytes)
    }

    pub(crate) fn body(&self, alloc: Global) -> Option<Body> {
        self.decode(alloc).ok()
    }

    /// The place of each item, or the fault.
    pub(crate) fn decoded(&self, alloc: Global) -> Option<String> {
        match self.decode(alloc) {
            Ok(body) if self.comes_back(alloc, &body)? => places_text(alloc, &body),
            Ok(_) => String::from_str(alloc, "spelled otherwise").ok(),
            Err(fault) => fault_text(alloc, fault),
        }
    }

    // Whether the bytes are spelled again: alone, behind another byte, and by a body that is built of the items.
    fn comes_back(&self, alloc: Global, body: &Body) -> Option<bool> {
        let bytes = self.bytes.as_slice();
        let encoded = encode(alloc, body, bytes.len() as u64).ok()?;
        let mut out = Writer::new(alloc);
        out.put_i8(7).ok()?;
        append(&mut out, body).ok()?;
        let mut builder = Builder::new(alloc, self.key, self.version, self.dir);
        for item in body.items() {
            builder.push(item.share().ok()?).ok()?;
        }
        let built = builder.finish().ok()?;
        let pushed = encode(alloc, &built, bytes.len() as u64).ok()?;
        Some(
            encoded.as_slice() == bytes
                && out.as_slice().get(1..) == Some(bytes)
                && pushed.as_slice() == bytes,
        )
    }

    /// The same with other bytes at a place.
    pub(crate) fn with(&self, alloc: Global, at: usize, other: &[u8]) -> Option<Subject> {
        let bytes = self.bytes.as_slice();
        let mut changed = Vec::from_slice(alloc, bytes.get(..at)?).ok()?;
        changed.extend_from_slice(other).ok()?;
        if let Some(others) = bytes.get(changed.len()..) {
            changed.extend_from_slice(others).ok()?;
        }
        Some(self.over(Bytes::from_vec(changed).ok()?))
    }

    fn over(&self, bytes: Bytes) -> Subject {
        Subject {
            key: self.key,
            version: self.version,
            dir: self.dir,
            bytes,
        }
    }

    /// The place at which each proper front goes wrong, the shortest first.
    pub(crate) fn fronts(&self, alloc: Global) -> Option<String> {
        let mut text = String::from_str(alloc, "wrong-at").ok()?;
        for size in 0..self.bytes.len() {
            let front = Bytes::copy_from_slice(alloc, self.bytes.as_slice().get(..size)?).ok()?;
            match self.over(front).decode(alloc) {
                Err(DecodeFault::NotSpelled { at }) => write!(text, " {at}").ok()?,
                _ => text.push_str(" elsewhere").ok()?,
            }
        }
        Some(text)
    }
}

fn places_text(alloc: Global, body: &Body) -> Option<String> {
    let mut text = String::from_str(alloc, "spelled").ok()?;
    let mut place = 0usize;
    for item in body.items() {
        write!(text, " {place}").ok()?;
        place = place.saturating_add(spelled_size(item));
    }
    Some(text)
}

// How many bytes spell an item ("Protocol Primitive Types").
fn spelled_size(item: &Primitive) -> usize {
    match item {
        Primitive::Int8(_) | Primitive::Boolean(_) => 1,
        Primitive::Int16(_) | Primitive::Text(None) => 2,
        Primitive::Int32(_) | Primitive::Binary(None) | Primitive::Count(_) => 4,
        Primitive::Int64(_) => 8,
        Primitive::Text(Some(text)) => text.len().saturating_add(2),
        Primitive::Binary(Some(found)) => found.len().saturating_add(4),
    }
}
