ghost use Rattle.std.specs.Prelude.{◌≡◌, ◌≤◌, length, slice_range, IfOk, ◌-◌};
ghost use Rattle.tree_spelling.specs.Primitives.{entries_of};
ghost use Rattle.tree_codec.specs.Found.{primitive_of, EndsAtPlace};

use bytes::Bytes;
use std::alloc::AllocError;
use tree_spelling::Primitive;

/// One item of a body as it was found in the bytes: a text is still a part of them.
#[derive(Clone, Copy, Drop)]
pub(crate) enum Found<'a> {
    Int8(i8),
    Int16(i16),
    Int32(i32),
    Int64(i64),
    Boolean(u8),
    Text(Option<&'a [u8]>),
    Binary(Option<&'a [u8]>),
    Count(Option<u32>),
}

impl<'a> Found<'a> {
    /// How many entries it brings.
    pub(crate) fn entries(self) -> u32
        ensures { result ≡ entries_of (primitive_of self.entry) }
    {
        match self {
            Found::Count(Some(entries)) => entries,
            _ => 0,
        }
    }

    /// The item that ends at this place of a frame. No byte is copied.
    pub(crate) fn keep(self, frame: &Bytes, end: usize) -> Result<Primitive, AllocError>
        requires { EndsAtPlace frame.now end self }
        ensures { IfOk result (λ item. item ≡ primitive_of self.entry) }
    {
        Ok(match self {
            Found::Int8(number) => Primitive::Int8(number),
            Found::Int16(number) => Primitive::Int16(number),
            Found::Int32(number) => Primitive::Int32(number),
            Found::Int64(number) => Primitive::Int64(number),
            Found::Boolean(byte) => Primitive::Boolean(byte),
            Found::Text(None) => Primitive::Text(None),
            Found::Text(Some(text)) => Primitive::Text(Some(part_before(frame, end, text)?)),
            Found::Binary(None) => Primitive::Binary(None),
            Found::Binary(Some(found)) => Primitive::Binary(Some(part_before(frame, end, found)?)),
            Found::Count(entries) => Primitive::Count(entries),
        })
    }
}

// The part of a frame that ends at a place, and has these bytes.
fn part_before(frame: &Bytes, end: usize, part: &[u8]) -> Result<Bytes, AllocError>
    requires begin { length part.now ≤ end }
    requires end { end ≤ length frame.now }
    requires same { slice_range frame.now (end - length part.now) end ≡ part.now }
    ensures { IfOk result (λ kept. kept ≡ part.now) }
{
    frame.slice(end - part.len()..end)
}
