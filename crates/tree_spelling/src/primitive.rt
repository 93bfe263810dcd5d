ghost use Rattle.std.specs.Prelude.{◌≡◌, IfOk};

use bytes::Bytes;
use wire_types::NoMemory;

/// One item of a body, with the type in which it is spelled ("Protocol Primitive Types").
///
/// A text, and a list of bytes, is a part of the frame that it was read from: no byte is copied.
/// `None` is null.
#[derive(Debug, PartialEq, Eq, Drop)]
pub enum Primitive {
    Int8(i8),
    Int16(i16),
    Int32(i32),
    Int64(i64),
    /// The byte as it came: any but 0 is true.
    Boolean(u8),
    /// STRING. Whether it is UTF-8 isn't looked at.
    Text(Option<Bytes>),
    /// BYTES or RECORDS.
    Binary(Option<Bytes>),
    /// How many entries an ARRAY has, which stand behind it.
    Count(Option<u32>),
}

impl Primitive {
    /// The same item. No byte is copied.
    pub fn share(&self) -> Result<Primitive, NoMemory>
        ensures { IfOk result (λ same. same ≡ self.now) }
    {
        Ok(match self {
            Primitive::Int8(number) => Primitive::Int8(*number),
            Primitive::Int16(number) => Primitive::Int16(*number),
            Primitive::Int32(number) => Primitive::Int32(*number),
            Primitive::Int64(number) => Primitive::Int64(*number),
            Primitive::Boolean(byte) => Primitive::Boolean(*byte),
            Primitive::Text(bytes) => Primitive::Text(share(bytes)?),
            Primitive::Binary(bytes) => Primitive::Binary(share(bytes)?),
            Primitive::Count(entries) => Primitive::Count(*entries),
        })
    }
}

fn share(bytes: &Option<Bytes>) -> Result<Option<Bytes>, NoMemory>
    ensures { IfOk result (λ same. same ≡ bytes.now) }
{
    match bytes {
        Some(bytes) => Ok(Some(bytes.clone()?)),
        None => Ok(None),
    }
}
