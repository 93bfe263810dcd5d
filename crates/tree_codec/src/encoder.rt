ghost use Rattle.std.specs.Prelude.{◌≡◌, ◌<◌, ◌↔◌, ◌++◌, ℕ, length, IsErrOf, IfOk, OnOk, OnErr};
ghost use Rattle.tree_spelling.specs.Primitives.{spelled, IsInRange};
ghost use Rattle.tree_spelling.specs.Spelling.{spelling, AreInRange};
ghost use Rattle.tree_codec.specs.Encoding.{HasFrontWritten};

use crate::body::Body;
use crate::encode_fault::EncodeFault;
use bytes::Bytes;
use std::alloc::Global;
use tree_spelling::Primitive;
use wire_types::{NoMemory, Writer};

/// The bytes that spell the body, if they are `most` at most. That is found before any memory is
/// taken.
pub fn encode(alloc: Global, body: &Body, most: u64) -> Result<Bytes, EncodeFault>
    ensures ok { IfOk result (λ bytes. bytes ≡ spelling body.now.items) }
    ensures grown { (size : ℕ) → IsErrOf result (EncodeFault.GrownPast size)
        ↔ ((size ≡ length (spelling body.now.items)) × (most < size)) }
{
    let size = body.size();
    if size > most {
        return Err(EncodeFault::GrownPast { size });
    }
    Ok(spell(alloc, body, size)?)
}

fn spell(alloc: Global, body: &Body, size: u64) -> Result<Bytes, NoMemory>
    ensures { IfOk result (λ bytes. bytes ≡ spelling body.now.items) }
{
    let mut out = Writer::with_capacity(alloc, size as usize)?;
    append(&mut out, body)?;
    out.finish()
}

/// Writes the bytes that spell the body behind those that are there. Where memory is wanting, some of them may
/// stand there.
pub fn append(out: &mut Writer, body: &Body) -> Result<(), NoMemory>
    ensures ok { OnOk result (out.new ≡ out.old ++ spelling body.now.items) }
    ensures err { OnErr result (HasFrontWritten out.old out.new (spelling body.now.items)) }
{
    body.is_tree();
    write_items(out, body.items())
}

#[tactic(auto, using(crate::proofs::Fronts::front_written))]
fn write_items(out: &mut Writer, items: &[Primitive]) -> Result<(), NoMemory>
    requires { AreInRange items.now }
    ensures ok { OnOk result (out.new ≡ out.old ++ spelling items.now) }
    ensures err { OnErr result (HasFrontWritten out.old out.new (spelling items.now)) }
{
    for item in items {
        write_item(out, item)?;
    }
    Ok(())
}

fn write_item(out: &mut Writer, item: &Primitive) -> Result<(), NoMemory>
    requires { IsInRange item.now }
    ensures ok { OnOk result (out.new ≡ out.old ++ spelled item.now) }
    ensures err { OnErr result (out.new ≡ out.old) }
{
    let put = match item {
        Primitive::Int8(number) => out.put_i8(*number),
        Primitive::Int16(number) => out.put_i16(*number),
        Primitive::Int32(number) => out.put_i32(*number),
        Primitive::Int64(number) => out.put_i64(*number),
        Primitive::Boolean(byte) => out.put_i8(byte.cast_signed()),
        Primitive::Text(text) => out.put_string(text.as_ref().map(|bytes| bytes.as_slice())),
        Primitive::Binary(found) => out.put_bytes(found.as_ref().map(|bytes| bytes.as_slice())),
        Primitive::Count(entries) => out.put_count(*entries),
    };
    put.map_err(|_| NoMemory)
}
