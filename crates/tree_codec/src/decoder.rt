ghost use Rattle.std.specs.Prelude.{◌≡◌, IfOk, IfErr, MatchResult};
ghost use Rattle.tree_spelling.specs.Shape.{nest, message_shape};
ghost use Rattle.tree_spelling.specs.Value.{Value};
ghost use Rattle.tree_spelling.specs.Spelling.{IsSpelledBy};
ghost use Rattle.tree_spelling.specs.Body.{IsReadFrom};
ghost use Rattle.tree_spelling.specs.Decoded.{decoded, AllItems};
ghost use Rattle.tree_codec.specs.Faults.{IsFaultOf, IsNoMemory};
ghost use Rattle.tree_codec.specs.Decoding.{AreItemsOf, HasFault};

use crate::body::Body;
use crate::decode_fault::DecodeFault;
use crate::item_reader::ItemReader;
use crate::message::Message;
use crate::message_fields::message_fields;
use bytes::Bytes;
use kp_schema::{Dir, Field};
use std::alloc::Global;
use tree_spelling::Primitive;

/// The body that the bytes spell, all of them ("Protocol Primitive Types", and the message's fields in
/// "The Messages").
///
/// A message that isn't read has no fields, so no byte spells it. Texts, and lists of bytes, are parts of
/// `bytes`. Memory is taken for items that were read, never
/// for what a count says.
pub fn decode(
    alloc: Global,
    key: i16,
    version: i16,
    dir: Dir,
    bytes: Bytes,
) -> Result<Body, DecodeFault>
    // What is read is the value within the limit of entries that the bytes spell.
    ensures ok { IfOk result (λ body. IsReadFrom key version dir bytes body) }

    // What is spelled is read. Else the fault is that of the bytes, at their bad place.
    ensures spelled_is_read { (value : Value (message_shape key version dir))
        → IsSpelledBy (message_shape key version dir) value bytes → IfErr result IsNoMemory }
    ensures err { IfErr result (IsFaultOf (message_shape key version dir) bytes) }

    // As a function of the bytes: the body has the items that they are decoded to, or they have that fault.
    ensures decoded { MatchResult result (λ body. decoded (message_shape key version dir) bytes ≡ AllItems body.items)
        (HasFault (decoded (message_shape key version dir) bytes)) }
{
    let message = Message { key, version, dir };
    let items = read_items(alloc, message_fields(message), bytes.as_slice(), &bytes)?;
    Ok(Body {
        alloc,
        message,
        items,
        size: bytes.len() as u64,
    })
}

// The items of the value that the bytes spell. Their texts are parts of the frame.
fn read_items(
    alloc: Global,
    fields: &'static [Field],
    bytes: &[u8],
    frame: &Bytes,
) -> Result<Vec<Primitive>, DecodeFault>
    requires { frame.now ≡ bytes.now }
    ensures ok { IfOk result (λ items. AreItemsOf (nest fields.now 0) bytes.now items.items) }
    ensures err { IfErr result (IsFaultOf (nest fields.now 0) bytes.now) }
    ensures decoded { MatchResult result (λ items. decoded (nest fields.now 0) bytes.now ≡ AllItems items.items)
        (HasFault (decoded (nest fields.now 0) bytes.now)) }
{
    let mut reader = ItemReader::new(alloc, fields, bytes);
    let mut items = Vec::new(alloc);
    while let Some(found) = reader.next()? {
        items.push(found.keep(frame, reader.at())?)?;
    }
    Ok(items)
}
