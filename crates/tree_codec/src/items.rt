//! Single items: which kind they are of, how long they are, and how others see them.
ghost use Rattle.std.specs.Prelude.{◌≡◌, length, Result, IfOk, IsOk, IsTrue};
ghost use Rattle.tree_spelling.specs.Primitives.{spelled, entries_of, IsInRange};
ghost use Rattle.tree_spelling.specs.Agenda.{is_kind};
ghost use Rattle.tree_spelling.specs.Items.{as_item, item_of_kind, with_length};

use bytes::Bytes;
use kp_schema::Kind;
use tree_spelling::{EditFault, Item, Primitive};
use wire_types::NoMemory;

// The greatest lengths that an INT16 and an INT32 say.
const MAX_TEXT: usize = 32767;

const MAX_LENGTH: usize = 2147483647;

/// Whether an item is of this kind.
pub(crate) fn is_kind(kind: Kind, item: &Primitive) -> bool
    ensures { result ≡ is_kind kind item.now }
{
    match item {
        Primitive::Int8(_) => kind == Kind::I8,
        Primitive::Int16(_) => kind == Kind::I16,
        Primitive::Int32(_) => kind == Kind::I32,
        Primitive::Int64(_) => kind == Kind::I64,
        Primitive::Boolean(_) => kind == Kind::Bool,
        Primitive::Text(_) => kind == Kind::Str,
        Primitive::Binary(_) => kind == Kind::Bytes,
        Primitive::Count(_) => kind == Kind::Array,
    }
}

/// How many bytes spell an item.
pub(crate) fn spelled_len(item: &Primitive) -> u64
    ensures { result ≡ length (spelled item.now) }
{
    match item {
        Primitive::Int8(_) | Primitive::Boolean(_) => 1,
        Primitive::Int16(_) | Primitive::Text(None) => 2,
        Primitive::Int32(_) | Primitive::Binary(None) | Primitive::Count(_) => 4,
        Primitive::Int64(_) => 8,
        Primitive::Text(Some(bytes)) => 2 + bytes.len() as u64,
        Primitive::Binary(Some(bytes)) => 4 + bytes.len() as u64,
    }
}

/// The item of a field of this kind.
pub(crate) fn item_of_kind(kind: Kind, item: Item) -> Result<Primitive, EditFault>
    ensures value { result ≡ item_of_kind kind item }
    ensures kind { IfOk result (λ made. IsTrue (is_kind kind made)) }
    ensures fits { IfOk result IsInRange }
{
    match (kind, item) {
        (Kind::I8, Item::Number(number)) => int8(number),
        (Kind::I16, Item::Number(number)) => int16(number),
        (Kind::I32, Item::Number(number)) => int32(number),
        (Kind::I64, Item::Number(number)) => Ok(Primitive::Int64(number)),
        (Kind::Bool, Item::Flag(byte)) => Ok(Primitive::Boolean(byte)),
        (Kind::Str, Item::Text(text)) => string(text),
        (Kind::Bytes, Item::Text(found)) => byte_string(found),
        (Kind::Array, Item::Entries(entries)) => array_count(entries),
        _ => Err(EditFault::WrongKind),
    }
}

fn int8(number: i64) -> Result<Primitive, EditFault>
    ensures value { result ≡ item_of_kind Kind.I8 (Item.Number number) }
    ensures kind { IfOk result (λ made. IsTrue (is_kind Kind.I8 made)) }
    ensures fits { IfOk result IsInRange }
{
    if number < -128 || number > 127 {
        return Err(EditFault::OutOfRange { value: number });
    }
    Ok(Primitive::Int8(number as i8))
}

fn int16(number: i64) -> Result<Primitive, EditFault>
    ensures value { result ≡ item_of_kind Kind.I16 (Item.Number number) }
    ensures kind { IfOk result (λ made. IsTrue (is_kind Kind.I16 made)) }
    ensures fits { IfOk result IsInRange }
{
    if number < -32768 || number > 32767 {
        return Err(EditFault::OutOfRange { value: number });
    }
    Ok(Primitive::Int16(number as i16))
}

fn int32(number: i64) -> Result<Primitive, EditFault>
    ensures value { result ≡ item_of_kind Kind.I32 (Item.Number number) }
    ensures kind { IfOk result (λ made. IsTrue (is_kind Kind.I32 made)) }
    ensures fits { IfOk result IsInRange }
{
    if number < -2147483648 || number > 2147483647 {
        return Err(EditFault::OutOfRange { value: number });
    }
    Ok(Primitive::Int32(number as i32))
}

fn string(text: Option<Bytes>) -> Result<Primitive, EditFault>
    ensures value { result ≡ item_of_kind Kind.Str (Item.Text text) }
    ensures kind { IfOk result (λ made. IsTrue (is_kind Kind.Str made)) }
    ensures fits { IfOk result IsInRange }
{
    if let Some(bytes) = &text
        && bytes.len() > MAX_TEXT
    {
        return Err(EditFault::TooLong {
            length: bytes.len() as u64,
        });
    }
    Ok(Primitive::Text(text))
}

fn byte_string(found: Option<Bytes>) -> Result<Primitive, EditFault>
    ensures value { result ≡ item_of_kind Kind.Bytes (Item.Text found) }
    ensures kind { IfOk result (λ made. IsTrue (is_kind Kind.Bytes made)) }
    ensures fits { IfOk result IsInRange }
{
    if let Some(bytes) = &found
        && bytes.len() > MAX_LENGTH
    {
        return Err(EditFault::TooLong {
            length: bytes.len() as u64,
        });
    }
    Ok(Primitive::Binary(found))
}

fn array_count(entries: Option<u32>) -> Result<Primitive, EditFault>
    ensures value { result ≡ item_of_kind Kind.Array (Item.Entries entries) }
    ensures kind { IfOk result (λ made. IsTrue (is_kind Kind.Array made)) }
    ensures fits { IfOk result IsInRange }
{
    match entries {
        Some(count) if count > 2147483647 => Err(EditFault::TooLong {
            length: u64::from(count),
        }),
        _ => Ok(Primitive::Count(entries)),
    }
}

/// An item without its type.
pub(crate) fn as_item(item: &Primitive) -> Result<Item, NoMemory>
    ensures { IfOk result (λ seen. seen ≡ as_item item.now) }
{
    Ok(match item {
        Primitive::Int8(number) => Item::Number(i64::from(*number)),
        Primitive::Int16(number) => Item::Number(i64::from(*number)),
        Primitive::Int32(number) => Item::Number(i64::from(*number)),
        Primitive::Int64(number) => Item::Number(*number),
        Primitive::Boolean(byte) => Item::Flag(*byte),
        Primitive::Text(bytes) => Item::Text(shared(bytes)?),
        Primitive::Binary(bytes) => Item::Text(shared(bytes)?),
        Primitive::Count(entries) => Item::Entries(*entries),
    })
}

// The same bytes, none of them copied.
fn shared(bytes: &Option<Bytes>) -> Result<Option<Bytes>, NoMemory>
    ensures { IfOk result (λ same. same ≡ bytes.now) }
{
    match bytes {
        Some(bytes) => Ok(Some(bytes.clone()?)),
        None => Ok(None),
    }
}

/// How many entries an item brings.
pub(crate) fn entries_of(item: &Primitive) -> u32
    ensures { result ≡ entries_of item.now }
{
    match item {
        Primitive::Count(Some(entries)) => *entries,
        _ => 0,
    }
}

/// The item itself, if its length, or its count, is one that can be said.
pub(crate) fn with_length(item: Primitive) -> Result<Primitive, EditFault>
    ensures value { result ≡ with_length item }
    ensures same { IfOk result (λ same. same ≡ item) }
    ensures fits { IfOk result IsInRange }
    ensures err { IsInRange item → IsOk result }
{
    match item {
        Primitive::Int8(number) => Ok(Primitive::Int8(number)),
        Primitive::Int16(number) => Ok(Primitive::Int16(number)),
        Primitive::Int32(number) => Ok(Primitive::Int32(number)),
        Primitive::Int64(number) => Ok(Primitive::Int64(number)),
        Primitive::Boolean(byte) => Ok(Primitive::Boolean(byte)),
        Primitive::Text(text) => string(text),
        Primitive::Binary(found) => byte_string(found),
        Primitive::Count(entries) => array_count(entries),
    }
}
