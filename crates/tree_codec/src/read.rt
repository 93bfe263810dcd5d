ghost use Rattle.std.specs.Prelude.{◌≡◌, IfOk, IfErr, IsTrue};
ghost use Rattle.wire_types.specs.Reading.{Reads, unread, place_of};
ghost use Rattle.tree_spelling.specs.Primitives.{spelled, IsInRange};
ghost use Rattle.tree_spelling.specs.Agenda.{is_kind};
ghost use Rattle.tree_codec.specs.Faults.{NoneIsSpelled};
ghost use Rattle.tree_codec.specs.Found.{primitive_of};

use crate::found::Found;
use kp_schema::Kind;
use wire_types::{ReadFault, Reader};

/// Reads an item of this kind.
pub(crate) fn read_item<'a>(kind: Kind, reader: &mut Reader<'a>) -> Result<Found<'a>, ReadFault>
    ensures kind { IfOk result (λ found. IsTrue (is_kind kind (primitive_of found))) }
    ensures fits { IfOk result (λ found. IsInRange (primitive_of found)) }
    ensures ok { IfOk result (λ found. Reads reader.old (spelled (primitive_of found)) reader.new) }
    ensures place { IfErr result (λ fault. place_of fault ≡ reader.old.at) }
    ensures none { IfErr result (λ _. NoneIsSpelled kind (unread reader.old)) }
{
    Ok(match kind {
        Kind::I8 => Found::Int8(reader.i8()?),
        Kind::I16 => Found::Int16(reader.i16()?),
        Kind::I32 => Found::Int32(reader.i32()?),
        Kind::I64 => Found::Int64(reader.i64()?),
        Kind::Bool => Found::Boolean(reader.i8()?.cast_unsigned()),
        Kind::Str => Found::Text(reader.string()?),
        Kind::Bytes => Found::Binary(reader.bytes()?),
        Kind::Array => Found::Count(reader.count()?),
    })
}
