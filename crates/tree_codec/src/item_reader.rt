ghost use Rattle.std.specs.Prelude.{◌≡◌, ◌≤◌, ℕ, List, [], ◌∷◌, length, ◌++◌, IfOk, IfErr, IfSome, MatchOption};
ghost use Rattle.wire_types.specs.Reading.{Reads};
ghost use Rattle.tree_spelling.specs.declared.primitive.Primitive.{Primitive};
ghost use Rattle.tree_spelling.specs.Shape.{Shape, nest};
ghost use Rattle.tree_spelling.specs.Primitives.{spelled};
ghost use Rattle.tree_codec.specs.Faults.{IsFaultOf};
ghost use Rattle.tree_codec.specs.Found.{primitive_of};
ghost use Rattle.tree_codec.specs.Decoding.{AreItemsOf, IsReaderOf};

use crate::agenda::Agenda;
use crate::decode_fault::DecodeFault;
use crate::found::Found;
use crate::read::read_item;
use kp_schema::Field;
use std::alloc::Global;
use wire_types::Reader;

// How many array entries a body may have in all.
const MAX_ENTRIES: u32 = 8388608;

/// A body that is read item by item.
#[derive(Drop)]
pub(crate) struct ItemReader<'a> {
    reader: Reader<'a>,
    /// The fields that are still to come.
    agenda: Agenda,
    /// How many entries the counts before say.
    entries: u32,
}

impl<'a> ItemReader<'a> {
    /// Before the first item of bytes with these fields.
    pub(crate) fn new(alloc: Global, fields: &'static [Field], bytes: &'a [u8]) -> ItemReader<'a>
        ensures { IsReaderOf (nest fields.now 0) bytes.now [] result }
    {
        ItemReader {
            reader: Reader::new(bytes),
            agenda: Agenda::new(alloc, fields, 0, 1),
            entries: 0,
        }
    }

    /// The place behind the last item.
    pub(crate) fn at(&self) -> usize
        ensures at { result ≡ self.now.reader.at }
        ensures within { result ≤ length self.now.reader.bytes }
    {
        self.reader.at()
    }

    /// The next item. At the end all bytes are read, and the items are those of a value that they spell.
    pub(crate) fn next(&mut self) -> Result<Option<Found<'a>>, DecodeFault>
        ensures reads { IfOk result (λ next. IfSome next (λ found.
            Reads self.old.reader (spelled (primitive_of found)) self.new.reader)) }
        ensures ok { (shape : Shape) (bytes : List ℕ) (items : List Primitive)
            → IsReaderOf shape bytes items self.old
            → IfOk result (λ next. MatchOption next (AreItemsOf shape bytes items)
            (λ found. IsReaderOf shape bytes (items ++ primitive_of found ∷ []) self.new)) }
        ensures err { (shape : Shape) (bytes : List ℕ) (items : List Primitive)
            → IsReaderOf shape bytes items self.old → IfErr result (IsFaultOf shape bytes) }
    {
        let at = self.reader.at();
        let Some(kind) = self.agenda.kind() else {
            return match self.reader.left() {
                0 => Ok(None),
                _ => Err(DecodeFault::NotSpelled { at }),
            };
        };
        let found = read_item(kind, &mut self.reader)?;
        match self.entries.checked_add(found.entries()) {
            Some(entries) if entries <= MAX_ENTRIES => self.entries = entries,
            _ => return Err(DecodeFault::TooManyEntries { at }),
        }
        self.agenda.pass(found.entries())?;
        Ok(Some(found))
    }
}
