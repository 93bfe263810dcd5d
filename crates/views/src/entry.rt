ghost use Rattle.std.specs.Prelude.{◌≡◌, IfOk, OnOk};
ghost use Rattle.views.specs.Format.{Format, Fields};
ghost use Rattle.views.specs.Reading.{items_before};
ghost use Rattle.views.specs.Fitting.{FitVersion};
ghost use Rattle.views.specs.Writing.{put_fields};

use crate::cursor::Cursor;
use crate::writer::Writer;
use std::alloc::Global;
use wire_types::NoMemory;

/// What stands in an array: a struct with the fields of an entry.
pub trait Entry: Drop {
    /// Its fields, and the versions that have them.
    ghost format: { Format };

    /// The values of the fields.
    ghost fields: { Self → Fields format };

    /// Reads an entry of this version of its message.
    fn read(alloc: Global, version: i16, cursor: &mut Cursor) -> Result<Self, NoMemory>
        ensures items { IfOk result (λ entry. cursor.old ≡ items_before format (fields entry) cursor.new) }
        ensures fit { IfOk result (λ entry. FitVersion format version (fields entry)) };

    /// Puts the entry's fields.
    fn write(&self, version: &i16, writer: &mut Writer) -> Result<(), NoMemory>
        ensures { OnOk result (writer.new ≡ put_fields format version.now (fields self.now) writer.old) };
}
