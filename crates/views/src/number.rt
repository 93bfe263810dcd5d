use crate::cursor::Cursor;
use crate::entry::Entry;
use crate::writer::Writer;
use std::alloc::Global;
use wire_types::NoMemory;

/// An entry of an array of INT32.
#[derive(Debug, Drop)]
pub struct Number {
    pub it: i32,
}

impl Entry for Number {
    ghost use Rattle.views.specs.Entries.{number_format, number_fields};

    ghost format = { number_format };

    ghost fields = { number_fields };

    fn read(alloc: Global, version: i16, cursor: &mut Cursor) -> Result<Self, NoMemory> {
        let _ = (alloc, version);
        Ok(Number {
            it: cursor.int32()?,
        })
    }

    fn write(&self, version: &i16, writer: &mut Writer) -> Result<(), NoMemory> {
        let _ = version;
        writer.int32(&self.it)
    }
}
