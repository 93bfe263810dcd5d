use crate::cursor::Cursor;
use crate::entry::Entry;
use crate::writer::Writer;
use bytes::Bytes;
use std::alloc::Global;
use wire_types::NoMemory;

/// An entry of an array of STRING.
#[derive(Debug, Drop)]
pub struct Name {
    pub it: Option<Bytes>,
}

impl Entry for Name {
    ghost use Rattle.views.specs.Entries.{name_format, name_fields};

    ghost format = { name_format };

    ghost fields = { name_fields };

    fn read(alloc: Global, version: i16, cursor: &mut Cursor) -> Result<Self, NoMemory> {
        let _ = (alloc, version);
        Ok(Name { it: cursor.text()? })
    }

    fn write(&self, version: &i16, writer: &mut Writer) -> Result<(), NoMemory> {
        let _ = version;
        writer.text(&self.it)
    }
}
