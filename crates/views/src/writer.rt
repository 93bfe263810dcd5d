//! A body that is made of a view.
#![tactic(auto, unfolding(crate::specs::Fitting::is_same, crate::specs::Writing::put_item, crate::specs::Writing::placed_field, crate::specs::Writing::put_if_given, crate::specs::Writing::put_array, crate::specs::Writing::put_field_in))]

ghost use Rattle.std.specs.Prelude.{◌≡◌, pos, [], ◌∷◌, length, map, option_map, Option, Some, None, false, IfOk, IfErr, OnOk};
ghost use Rattle.tree_spelling.specs.declared.primitive.Primitive.TheVariants as items;
ghost use Rattle.views.specs.Fitting.{is_same, is_wanted};
ghost use Rattle.views.specs.Lengths.{excess};
ghost use Rattle.views.specs.Drafts.{IsDraftFault};
ghost use Rattle.views.specs.Writing.{Begun, put_item, put_field_in, put_array, put_entries, put_fields, placed_field};

use crate::cursor::has_field;
use crate::entries::Entries;
use crate::entry::Entry;
use crate::view_fault::ViewFault;
use bytes::Bytes;
use kp_schema::Dir;
use std::alloc::Global;
use std::marker::Model;
use tree_codec::{Body, Builder};
use tree_spelling::Primitive;
use wire_types::NoMemory;

const MAX_TEXT: usize = 32767;

const MAX_LENGTH: usize = 2147483647;

/// What is wrong with the view.
#[derive(Clone, Copy, Drop)]
pub(crate) enum Flaw {
    None,
    TooLong(u64),
    Misplaced(u16),
}

/// A body that is made of a view, field by field.
///
/// Each call puts the next item. With `_in` behind its name it puts the field with the number `field`, which the versions
/// from `first` to `last` have and no others, and remembers the least number of a field that doesn't fit. A length that
/// can't be said is remembered too.
#[derive(Drop)]
pub struct Writer {
    pub(crate) builder: Builder,
    pub(crate) flaw: Flaw,
}

impl Model for Writer {
    ghost use Rattle.views.specs.Writing.{Draft};
    ghost use Rattle.views.specs.Drafts.{draft_of};

    ghost Value = { Draft };

    ghost view = { λ writer. draft_of writer.builder writer.flaw };
}

impl Writer {
    pub(crate) fn new(alloc: Global, key: i16, version: i16, dir: Dir) -> Writer
        ensures { result ≡ Begun (record { key = key; version = version; dir = dir; items = [] }) }
    {
        Writer {
            builder: Builder::new(alloc, key, version, dir),
            flaw: Flaw::None,
        }
    }

    // An item that is short enough.
    fn put(&mut self, item: Primitive) -> Result<(), NoMemory>
        requires { excess item ≡ None }
        ensures { OnOk result (self.new ≡ put_item item self.old) }
    {
        match self.flaw {
            Flaw::None => self.builder.push(item).map_err(|_| NoMemory),
            _ => Ok(()),
        }
    }

    // An item whose length can't be said.
    fn exceed(&mut self, length: usize)
        ensures { (item : Primitive) → excess item ≡ Some length → self.new ≡ put_item item self.old }
    {
        match self.flaw {
            Flaw::None => self.flaw = Flaw::TooLong(length as u64),
            _ => {}
        }
    }

    /// INT8.
    pub fn int8(&mut self, number: &i8) -> Result<(), NoMemory>
        ensures { OnOk result (self.new ≡ put_item (items.Int8 number.now) self.old) }
    {
        self.put(Primitive::Int8(*number))
    }

    /// INT16.
    pub fn int16(&mut self, number: &i16) -> Result<(), NoMemory>
        ensures { OnOk result (self.new ≡ put_item (items.Int16 number.now) self.old) }
    {
        self.put(Primitive::Int16(*number))
    }

    /// INT32.
    pub fn int32(&mut self, number: &i32) -> Result<(), NoMemory>
        ensures { OnOk result (self.new ≡ put_item (items.Int32 number.now) self.old) }
    {
        self.put(Primitive::Int32(*number))
    }

    /// INT64.
    pub fn int64(&mut self, number: &i64) -> Result<(), NoMemory>
        ensures { OnOk result (self.new ≡ put_item (items.Int64 number.now) self.old) }
    {
        self.put(Primitive::Int64(*number))
    }

    /// BOOLEAN, as its byte.
    pub fn flag(&mut self, byte: &u8) -> Result<(), NoMemory>
        ensures { OnOk result (self.new ≡ put_item (items.Boolean byte.now) self.old) }
    {
        self.put(Primitive::Boolean(*byte))
    }

    /// STRING. No byte is copied.
    pub fn text(&mut self, text: &Option<Bytes>) -> Result<(), NoMemory>
        ensures { OnOk result (self.new ≡ put_item (items.Text text.now) self.old) }
    {
        match text {
            None => self.put(Primitive::Text(None)),
            Some(bytes) if bytes.len() > MAX_TEXT => {
                self.exceed(bytes.len());
                Ok(())
            }
            Some(bytes) => self.put(Primitive::Text(Some(bytes.clone()?))),
        }
    }

    /// BYTES or RECORDS. No byte is copied.
    pub fn binary(&mut self, binary: &Option<Bytes>) -> Result<(), NoMemory>
        ensures { OnOk result (self.new ≡ put_item (items.Binary binary.now) self.old) }
    {
        match binary {
            None => self.put(Primitive::Binary(None)),
            Some(bytes) if bytes.len() > MAX_LENGTH => {
                self.exceed(bytes.len());
                Ok(())
            }
            Some(bytes) => self.put(Primitive::Binary(Some(bytes.clone()?))),
        }
    }

    fn count(&mut self, count: usize) -> Result<(), NoMemory>
        ensures { OnOk result (self.new ≡ put_item (items.Count (Some count)) self.old) }
    {
        if count > MAX_LENGTH {
            self.exceed(count);
            return Ok(());
        }
        self.put(Primitive::Count(Some(count as u32)))
    }

    // The field with this number is given or not, and the version has it if it is one from `first` to `last`.
    fn place(&mut self, field: u16, is_given: bool, version: &i16, first: i16, last: i16)
        ensures { self.new ≡ placed_field field (is_same is_given (is_wanted first last version.now)) self.old }
    {
        if is_given != has_field(*version, first, last) {
            self.misplace(field);
        }
    }

    fn misplace(&mut self, field: u16)
        ensures { self.new ≡ placed_field field false self.old }
    {
        self.flaw = match self.flaw {
            Flaw::Misplaced(other) if other <= field => Flaw::Misplaced(other),
            _ => Flaw::Misplaced(field),
        };
    }

    /// INT8, where the version has it.
    pub fn int8_in(
        &mut self,
        field: u16,
        version: &i16,
        first: i16,
        last: i16,
        value: &Option<i8>,
    ) -> Result<(), NoMemory>
        ensures { OnOk result (self.new ≡ put_field_in (λ x. put_item (items.Int8 x)) field first last version.now value.now self.old) }
    {
        self.place(field, value.is_some(), version, first, last);
        match value {
            Some(value) => self.int8(value),
            None => Ok(()),
        }
    }

    /// INT16, where the version has it.
    pub fn int16_in(
        &mut self,
        field: u16,
        version: &i16,
        first: i16,
        last: i16,
        value: &Option<i16>,
    ) -> Result<(), NoMemory>
        ensures { OnOk result (self.new ≡ put_field_in (λ x. put_item (items.Int16 x)) field first last version.now value.now self.old) }
    {
        self.place(field, value.is_some(), version, first, last);
        match value {
            Some(value) => self.int16(value),
            None => Ok(()),
        }
    }

    /// INT32, where the version has it.
    pub fn int32_in(
        &mut self,
        field: u16,
        version: &i16,
        first: i16,
        last: i16,
        value: &Option<i32>,
    ) -> Result<(), NoMemory>
        ensures { OnOk result (self.new ≡ put_field_in (λ x. put_item (items.Int32 x)) field first last version.now value.now self.old) }
    {
        self.place(field, value.is_some(), version, first, last);
        match value {
            Some(value) => self.int32(value),
            None => Ok(()),
        }
    }

    /// INT64, where the version has it.
    pub fn int64_in(
        &mut self,
        field: u16,
        version: &i16,
        first: i16,
        last: i16,
        value: &Option<i64>,
    ) -> Result<(), NoMemory>
        ensures { OnOk result (self.new ≡ put_field_in (λ x. put_item (items.Int64 x)) field first last version.now value.now self.old) }
    {
        self.place(field, value.is_some(), version, first, last);
        match value {
            Some(value) => self.int64(value),
            None => Ok(()),
        }
    }

    /// BOOLEAN, where the version has it.
    pub fn flag_in(
        &mut self,
        field: u16,
        version: &i16,
        first: i16,
        last: i16,
        value: &Option<u8>,
    ) -> Result<(), NoMemory>
        ensures { OnOk result (self.new ≡ put_field_in (λ x. put_item (items.Boolean x)) field first last version.now value.now self.old) }
    {
        self.place(field, value.is_some(), version, first, last);
        match value {
            Some(value) => self.flag(value),
            None => Ok(()),
        }
    }

    /// STRING, where the version has it.
    pub fn text_in(
        &mut self,
        field: u16,
        version: &i16,
        first: i16,
        last: i16,
        value: &Option<Option<Bytes>>,
    ) -> Result<(), NoMemory>
        ensures { OnOk result (self.new ≡ put_field_in (λ x. put_item (items.Text x)) field first last version.now value.now self.old) }
    {
        self.place(field, value.is_some(), version, first, last);
        match value {
            Some(value) => self.text(value),
            None => Ok(()),
        }
    }

    /// ARRAY, entry by entry.
    pub fn array<E: Entry>(
        &mut self,
        version: &i16,
        entries: &Option<Entries<E>>,
    ) -> Result<(), NoMemory>
        ensures { OnOk result (self.new ≡ put_array (put_fields E.format version.now) (option_map (map E.fields) entries.now) self.old) }
    {
        match entries {
            Some(entries) => {
                self.count(entries.len())?;
                self.entries(version, entries.as_slice())
            }
            None => self.put(Primitive::Count(None)),
        }
    }

    /// ARRAY, where the version has it.
    pub fn array_in<E: Entry>(
        &mut self,
        field: u16,
        version: &i16,
        first: i16,
        last: i16,
        value: &Option<Option<Entries<E>>>,
    ) -> Result<(), NoMemory>
        ensures { OnOk result (self.new ≡ put_field_in (put_array (put_fields E.format version.now)) field first last version.now (option_map (option_map (map E.fields)) value.now) self.old) }
    {
        self.place(field, value.is_some(), version, first, last);
        match value {
            Some(value) => self.array(version, value),
            None => Ok(()),
        }
    }

    // The body, or the view's fault.
    pub(crate) fn finish(self) -> Result<Body, ViewFault>
        ensures ok { IfOk result (λ body. self ≡ Begun body) }
        ensures err { IfErr result (IsDraftFault self) }
    {
        match self.flaw {
            Flaw::None => self.builder.finish().map_err(|_| ViewFault::NoMemory),
            Flaw::TooLong(length) => Err(ViewFault::TooLong { length }),
            Flaw::Misplaced(field) => Err(ViewFault::Misplaced { field }),
        }
    }

    fn entries<E: Entry>(&mut self, version: &i16, entries: &[E]) -> Result<(), NoMemory>
        ensures { OnOk result (self.new ≡ put_entries (put_fields E.format version.now) (map E.fields entries.now) self.old) }
    {
        for entry in entries {
            entry.write(version, self)?;
        }
        Ok(())
    }
}
