//! Items that are still to be read.
#![tactic(auto, unfolding(crate::specs::Fitting::is_wanted, crate::specs::Fitting::AllEntriesFit, crate::specs::Fitting::FitsIfGiven, crate::specs::Reading::given_before, crate::specs::Reading::array_before))]

ghost use Rattle.std.specs.Prelude.{◌≡◌, pos, [], ◌∷◌, length, map, option_map, is_some, IfOk, OnOk};
ghost use Rattle.tree_spelling.specs.declared.primitive.Primitive.TheVariants as items;
ghost use Rattle.views.specs.Reading.{items_before, array_before, given_before};
ghost use Rattle.views.specs.Fitting.{is_wanted, FitVersion, AllEntriesFit, FitsIfGiven};

use crate::entries::Entries;
use crate::entry::Entry;
use bytes::Bytes;
use std::alloc::Global;
use std::marker::Model;
use tree_spelling::Primitive;
use wire_types::NoMemory;

/// The items of a body that weren't read yet, in reading order.
///
/// Each call reads the next item, or with `_in` behind its name an item that the versions from `first` to `last` have
/// and no others. An item of another kind is answered by `NoMemory`, and so is the end: a body of the message whose fields
/// are read has neither there.
#[derive(Drop)]
pub struct Cursor<'a> {
    rest: &'a [Primitive],
}

impl<'a> Model for Cursor<'a> {
    ghost use Rattle.std.specs.Prelude.{List};
    ghost use Rattle.tree_spelling.specs.declared.primitive.Primitive.{Primitive};

    ghost Value = { List Primitive };

    ghost view = { λ cursor. cursor.rest.now };
}

impl<'a> Cursor<'a> {
    pub(crate) fn new(items: &'a [Primitive]) -> Cursor<'a>
        ensures { result ≡ items.now }
    {
        Cursor { rest: items }
    }

    fn next(&mut self) -> Result<&'a Primitive, NoMemory>
        ensures { IfOk result (λ item. self.old ≡ item.now ∷ self.new) }
    {
        let Some((first, rest)) = self.rest.split_first() else {
            return Err(NoMemory);
        };
        self.rest = rest;
        Ok(first)
    }

    // No item is left.
    pub(crate) fn end(&self) -> Result<(), NoMemory>
        ensures { OnOk result (self.now ≡ []) }
    {
        if self.rest.is_empty() {
            return Ok(());
        }
        Err(NoMemory)
    }

    /// INT8.
    pub fn int8(&mut self) -> Result<i8, NoMemory>
        ensures { IfOk result (λ number. self.old ≡ items.Int8 number ∷ self.new) }
    {
        match self.next()? {
            Primitive::Int8(number) => Ok(*number),
            _ => Err(NoMemory),
        }
    }

    /// INT16.
    pub fn int16(&mut self) -> Result<i16, NoMemory>
        ensures { IfOk result (λ number. self.old ≡ items.Int16 number ∷ self.new) }
    {
        match self.next()? {
            Primitive::Int16(number) => Ok(*number),
            _ => Err(NoMemory),
        }
    }

    /// INT32.
    pub fn int32(&mut self) -> Result<i32, NoMemory>
        ensures { IfOk result (λ number. self.old ≡ items.Int32 number ∷ self.new) }
    {
        match self.next()? {
            Primitive::Int32(number) => Ok(*number),
            _ => Err(NoMemory),
        }
    }

    /// INT64.
    pub fn int64(&mut self) -> Result<i64, NoMemory>
        ensures { IfOk result (λ number. self.old ≡ items.Int64 number ∷ self.new) }
    {
        match self.next()? {
            Primitive::Int64(number) => Ok(*number),
            _ => Err(NoMemory),
        }
    }

    /// BOOLEAN, as its byte.
    pub fn flag(&mut self) -> Result<u8, NoMemory>
        ensures { IfOk result (λ byte. self.old ≡ items.Boolean byte ∷ self.new) }
    {
        match self.next()? {
            Primitive::Boolean(byte) => Ok(*byte),
            _ => Err(NoMemory),
        }
    }

    /// STRING. No byte is copied.
    pub fn text(&mut self) -> Result<Option<Bytes>, NoMemory>
        ensures { IfOk result (λ text. self.old ≡ items.Text text ∷ self.new) }
    {
        match self.next()? {
            Primitive::Text(bytes) => shared(bytes),
            _ => Err(NoMemory),
        }
    }

    /// BYTES or RECORDS. No byte is copied.
    pub fn binary(&mut self) -> Result<Option<Bytes>, NoMemory>
        ensures { IfOk result (λ bytes. self.old ≡ items.Binary bytes ∷ self.new) }
    {
        match self.next()? {
            Primitive::Binary(bytes) => shared(bytes),
            _ => Err(NoMemory),
        }
    }

    fn count(&mut self) -> Result<Option<u32>, NoMemory>
        ensures { IfOk result (λ count. self.old ≡ items.Count count ∷ self.new) }
    {
        match self.next()? {
            Primitive::Count(count) => Ok(*count),
            _ => Err(NoMemory),
        }
    }

    /// INT8, where the version has it.
    pub fn int8_in(&mut self, version: i16, first: i16, last: i16) -> Result<Option<i8>, NoMemory>
        ensures item { IfOk result (λ value. self.old ≡ given_before (λ x behind. items.Int8 x ∷ behind) value self.new) }
        ensures fits { IfOk result (λ value. is_some value ≡ is_wanted first last version) }
    {
        if !has_field(version, first, last) {
            return Ok(None);
        }
        Ok(Some(self.int8()?))
    }

    /// INT16, where the version has it.
    pub fn int16_in(&mut self, version: i16, first: i16, last: i16) -> Result<Option<i16>, NoMemory>
        ensures item { IfOk result (λ value. self.old ≡ given_before (λ x behind. items.Int16 x ∷ behind) value self.new) }
        ensures fits { IfOk result (λ value. is_some value ≡ is_wanted first last version) }
    {
        if !has_field(version, first, last) {
            return Ok(None);
        }
        Ok(Some(self.int16()?))
    }

    /// INT32, where the version has it.
    pub fn int32_in(&mut self, version: i16, first: i16, last: i16) -> Result<Option<i32>, NoMemory>
        ensures item { IfOk result (λ value. self.old ≡ given_before (λ x behind. items.Int32 x ∷ behind) value self.new) }
        ensures fits { IfOk result (λ value. is_some value ≡ is_wanted first last version) }
    {
        if !has_field(version, first, last) {
            return Ok(None);
        }
        Ok(Some(self.int32()?))
    }

    /// INT64, where the version has it.
    pub fn int64_in(&mut self, version: i16, first: i16, last: i16) -> Result<Option<i64>, NoMemory>
        ensures item { IfOk result (λ value. self.old ≡ given_before (λ x behind. items.Int64 x ∷ behind) value self.new) }
        ensures fits { IfOk result (λ value. is_some value ≡ is_wanted first last version) }
    {
        if !has_field(version, first, last) {
            return Ok(None);
        }
        Ok(Some(self.int64()?))
    }

    /// BOOLEAN, where the version has it.
    pub fn flag_in(&mut self, version: i16, first: i16, last: i16) -> Result<Option<u8>, NoMemory>
        ensures item { IfOk result (λ value. self.old ≡ given_before (λ x behind. items.Boolean x ∷ behind) value self.new) }
        ensures fits { IfOk result (λ value. is_some value ≡ is_wanted first last version) }
    {
        if !has_field(version, first, last) {
            return Ok(None);
        }
        Ok(Some(self.flag()?))
    }

    /// STRING, where the version has it.
    pub fn text_in(
        &mut self,
        version: i16,
        first: i16,
        last: i16,
    ) -> Result<Option<Option<Bytes>>, NoMemory>
        ensures item { IfOk result (λ value. self.old ≡ given_before (λ x behind. items.Text x ∷ behind) value self.new) }
        ensures fits { IfOk result (λ value. is_some value ≡ is_wanted first last version) }
    {
        if !has_field(version, first, last) {
            return Ok(None);
        }
        Ok(Some(self.text()?))
    }

    /// ARRAY, entry by entry. Memory is taken as entries come, and not by the count.
    pub fn array<E: Entry>(
        &mut self,
        alloc: Global,
        version: i16,
    ) -> Result<Option<Entries<E>>, NoMemory>
        ensures entries { IfOk result (λ entries. self.old ≡ array_before (items_before E.format) (option_map (map E.fields) entries) self.new) }
        ensures fit { IfOk result (λ entries. AllEntriesFit (FitVersion E.format version) (option_map (map E.fields) entries)) }
    {
        match self.count()? {
            Some(count) => Ok(Some(self.entries(alloc, version, count)?)),
            None => Ok(None),
        }
    }

    /// ARRAY, where the version has it.
    pub fn array_in<E: Entry>(
        &mut self,
        alloc: Global,
        version: i16,
        first: i16,
        last: i16,
    ) -> Result<Option<Option<Entries<E>>>, NoMemory>
        ensures entries { IfOk result (λ value. self.old ≡ given_before (array_before (items_before E.format)) (option_map (option_map (map E.fields)) value) self.new) }
        ensures fit { IfOk result (λ value. FitsIfGiven (AllEntriesFit (FitVersion E.format version)) (option_map (option_map (map E.fields)) value)) }
        ensures fits { IfOk result (λ value. is_some (option_map (option_map (map E.fields)) value) ≡ is_wanted first last version) }
    {
        if !has_field(version, first, last) {
            return Ok(None);
        }
        Ok(Some(self.array(alloc, version)?))
    }

    fn entries<E: Entry>(
        &mut self,
        alloc: Global,
        version: i16,
        count: u32,
    ) -> Result<Entries<E>, NoMemory>
        ensures entries { IfOk result (λ entries. items.Count (Some count) ∷ self.old ≡ array_before (items_before E.format) (Some (map E.fields entries)) self.new) }
        ensures fit { IfOk result (λ entries. AllEntriesFit (FitVersion E.format version) (Some (map E.fields entries))) }
    {
        let mut entries = Vec::new(alloc);
        for _ in 0..count {
            entries.push(E::read(alloc, version, self)?)?;
        }
        Ok(Entries::from_vec(entries))
    }
}

// The same bytes, none of them copied.
fn shared(bytes: &Option<Bytes>) -> Result<Option<Bytes>, NoMemory>
    ensures { IfOk result (λ same. same ≡ bytes.now) }
{
    match bytes {
        Some(bytes) => Ok(Some(bytes.clone()?)),
        None => Ok(None),
    }
}

/// Whether a version is one of those from `first` to `last`.
pub(crate) fn has_field(version: i16, first: i16, last: i16) -> bool
    ensures { result ≡ is_wanted first last version }
{
    first <= version && version <= last
}
