ghost use Rattle.std.specs.Prelude.{◌≡◌, ℕ, ℤ, ◌<◌, ◌≤◌, ◌↔◌, List, Option, ◌++◌, length, FitsSigned, IsErrOf, IfOk, IsOkAnd, IfErr, OnErr};
ghost use Rattle.std.specs.Option.{option_copied};
ghost use Rattle.std.specs.Int.{w8, w16, w32, w64};
ghost use Rattle.wire_types.specs.Numbers.{int8, int16, int32, int64, int16_at, int32_at};
ghost use Rattle.wire_types.specs.Strings.{string, IsString};
ghost use Rattle.wire_types.specs.Lengths.{byte_string, IsByteString, array_count, IsCount};
ghost use Rattle.wire_types.specs.Reading.{Reads, unread, need, IsBadLength, place_of};

use crate::read_fault::ReadFault;
use std::marker::Model;

/// A place in bytes, from which items are read one after the other.
#[derive(Drop)]
pub struct Reader<'a> {
    bytes: &'a [u8],
    at: usize,
}

impl<'a> Model for Reader<'a> {
    ghost use Rattle.std.specs.Prelude.{◌≤◌, length};
    ghost use Rattle.wire_types.specs.Reading.{Reading};

    ghost Value = { Reading };

    ghost view = { λ reader. record { bytes = reader.bytes.now; at = reader.at } };

    ghost invariant = { λ reader. reader.at ≤ length reader.bytes.now };
}

impl<'a> Reader<'a> {
    /// A reader at the first of these bytes.
    pub fn new(bytes: &'a [u8]) -> Reader<'a>
        ensures bytes { result.bytes ≡ bytes.now }
        ensures at { result.at ≡ 0 }
    {
        Reader { bytes, at: 0 }
    }

    /// How many bytes were read.
    pub fn at(&self) -> usize
        ensures at { result ≡ self.now.at }
        ensures within { result ≤ length self.now.bytes }
    {
        self.at
    }

    /// How many bytes are not read yet.
    pub fn left(&self) -> usize
        ensures { result ≡ length (unread self.now) }
    {
        self.bytes.len() - self.at
    }

    /// Reads an INT8.
    pub fn i8(&mut self) -> Result<i8, ReadFault>
        ensures ok { IfOk result (λ value. Reads self.old (int8 value) self.new) }
        ensures spelled_is_read { (value : ℤ) (rest : List ℕ) → FitsSigned w8 value
            → unread self.old ≡ int8 value ++ rest → result ≡ Ok value }
        ensures short { IsErrOf result (ReadFault.Short self.old.at)
            ↔ (length (unread self.old) < 1) }
        ensures no_other { IfErr result (λ fault. fault ≡ ReadFault.Short self.old.at) }
        ensures err { OnErr result (self.new ≡ self.old) }
    {
        let bytes = self.take(1)?;
        Ok(i8::from_be_bytes([bytes[0]]))
    }

    /// Reads an INT16.
    pub fn i16(&mut self) -> Result<i16, ReadFault>
        ensures ok { IfOk result (λ value. Reads self.old (int16 value) self.new) }
        ensures spelled_is_read { (value : ℤ) (rest : List ℕ) → FitsSigned w16 value
            → unread self.old ≡ int16 value ++ rest → result ≡ Ok value }
        ensures short { IsErrOf result (ReadFault.Short self.old.at)
            ↔ (length (unread self.old) < 2) }
        ensures no_other { IfErr result (λ fault. fault ≡ ReadFault.Short self.old.at) }
        ensures err { OnErr result (self.new ≡ self.old) }
    {
        let bytes = self.take(2)?;
        Ok(i16::from_be_bytes([bytes[0], bytes[1]]))
    }

    /// Reads an INT32.
    pub fn i32(&mut self) -> Result<i32, ReadFault>
        ensures ok { IfOk result (λ value. Reads self.old (int32 value) self.new) }
        ensures spelled_is_read { (value : ℤ) (rest : List ℕ) → FitsSigned w32 value
            → unread self.old ≡ int32 value ++ rest → result ≡ Ok value }
        ensures short { IsErrOf result (ReadFault.Short self.old.at)
            ↔ (length (unread self.old) < 4) }
        ensures no_other { IfErr result (λ fault. fault ≡ ReadFault.Short self.old.at) }
        ensures err { OnErr result (self.new ≡ self.old) }
    {
        let bytes = self.take(4)?;
        Ok(i32::from_be_bytes([bytes[0], bytes[1], bytes[2], bytes[3]]))
    }

    /// Reads an INT64.
    pub fn i64(&mut self) -> Result<i64, ReadFault>
        ensures ok { IfOk result (λ value. Reads self.old (int64 value) self.new) }
        ensures spelled_is_read { (value : ℤ) (rest : List ℕ) → FitsSigned w64 value
            → unread self.old ≡ int64 value ++ rest → result ≡ Ok value }
        ensures short { IsErrOf result (ReadFault.Short self.old.at)
            ↔ (length (unread self.old) < 8) }
        ensures no_other { IfErr result (λ fault. fault ≡ ReadFault.Short self.old.at) }
        ensures err { OnErr result (self.new ≡ self.old) }
    {
        let bytes = self.take(8)?;
        Ok(int64_of(bytes))
    }

    /// Reads a STRING. `None` is null.
    pub fn string(&mut self) -> Result<Option<&'a [u8]>, ReadFault>
        ensures ok { IfOk result (λ text. Reads self.old (string (option_copied text)) self.new) }
        ensures fits { IfOk result (λ text. IsString (option_copied text)) }
        ensures spelled_is_read { (text : Option (List ℕ)) (rest : List ℕ) → IsString text
            → unread self.old ≡ string text ++ rest
            → IsOkAnd result (λ found. option_copied found ≡ text) }

        // A bad length is one that is there; else the item is short.
        ensures bad_length { IsErrOf result (ReadFault.BadLength self.old.at)
            ↔ IsBadLength (int16_at (unread self.old)) }
        ensures short { IsErrOf result (ReadFault.Short self.old.at)
            ↔ (length (unread self.old) < need 2 (int16_at (unread self.old))) }
        ensures place { IfErr result (λ fault. place_of fault ≡ self.old.at) }
        ensures err { OnErr result (self.new ≡ self.old) }
    {
        let at = self.at;
        let length = self.i16()?;
        if length == -1 {
            return Ok(None);
        }
        if length < 0 {
            self.at = at;
            return Err(ReadFault::BadLength { at });
        }
        match self.take(length as usize) {
            Ok(text) => Ok(Some(text)),
            Err(_) => {
                self.at = at;
                Err(ReadFault::Short { at })
            }
        }
    }

    /// Reads BYTES. `None` is null.
    pub fn bytes(&mut self) -> Result<Option<&'a [u8]>, ReadFault>
        ensures ok { IfOk result
            (λ found. Reads self.old (byte_string (option_copied found)) self.new) }
        ensures fits { IfOk result (λ found. IsByteString (option_copied found)) }
        ensures spelled_is_read { (value : Option (List ℕ)) (rest : List ℕ) → IsByteString value
            → unread self.old ≡ byte_string value ++ rest
            → IsOkAnd result (λ found. option_copied found ≡ value) }

        // A bad length is one that is there; else the item is short.
        ensures bad_length { IsErrOf result (ReadFault.BadLength self.old.at)
            ↔ IsBadLength (int32_at (unread self.old)) }
        ensures short { IsErrOf result (ReadFault.Short self.old.at)
            ↔ (length (unread self.old) < need 4 (int32_at (unread self.old))) }
        ensures place { IfErr result (λ fault. place_of fault ≡ self.old.at) }
        ensures err { OnErr result (self.new ≡ self.old) }
    {
        let at = self.at;
        let size = self.i32()?;
        if size == -1 {
            return Ok(None);
        }
        if size < 0 {
            self.at = at;
            return Err(ReadFault::BadLength { at });
        }
        match self.take(size as usize) {
            Ok(found) => Ok(Some(found)),
            Err(_) => {
                self.at = at;
                Err(ReadFault::Short { at })
            }
        }
    }

    /// Reads the count of an ARRAY's entries. `None` is null.
    pub fn count(&mut self) -> Result<Option<u32>, ReadFault>
        ensures ok { IfOk result (λ found. Reads self.old (array_count found) self.new) }
        ensures fits { IfOk result (λ found. IsCount found) }
        ensures spelled_is_read { (value : Option ℕ) (rest : List ℕ) → IsCount value
            → unread self.old ≡ array_count value ++ rest → result ≡ Ok value }
        ensures bad_length { IsErrOf result (ReadFault.BadLength self.old.at)
            ↔ IsBadLength (int32_at (unread self.old)) }
        ensures short { IsErrOf result (ReadFault.Short self.old.at)
            ↔ (length (unread self.old) < 4) }
        ensures place { IfErr result (λ fault. place_of fault ≡ self.old.at) }
        ensures err { OnErr result (self.new ≡ self.old) }
    {
        let at = self.at;
        let count = self.i32()?;
        if count == -1 {
            return Ok(None);
        }
        if count < 0 {
            self.at = at;
            return Err(ReadFault::BadLength { at });
        }
        Ok(Some(count as u32))
    }

    // The next `count` bytes.
    fn take(&mut self, count: usize) -> Result<&'a [u8], ReadFault>
        ensures ok { IfOk result
            (λ bytes. Reads self.old bytes.now self.new × (length bytes.now ≡ count)) }
        ensures short { IsErrOf result (ReadFault.Short self.old.at)
            ↔ (length (unread self.old) < count) }
        ensures no_other { IfErr result (λ fault. fault ≡ ReadFault.Short self.old.at) }
        ensures err { OnErr result (self.new ≡ self.old) }
    {
        let at = self.at;
        if self.bytes.len() - at < count {
            return Err(ReadFault::Short { at });
        }
        self.at = at + count;
        Ok(&self.bytes[at..at + count])
    }
}

// The number that eight bytes spell.
fn int64_of(bytes: &[u8]) -> i64
    requires { length bytes.now ≡ 8 }
    ensures { int64 result ≡ bytes.now }
{
    i64::from_be_bytes([
        bytes[0], bytes[1], bytes[2], bytes[3], bytes[4], bytes[5], bytes[6], bytes[7],
    ])
}
