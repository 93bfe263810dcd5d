ghost use Rattle.std.specs.Prelude.{◌≡◌, ◌++◌, ◌↔◌, ℕ, [], ◌<◌, length, take, IsTrue, IsErrOf, IsOk, IfOk, OnOk, OnErr};
ghost use Rattle.std.specs.Option.{option_copied};
ghost use Rattle.wire_types.specs.Numbers.{int8, int16, int32, int64};
ghost use Rattle.wire_types.specs.Strings.{string, IsTooLong};
ghost use Rattle.wire_types.specs.Lengths.{byte_string, IsTooManyBytes, array_count, IsTooManyEntries};

use crate::no_memory::NoMemory;
use crate::put_fault::PutFault;
use bytes::Bytes;
use std::alloc::Global;
use std::marker::Model;

// The greatest length that an INT16 says.
const MAX_TEXT: usize = 32767;

// The greatest length, or count, that an INT32 says.
const MAX_LENGTH: usize = 2147483647;

const MAX_COUNT: u32 = 2147483647;

/// Bytes that grow at their end, by one spelled item at a time.
#[derive(Drop)]
pub struct Writer {
    bytes: Vec<u8>,
}

impl Model for Writer {
    ghost use Rattle.std.specs.Prelude.{ℕ, List};

    ghost Value = { List ℕ };

    ghost view = { λ writer. writer.bytes.items };
}

impl Writer {
    /// An empty writer. It allocates nothing.
    pub fn new(alloc: Global) -> Writer
        ensures { result ≡ [] }
    {
        Writer {
            bytes: Vec::new(alloc),
        }
    }

    /// An empty writer with room for `capacity` bytes.
    pub fn with_capacity(alloc: Global, capacity: usize) -> Result<Writer, NoMemory>
        ensures { IfOk result (λ writer. writer ≡ []) }
    {
        Ok(Writer {
            bytes: Vec::with_capacity(alloc, capacity)?,
        })
    }

    /// How many bytes are written.
    pub fn len(&self) -> usize
        ensures { result ≡ length self.now }
    {
        self.bytes.len()
    }

    pub fn is_empty(&self) -> bool
        ensures { IsTrue result ↔ (self.now ≡ []) }
    {
        self.bytes.is_empty()
    }

    /// The bytes that are written.
    pub fn as_slice(&self) -> &[u8]
        ensures { result.now ≡ self.now }
    {
        self.bytes.as_slice()
    }

    /// Forgets the bytes. The next ones take their room.
    pub fn clear(&mut self)
        ensures { self.new ≡ [] }
    {
        self.bytes.clear();
    }

    /// Forgets the bytes from `len` on, if there are so many.
    pub fn truncate(&mut self, len: usize)
        ensures { self.new ≡ take len self.old }
    {
        self.bytes.truncate(len);
    }

    /// Appends bytes as they are, with no length.
    pub fn put_all(&mut self, bytes: &[u8]) -> Result<(), NoMemory>
        ensures ok { OnOk result (self.new ≡ self.old ++ bytes.now) }
        ensures nothing { bytes.now ≡ [] → IsOk result }
        ensures err { OnErr result (self.new ≡ self.old) }
    {
        self.bytes.extend_from_slice(bytes)?;
        Ok(())
    }

    /// Appends an INT8.
    pub fn put_i8(&mut self, value: i8) -> Result<(), PutFault>
        ensures ok { OnOk result (self.new ≡ self.old ++ int8 value) }
        ensures err { OnErr result (self.new ≡ self.old) }
        ensures only { OnErr result (result ≡ Err PutFault.NoMemory) }
    {
        self.put_all(&value.to_be_bytes())?;
        Ok(())
    }

    /// Appends an INT16.
    pub fn put_i16(&mut self, value: i16) -> Result<(), PutFault>
        ensures ok { OnOk result (self.new ≡ self.old ++ int16 value) }
        ensures err { OnErr result (self.new ≡ self.old) }
        ensures only { OnErr result (result ≡ Err PutFault.NoMemory) }
    {
        self.put_all(&value.to_be_bytes())?;
        Ok(())
    }

    /// Appends an INT32.
    pub fn put_i32(&mut self, value: i32) -> Result<(), PutFault>
        ensures ok { OnOk result (self.new ≡ self.old ++ int32 value) }
        ensures err { OnErr result (self.new ≡ self.old) }
        ensures only { OnErr result (result ≡ Err PutFault.NoMemory) }
    {
        self.put_all(&value.to_be_bytes())?;
        Ok(())
    }

    /// Appends an INT64.
    pub fn put_i64(&mut self, value: i64) -> Result<(), PutFault>
        ensures ok { OnOk result (self.new ≡ self.old ++ int64 value) }
        ensures err { OnErr result (self.new ≡ self.old) }
        ensures only { OnErr result (result ≡ Err PutFault.NoMemory) }
    {
        self.put_all(&value.to_be_bytes())?;
        Ok(())
    }

    /// Appends a STRING. `None` is null.
    pub fn put_string(&mut self, value: Option<&[u8]>) -> Result<(), PutFault>
        ensures ok { OnOk result (self.new ≡ self.old ++ string (option_copied value.entry)) }
        ensures too_long { (length : ℕ) → IsErrOf result (PutFault.TooLong length)
            ↔ (IsTooLong (option_copied value.entry) length) }
        ensures err { OnErr result (self.new ≡ self.old) }
    {
        match value {
            Some(text) => self.put_text(text),
            None => self.put_i16(-1),
        }
    }

    /// Appends BYTES. `None` is null.
    pub fn put_bytes(&mut self, value: Option<&[u8]>) -> Result<(), PutFault>
        ensures ok { OnOk result (self.new ≡ self.old ++ byte_string (option_copied value.entry)) }
        ensures too_long { (length : ℕ) → IsErrOf result (PutFault.TooLong length)
            ↔ (IsTooManyBytes (option_copied value.entry) length) }
        ensures err { OnErr result (self.new ≡ self.old) }
    {
        match value {
            Some(found) => self.put_long(found),
            None => self.put_i32(-1),
        }
    }

    /// Appends the count of an ARRAY's entries. `None` is null.
    pub fn put_count(&mut self, value: Option<u32>) -> Result<(), PutFault>
        ensures ok { OnOk result (self.new ≡ self.old ++ array_count value) }
        ensures too_long { (length : ℕ) → IsErrOf result (PutFault.TooLong length)
            ↔ (IsTooManyEntries value length) }
        ensures err { OnErr result (self.new ≡ self.old) }
    {
        match value {
            Some(count) if count > MAX_COUNT => Err(PutFault::TooLong {
                length: u64::from(count),
            }),
            Some(count) => self.put_i32(count as i32),
            None => self.put_i32(-1),
        }
    }

    /// The bytes for others to share. No byte is copied.
    pub fn finish(self) -> Result<Bytes, NoMemory>
        ensures ok { IfOk result (λ bytes. bytes ≡ self) }
        ensures empty { self ≡ [] → IsOk result }
    {
        Ok(Bytes::from_vec(self.bytes)?)
    }

    /// The bytes for one owner, who may change them. No byte is copied.
    pub fn into_vec(self) -> Vec<u8>
        ensures { result.items ≡ self }
    {
        self.bytes
    }

    fn put_text(&mut self, text: &[u8]) -> Result<(), PutFault>
        ensures ok { OnOk result (self.new ≡ self.old ++ string (Some text.now)) }
        ensures too_long { (length : ℕ) → IsErrOf result (PutFault.TooLong length)
            ↔ (IsTooLong (Some text.now) length) }
        ensures err { OnErr result (self.new ≡ self.old) }
    {
        if text.len() > MAX_TEXT {
            return Err(PutFault::TooLong {
                length: text.len() as u64,
            });
        }
        let start = self.bytes.len();
        self.put_i16(text.len() as i16)?;
        let put = self.put_all(text);
        if put.is_err() {
            self.bytes.truncate(start);
        }
        Ok(put?)
    }

    fn put_long(&mut self, found: &[u8]) -> Result<(), PutFault>
        ensures ok { OnOk result (self.new ≡ self.old ++ byte_string (Some found.now)) }
        ensures too_long { (length : ℕ) → IsErrOf result (PutFault.TooLong length)
            ↔ (IsTooManyBytes (Some found.now) length) }
        ensures err { OnErr result (self.new ≡ self.old) }
    {
        if found.len() > MAX_LENGTH {
            return Err(PutFault::TooLong {
                length: found.len() as u64,
            });
        }
        let before = self.bytes.len();
        self.put_i32(found.len() as i32)?;
        let put = self.put_all(found);
        if put.is_err() {
            self.bytes.truncate(before);
        }
        Ok(put?)
    }
}
