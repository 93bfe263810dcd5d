ghost use Rattle.std.specs.Prelude.{◌≡◌, ℕ, ◌<◌, ◌↔◌, List, ◌++◌, length, Ok, None, Some, IfSome, IfOk, OnOk, OnErr};
ghost use Rattle.framing.specs.Heads.{response_head, IsResponse};

use bytes::Bytes;
use wire_types::{NoMemory, Reader, Writer};

/// The head of a response ("Response Header v0").
#[derive(Clone, Copy, Debug, PartialEq, Eq)]
pub struct ResponseHead {
    /// That of the request.
    pub correlation_id: i32,
}

impl ResponseHead {
    /// Reads the head of a response's frame, and gives what follows it, which shares the frame's
    /// bytes.
    pub fn read(frame: &Bytes) -> Result<Option<(ResponseHead, Bytes)>, NoMemory>
        ensures some { IfOk result (λ read. IfSome read (λ read.
            IsResponse frame.now read.0 read.1)) }
        ensures spelled_is_read { (head : ResponseHead) (body : List ℕ)
            → IsResponse frame.now head body → IfOk result (λ read. read ≡ Some (head, body)) }
        ensures none { (result ≡ Ok None) ↔ (length frame.now < 4) }
    {
        let mut reader = Reader::new(frame.as_slice());
        let Ok(correlation_id) = reader.i32() else {
            return Ok(None);
        };
        let body = frame.slice(reader.at()..frame.len())?;
        Ok(Some((ResponseHead { correlation_id }, body)))
    }

    /// Appends the head to what is written already.
    pub fn write(&self, out: &mut Writer) -> Result<(), NoMemory>
        ensures ok { OnOk result (out.new ≡ out.old ++ response_head self.now) }
        ensures err { OnErr result (out.new ≡ out.old) }
    {
        out.put_all(&self.correlation_id.to_be_bytes())
    }
}
