ghost use Rattle.std.specs.Prelude.{◌≡◌, ℕ, ◌+◌, ◌<◌, ◌≤◌, true, false, ◌↔◌, ℤ, List, ◌++◌, length, drop, IsNone, IfSome, MatchResult, IsErr, IsErrOf, IfOk, OnOk, OnErr};
ghost use Rattle.std.specs.Option.{option_copied};
ghost use Rattle.wire_types.specs.Strings.{IsTooLong};
ghost use Rattle.framing.specs.Heads.{request_head, has_client_id, client_id_length, Starts, IsRequest, EndsAt};
ghost use Rattle.framing.specs.RequestStarts.{request_key, request_version, request_number};

use crate::head_fault::HeadFault;
use bytes::Bytes;
use std::alloc::AllocError;
use wire_types::{PutFault, Reader, Writer};

// The api key, the api version and the correlation id.
const START: usize = 8;

/// The head of a request ("Request Header v1").
#[derive(Debug, Drop, PartialEq, Eq)]
pub struct RequestHead {
    /// Which API is asked.
    pub key: i16,
    /// In which version of that API's messages.
    pub version: i16,
    /// What the response repeats.
    pub correlation_id: i32,
    /// What the client calls itself.
    pub client_id: Option<Bytes>,
}

/// The api key, the api version and the correlation id at the front of a request's frame.
pub fn start(frame: &[u8]) -> Option<(i16, i16, i32)>
    ensures some { IfSome result (λ start.
        Starts frame.now start.0 start.1 start.2 (drop 8 frame.now)) }
    ensures spelled_is_read { (key version correlation_id : ℤ) (rest : List ℕ)
        → Starts frame.now key version correlation_id rest
        → result ≡ Some (key, version, correlation_id) }
    ensures numbers { IfSome result (λ start. start ≡ (request_key frame.now, request_version frame.now, request_number frame.now)) }
    ensures none { IsNone result ↔ (length frame.now < 8) }
{
    let mut reader = Reader::new(frame);
    let key = reader.i16().ok()?;
    let version = reader.i16().ok()?;
    let correlation_id = reader.i32().ok()?;
    Some((key, version, correlation_id))
}

/// Where the body of a request's frame begins, if client_id STRING stands behind its start.
pub fn body_place(frame: &[u8]) -> Option<usize>
    requires { 8 ≤ length frame.now }
    ensures some { IfSome result (λ place. (has_client_id frame.now ≡ true) × (place ≡ 8 + client_id_length frame.now) × (place ≤ length frame.now)) }
    ensures none { IsNone result → has_client_id frame.now ≡ false }
{
    let mut reader = Reader::new(frame.split_at(START).1);
    match reader.string() {
        Ok(_) => Some(START + reader.at()),
        Err(_) => None,
    }
}

impl RequestHead {
    /// Reads the head of a request's frame, and gives what follows it. The client id and the rest
    /// share the frame's bytes.
    pub fn read(frame: &Bytes) -> Result<(RequestHead, Bytes), HeadFault>
        ensures ok { IfOk result (λ read. IsRequest frame.now read.0 read.1) }
        ensures spelled_is_read { (head : RequestHead) (body : List ℕ)
            → IsRequest frame.now head body
            → MatchResult result (λ read. (read.0 ≡ head) × (read.1 ≡ body))
            (λ fault. fault ≡ HeadFault.NoMemory) }
        ensures short { IsErrOf result HeadFault.Short ↔ (length frame.now < 8) }
        ensures bad_client_id { IsErrOf result HeadFault.BadClientId → (8 ≤ length frame.now) × (has_client_id frame.now ≡ false) }
        ensures client_id { 8 ≤ length frame.now → has_client_id frame.now ≡ false → IsErrOf result HeadFault.BadClientId }
    {
        let Some((key, version, correlation_id)) = start(frame.as_slice()) else {
            return Err(HeadFault::Short);
        };
        let (_, rest) = frame.as_slice().split_at(START);
        let mut reader = Reader::new(rest);
        let Ok(text) = reader.string() else {
            return Err(HeadFault::BadClientId);
        };
        let end = START + reader.at();
        let client_id = part_before(frame, text, end)?;
        let body = frame.slice(end..frame.len())?;
        let head = RequestHead {
            key,
            version,
            correlation_id,
            client_id,
        };
        Ok((head, body))
    }

    /// Appends the head to what is written already.
    pub fn write(&self, out: &mut Writer) -> Result<(), PutFault>
        ensures ok { OnOk result (out.new ≡ out.old ++ request_head self.now) }

        // A client id past the limit is refused, if memory lasts so far.
        ensures too_long { (length : ℕ) → IsErrOf result (PutFault.TooLong length)
            → IsTooLong self.now.client_id length }
        ensures never_too_long { (length : ℕ) → IsTooLong self.now.client_id length → IsErr result }
        ensures err { OnErr result (out.new ≡ out.old) }
    {
        let start = out.len();
        let put = self.put(out);
        if put.is_err() {
            out.truncate(start);
        }
        put
    }

    // Appends the head, or a part of it.
    fn put(&self, out: &mut Writer) -> Result<(), PutFault>
        ensures ok { OnOk result (out.new ≡ out.old ++ request_head self.now) }
        ensures too_long { (length : ℕ) → IsErrOf result (PutFault.TooLong length)
            → IsTooLong self.now.client_id length }
        ensures never_too_long { (length : ℕ) → IsTooLong self.now.client_id length → IsErr result }
        ensures front { (part : List ℕ) × (out.new ≡ out.old ++ part) }
    {
        out.put_i16(self.key)?;
        out.put_i16(self.version)?;
        out.put_i32(self.correlation_id)?;
        match &self.client_id {
            Some(client_id) => out.put_string(Some(client_id.as_slice())),
            None => out.put_string(None),
        }
    }
}

// The text that stands in the frame before `end`, as a part of the frame.
fn part_before(frame: &Bytes, text: Option<&[u8]>, end: usize) -> Result<Option<Bytes>, AllocError>
    requires { EndsAt frame.now end (option_copied text) }
    ensures { IfOk result (λ part. part ≡ option_copied text.entry) }
{
    match text {
        Some(text) => Ok(Some(frame.slice(end - text.len()..end)?)),
        None => Ok(None),
    }
}
