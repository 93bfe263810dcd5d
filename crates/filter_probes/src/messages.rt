// The messages that the filters know.
ghost use Rattle.std.specs.Prelude.{◌≡◌, ◌≤◌, length, IfOk};
ghost use Rattle.filter_probes.specs.Probes.{probe_heartbeat, metadata, heartbeat_error, is_message};
ghost use Rattle.filter_probes.specs.Grown.{grown_request, grown_response};

use crate::building::{finish, push};
use bytes::Bytes;
use kp_edge::NoMemory;
use kp_schema::Dir;
use std::alloc::Global;
use tree_codec::{Body, Builder, Primitive};

pub(crate) fn is_message(body: &Body, key: i16, version: i16) -> bool
    ensures { result ≡ is_message key version body.now }
{
    body.key() == key && body.version() == version
}

/// A Heartbeat request of version 0.
pub fn heartbeat(alloc: Global) -> Result<Body, NoMemory>
    ensures { IfOk result (λ body. body ≡ probe_heartbeat) }
{
    let mut out = Builder::new(alloc, 12, 0, Dir::Request);
    push(&mut out, Primitive::Text(Some(Bytes::from_static(b"g"))))?;
    push(&mut out, Primitive::Int32(1))?;
    push(&mut out, Primitive::Text(Some(Bytes::from_static(b"m"))))?;
    finish(out)
}

pub(crate) fn metadata(alloc: Global) -> Result<Body, NoMemory>
    ensures { IfOk result (λ body. body ≡ metadata) }
{
    let mut out = Builder::new(alloc, 3, 4, Dir::Request);
    push(&mut out, Primitive::Count(None))?;
    push(&mut out, Primitive::Boolean(0))?;
    finish(out)
}

/// A Heartbeat response of version 0 with this error.
pub fn heartbeat_error(alloc: Global, error: i16) -> Result<Body, NoMemory>
    ensures { IfOk result (λ body. body ≡ heartbeat_error error) }
{
    let mut out = Builder::new(alloc, 12, 0, Dir::Response);
    push(&mut out, Primitive::Int16(error))?;
    finish(out)
}

// A SyncGroup request of version 0 with one assignment, which is these bytes.
pub(crate) fn sync_group(alloc: Global, payload: Bytes) -> Result<Body, NoMemory>
    ensures { IfOk result (λ body. body ≡ grown_request payload) }
{
    let mut out = Builder::new(alloc, 14, 0, Dir::Request);
    push(&mut out, Primitive::Text(Some(Bytes::from_static(b"g"))))?;
    push(&mut out, Primitive::Int32(1))?;
    push(&mut out, Primitive::Text(Some(Bytes::from_static(b"m"))))?;
    push(&mut out, Primitive::Count(Some(1)))?;
    push(&mut out, Primitive::Text(Some(Bytes::from_static(b""))))?;
    push(&mut out, Primitive::Binary(Some(payload)))?;
    finish(out)
}

// A SyncGroup response of version 0 without an error, whose assignment is these bytes.
pub(crate) fn sync_group_response(alloc: Global, payload: Bytes) -> Result<Body, NoMemory>
    ensures { IfOk result (λ body. body ≡ grown_response payload) }
{
    let mut out = Builder::new(alloc, 14, 0, Dir::Response);
    push(&mut out, Primitive::Int16(0))?;
    push(&mut out, Primitive::Binary(Some(payload)))?;
    finish(out)
}
