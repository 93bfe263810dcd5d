ghost use Rattle.std.specs.Prelude.{◌≡◌, ◌+◌, ◌≤◌, true, false, length, IsNone, IfSome};
ghost use Rattle.kp_schema.specs.Messages.{is_supported};
ghost use Rattle.conn_core.specs.Kinds.{IsKind};

use framing::{body_place, start};
use kp_schema::{Dir, fields};

const API_VERSIONS: i16 = 18;

// What a client's frame is, by its head.
#[derive(Clone, Copy, Debug, PartialEq, Eq)]
pub(crate) enum FrameKind {
    // A request, if its body can be read, which begins at this place.
    Headed {
        key: i16,
        version: i16,
        body_at: usize,
    },
    // A request for ApiVersions in a version that isn't known.
    ToldVersions {
        correlation_id: i32,
    },
    // No request: its API or version isn't supported.
    Unsupported {
        key: i16,
        version: i16,
    },
    // No request: its client id isn't spelled.
    BadHead,
}

pub(crate) fn kind_of(frame: &[u8]) -> FrameKind
    requires { 8 ≤ length frame.now }
    ensures { IsKind frame.now result }
{
    let Some((key, version, correlation_id)) = start(frame) else {
        return FrameKind::BadHead;
    };
    if !is_supported(key, version) {
        return if key == API_VERSIONS {
            FrameKind::ToldVersions { correlation_id }
        } else {
            FrameKind::Unsupported { key, version }
        };
    }
    match body_place(frame) {
        Some(body_at) => FrameKind::Headed {
            key,
            version,
            body_at,
        },
        None => FrameKind::BadHead,
    }
}

// This version of this API is supported.
fn is_supported(key: i16, version: i16) -> bool
    ensures { result ≡ is_supported key version }
{
    fields(key, version, Dir::Request).is_some()
}
