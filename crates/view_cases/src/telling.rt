//! What a message's struct comes to.
use crate::case::Case;
use bytes::Bytes;
use std::alloc::{AllocError, Global};
use std::fmt::Debug;
use tree_codec::{decode, encode};
use views::View;

/// The struct as text and whether its body is spelled by the same bytes, or the fault that comes first. Behind it what
/// the struct with each other version comes to.
pub fn told<V: View + Debug, S: Fn(&mut V, i16)>(
    alloc: Global,
    case: &Case,
    set_version: S,
) -> Result<String, AllocError>
    requires { S.IsAlwaysCallable set_version }
{
    let bytes = Bytes::copy_from_slice(alloc, case.bytes.as_slice())?;
    let body = match decode(alloc, V::KEY, case.version, V::DIR, bytes) {
        Ok(body) => body,
        Err(fault) => return format!(in alloc; "no body: {fault:?}"),
    };
    let mut view = match V::of(alloc, &body) {
        Ok(view) => view,
        Err(fault) => return format!(in alloc; "no view: {fault:?}"),
    };
    let spelled = spelled(alloc, &view, case.bytes.as_slice())?;
    let mut text = format!(in alloc; "{view:?} {spelled}")?;
    for other in case.others.as_slice() {
        set_version(&mut view, *other);
        let spelled = self::spelled(alloc, &view, case.bytes.as_slice())?;
        write!(text, "; {other}: {spelled}")?;
    }
    Ok(text)
}

// Whether the view's body is spelled by these bytes.
fn spelled<V: View>(alloc: Global, view: &V, bytes: &[u8]) -> Result<String, AllocError> {
    let body = match view.body(alloc) {
        Ok(body) => body,
        Err(fault) => return format!(in alloc; "{fault:?}"),
    };
    match encode(alloc, &body, 4096) {
        Ok(again) if again.as_slice() == bytes => String::from_str(alloc, "same bytes"),
        Ok(again) => hex::encode(alloc, again.as_slice()),
        Err(fault) => format!(in alloc; "{fault:?}"),
    }
}
