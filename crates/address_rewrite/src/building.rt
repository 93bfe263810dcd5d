ghost use Rattle.std.specs.Prelude.{◌≡◌, [], ◌∷◌, OnOk, IfOk};
ghost use Rattle.tree_codec.specs.Copying.{followed_by};

use bytes::Bytes;
use kp_edge::NoMemory;
use tree_codec::{Body, Builder, Primitive};

// What the filter puts is an item of its message: only memory can be wanting.
pub(crate) fn push(out: &mut Builder, item: Primitive) -> Result<(), NoMemory>
    ensures { OnOk result (out.new ≡ followed_by out.old (item ∷ [])) }
{
    match out.push(item) {
        Ok(()) => Ok(()),
        Err(_) => Err(NoMemory),
    }
}

// The same item. No byte is copied.
pub(crate) fn push_shared(out: &mut Builder, item: &Primitive) -> Result<(), NoMemory>
    ensures { OnOk result (out.new ≡ followed_by out.old (item.now ∷ [])) }
{
    match item.share() {
        Ok(same) => push(out, same),
        Err(_) => Err(NoMemory),
    }
}

// The same bytes. None is copied.
pub(crate) fn share(bytes: &Bytes) -> Result<Bytes, NoMemory>
    ensures { IfOk result (λ same. same ≡ bytes.now) }
{
    match bytes.clone() {
        Ok(same) => Ok(same),
        Err(_) => Err(NoMemory),
    }
}

// The message, to which nothing is wanting.
pub(crate) fn finish(out: Builder) -> Result<Body, NoMemory>
    ensures { IfOk result (λ body. body ≡ out) }
{
    match out.finish() {
        Ok(body) => Ok(body),
        Err(_) => Err(NoMemory),
    }
}

pub(crate) fn share_text(text: &Option<Bytes>) -> Result<Option<Bytes>, NoMemory>
    ensures { IfOk result (λ same. same ≡ text.now) }
{
    match text {
        Some(bytes) => Ok(Some(share(bytes)?)),
        None => Ok(None),
    }
}
