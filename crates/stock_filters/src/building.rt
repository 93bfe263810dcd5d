ghost use Rattle.std.specs.Prelude.{◌≡◌, [], ◌∷◌, OnOk, IfOk};
ghost use Rattle.tree_codec.specs.Copying.{followed_by};

use bytes::Bytes;
use kp_edge::NoMemory;
use tree_codec::{Body, Builder, Primitive};

pub(crate) fn push_all(out: &mut Builder, items: &[Primitive]) -> Result<(), NoMemory>
    ensures { OnOk result (out.new ≡ followed_by out.old items.now) }
{
    for item in items {
        push(out, item)?;
    }
    Ok(())
}

// What a filter puts is an item of its message: only memory can be wanting.
pub(crate) fn push(out: &mut Builder, item: &Primitive) -> Result<(), NoMemory>
    ensures { OnOk result (out.new ≡ followed_by out.old (item.now ∷ [])) }
{
    let Ok(same) = item.share() else {
        return Err(NoMemory);
    };
    match out.push(same) {
        Ok(()) => Ok(()),
        Err(_) => Err(NoMemory),
    }
}

// The message, to which nothing is wanting.
pub(crate) fn finish(out: Builder) -> Result<Body, NoMemory>
    ensures { IfOk result (λ body. body ≡ out) }
{
    match out.finish() {
        Ok(body) => Ok(body),
        Err(_) => Err(NoMemory),
    }
}

// The same text. No byte is copied.
pub(crate) fn share(text: &Option<Bytes>) -> Result<Option<Bytes>, NoMemory>
    ensures { IfOk result (λ same. same ≡ text.now) }
{
    match text {
        Some(bytes) => match bytes.clone() {
            Ok(same) => Ok(Some(same)),
            Err(_) => Err(NoMemory),
        },
        None => Ok(None),
    }
}
