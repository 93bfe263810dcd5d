// A body is made of items of its message, so only memory can be wanting.
ghost use Rattle.std.specs.Prelude.{◌≡◌, OnOk, IfOk};
ghost use Rattle.tree_spelling.specs.Building.{with_next};

use kp_edge::NoMemory;
use tree_codec::{Body, Builder, Primitive};

pub(crate) fn push(out: &mut Builder, item: Primitive) -> Result<(), NoMemory>
    ensures { OnOk result (out.new ≡ with_next out.old item) }
{
    match out.push(item) {
        Ok(()) => Ok(()),
        Err(_) => Err(NoMemory),
    }
}

pub(crate) fn finish(out: Builder) -> Result<Body, NoMemory>
    ensures { IfOk result (λ body. body ≡ out) }
{
    match out.finish() {
        Ok(body) => Ok(body),
        Err(_) => Err(NoMemory),
    }
}
