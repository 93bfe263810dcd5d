ghost use Rattle.std.specs.Prelude.{◌≡◌};
ghost use Rattle.tree_spelling.specs.Shape.{nest, message_shape};

use crate::message::Message;
use kp_schema::{Field, fields};

/// The fields of a message, or none where the message isn't one that is read.
#[tactic(auto, using(std::proofs::lemmas::Int::ints))]
pub(crate) fn message_fields(message: Message) -> &'static [Field]
    ensures { message_shape message.key message.version message.dir ≡ nest result.now 0 }
{
    match fields(message.key, message.version, message.dir) {
        Some(fields) => fields,
        None => &[],
    }
}
