ghost use Rattle.std.specs.Prelude.{◌≡◌};
ghost use Rattle.filter_core.specs.Acks.{has_acks_zero, acks_in, is_zero};

use tree_codec::{Body, Primitive};

const PRODUCE: i16 = 0;

/// Whether the message is a Produce with acks 0, which gets no response ("The Messages: Produce API").
pub(crate) fn has_acks_zero(message: &Body) -> bool
    ensures { result ≡ has_acks_zero message.now }
{
    message.key() == PRODUCE && second_is_zero(message.items())
}

// The second item is an INT16 of 0.
fn second_is_zero(items: &[Primitive]) -> bool
    ensures { result ≡ is_zero (acks_in items.now) }
{
    match items.get(1) {
        Some(Primitive::Int16(acks)) => *acks == 0,
        _ => false,
    }
}
