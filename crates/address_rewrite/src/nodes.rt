ghost use Rattle.std.specs.Prelude.{◌≡◌, ◌∷◌, None, MatchOption};
ghost use Rattle.tree_spelling.specs.declared.primitive.Primitive.TheVariants.{Int32, Text};
ghost use Rattle.address_rewrite.specs.Nodes.{leading_node};

use bytes::Bytes;
use tree_codec::Primitive;

// The address that the items begin with, by node, host and port, and what follows it.
pub(crate) fn split_node(items: &[Primitive]) -> Option<(i32, &Option<Bytes>, i32, &[Primitive])>
    ensures { MatchOption result (leading_node items.now ≡ None)
        (λ found. items.now ≡ Int32 found.0 ∷ (Text found.1.now ∷ (Int32 found.2 ∷ found.3.now))) }
{
    match items {
        [
            Primitive::Int32(node),
            Primitive::Text(host),
            Primitive::Int32(port),
            behind @ ..,
        ] => Some((*node, host, *port, behind)),
        _ => None,
    }
}
