ghost use Rattle.std.specs.Prelude.{◌≡◌, ◌+◌, ◌<◌, List, ◌++◌, length, MatchOption, IfSome};
ghost use Rattle.tree_spelling.specs.Shape.{Shape, End, nest, field_shape};
ghost use Rattle.tree_spelling.specs.Agenda.{settled};
ghost use Rattle.tree_codec.specs.Levels.{level_shapes, field_shapes};

use kp_schema::{Field, Kind};

/// The fields of one entry that are still to come, and how many entries come after it.
#[derive(Clone, Copy, Drop)]
pub(crate) struct Level {
    /// What is left of the fields from the entry's next one on.
    pub fields: &'static [Field],
    /// The fields of a whole entry.
    pub entry: &'static [Field],
    /// The depth of the entry's fields.
    pub depth: u8,
    /// How many entries come after this one.
    pub left: u32,
}

impl Level {
    /// Passes the next field, or is at the end.
    pub(crate) fn pass(&mut self) -> Option<Kind>
        ensures { (todo : List Shape) → MatchOption result
            (settled (level_shapes self.old ++ todo) ≡ settled todo)
            (λ kind. settled (level_shapes self.old ++ todo) ≡ field_shapes kind self.new ++ todo) }
    {
        loop {
            if let Some((field, behind)) = next_field(self.fields, self.depth) {
                self.fields = behind;
                return Some(field.kind);
            }
            if self.left == 0 {
                return None;
            }
            self.left -= 1;
            self.fields = self.entry;
        }
    }
}

/// The first field at this depth, and those behind it, if one stands there before any less deep.
pub(crate) fn next_field(
    fields: &'static [Field],
    depth: u8,
) -> Option<(&'static Field, &'static [Field])>
    ensures shorter { IfSome result (λ found. length found.1.now < length fields.now) }
    ensures next { MatchOption result (nest fields.now depth ≡ End)
        (λ found. nest fields.now depth ≡ field_shape found.0.now.kind
        (nest found.1.now (depth + 1)) (nest found.1.now depth)) }
{
    let mut rest = fields;
    while let Some((field, behind)) = rest.split_first() {
        if field.depth < depth {
            return None;
        }
        if field.depth == depth {
            return Some((field, behind));
        }
        rest = behind;
    }
    None
}
