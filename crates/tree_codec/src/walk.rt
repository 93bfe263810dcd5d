//! Where in a body's items a path leads.
ghost use Rattle.std.specs.Prelude.{◌≡◌, ◌+◌, ◌<◌, ◌≤◌, List, ◌++◌, ℕ, length, drop, IfOk, IfSome};
ghost use Rattle.tree_spelling.specs.declared.primitive.Primitive.{Primitive};
ghost use Rattle.tree_spelling.specs.Primitives.{entries_of};
ghost use Rattle.tree_spelling.specs.Shape.{nest};
ghost use Rattle.tree_spelling.specs.Value.{Value, items_of};
ghost use Rattle.tree_spelling.specs.Agenda.{copies, items_behind};
ghost use Rattle.tree_spelling.specs.Paths.{further, field_place};

use crate::agenda::Agenda;
use crate::items::{entries_of, is_kind};
use crate::level::next_field;
use kp_schema::Field;
use std::alloc::Global;
use tree_spelling::Primitive;
use wire_types::NoMemory;

/// Where the item stands that a path names, from the place `at` on, where the fields at this depth
/// begin. `field` is the first number of the path, and `path` the others.
pub(crate) fn find(
    alloc: Global,
    items: &[Primitive],
    at: usize,
    fields: &'static [Field],
    depth: u8,
    field: u32,
    path: &[u32],
) -> Result<Option<usize>, NoMemory>
    requires { at ≤ length items.now }
    ensures { (value : Value (nest fields.now depth)) (more : List Primitive) →
        drop at items.now ≡ items_of (nest fields.now depth) value ++ more →
        IfOk result (λ place. place
        ≡ further at (field_place (nest fields.now depth) value field path.now)) }
{
    let Some((_, behind)) = next_field(fields, depth) else {
        return Ok(None);
    };
    let Some(deeper) = depth.checked_add(1) else {
        return Err(NoMemory);
    };
    let Some(first) = items.get(at) else {
        return Ok(None);
    };
    let entries = entries_of(first);
    if field > 0 {
        let end = skip(alloc, items, at + 1, behind, deeper, entries)?;
        return find(alloc, items, end, behind, depth, field - 1, path);
    }
    let Some((entry, path)) = path.split_first() else {
        return Ok(Some(at));
    };
    let Some((field, path)) = path.split_first() else {
        return Ok(None);
    };
    if *entry >= entries {
        return Ok(None);
    }
    let begin = skip(alloc, items, at + 1, behind, deeper, *entry)?;
    find(alloc, items, begin, behind, deeper, *field, path)
}

/// What follows so many entries, with the fields at this depth, that begin at a place.
pub(crate) fn skip(
    alloc: Global,
    items: &[Primitive],
    at: usize,
    fields: &'static [Field],
    depth: u8,
    entries: u32,
) -> Result<usize, NoMemory>
    requires { at ≤ length items.now }
    ensures rest { IfOk result (λ end. drop end items.now
        ≡ items_behind (copies entries (nest fields.now depth)) (drop at items.now)) }
    ensures within { IfOk result (λ end. end ≤ length items.now) }
{
    let mut agenda = Agenda::new(alloc, fields, depth, entries);
    let mut end = at;
    while let Some(kind) = agenda.kind() {
        let Some(item) = items.get(end) else {
            return Ok(end);
        };
        if !is_kind(kind, item) {
            return Ok(end);
        }
        agenda.pass(entries_of(item))?;
        end += 1;
    }
    Ok(end)
}
