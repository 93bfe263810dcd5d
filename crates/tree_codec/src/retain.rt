//! Bodies with some entries of an array left out.
ghost use Rattle.std.specs.Prelude.{◌≡◌, ◌⊎◌, ◌≤◌, ℕ, List, [], ◌∷◌, ◌++◌, length, take, drop, IfOk, IfErr, OnErr, MatchResult};
ghost use Rattle.tree_spelling.specs.declared.primitive.Primitive.{Primitive};
ghost use Rattle.std.specs.List.{flat_map};
ghost use Rattle.tree_spelling.specs.Shape.{nest, message_shape};
ghost use Rattle.tree_spelling.specs.Value.{Value, items_of};
ghost use Rattle.tree_spelling.specs.Body.{HasValue, body_shape};
ghost use Rattle.tree_spelling.specs.Retaining.{value_flagged, field_flagged};
ghost use Rattle.tree_codec.specs.Copying.{followed_by, IsFlagged, flag_at, flag_count, AreCopied, ArrayIsCopied, BeginsWithNoArray};

use crate::body::Body;
use crate::builder::Builder;
use crate::items::entries_of;
use crate::level::next_field;
use crate::message::Message;
use crate::message_fields::message_fields;
use crate::walk::skip;
use kp_schema::Field;
use std::alloc::Global;
use tree_spelling::{EditFault, Primitive};

impl Body {
    /// Keeps those entries of an array whose flag is true, and their order. An entry without a flag goes, and a null array
    /// stays null. `NoMemory` also stands for a size that would pass 2^64 - 1.
    pub fn retain(&mut self, path: &[u32], keep: &[bool]) -> Result<(), EditFault>
        // The array that the path names has those entries alone.
        ensures ok { (value : Value (body_shape self.old)) → HasValue self.old value
            → IfOk result (λ _. MatchResult (value_flagged (body_shape self.old) value path.now keep.now)
            (λ new. self.new ≡ record self.old { items = items_of (body_shape self.old) new }) (λ _. ⊥)) }

        // The fault is the first that there is.
        ensures err { (value : Value (body_shape self.old)) → HasValue self.old value
            → IfErr result (λ fault. (value_flagged (body_shape self.old) value path.now keep.now ≡ Err fault)
            ⊎ (fault ≡ EditFault.NoMemory)) }
        ensures kept { OnErr result (self.new ≡ self.old) }
    {
        let Some((field, path)) = path.split_first() else {
            return Err(EditFault::NoSuch);
        };
        match retained(
            self.alloc,
            self.message,
            self.items.as_slice(),
            *field,
            path,
            keep,
        ) {
            Ok(body) => {
                *self = body;
                Ok(())
            }
            Err(fault) => Err(fault),
        }
    }
}

// The body with these items, but for the entries that go.
fn retained(
    alloc: Global,
    message: Message,
    items: &[Primitive],
    field: u32,
    path: &[u32],
    keep: &[bool],
) -> Result<Body, EditFault>
    ensures ok { IfOk result (λ body. (value : Value (message_shape message.key message.version message.dir))
        → items.now ≡ items_of (message_shape message.key message.version message.dir) value
        → MatchResult (field_flagged (message_shape message.key message.version message.dir) value keep.now field path.now)
        (λ new. body ≡ record { key = message.key; version = message.version; dir = message.dir; items = items_of (message_shape message.key message.version message.dir) new }) (λ _. ⊥)) }
    ensures err { IfErr result (λ fault. (value : Value (message_shape message.key message.version message.dir))
        → items.now ≡ items_of (message_shape message.key message.version message.dir) value
        → (field_flagged (message_shape message.key message.version message.dir) value keep.now field path.now ≡ Err fault)
        ⊎ (fault ≡ EditFault.NoMemory)) }
{
    let mut out = empty(alloc, message);
    let fields = message_fields(message);
    let left = match retain_in(&mut out, items, fields, 0, field, path, keep) {
        Ok(left) => left,
        Err(fault) => return Err(fault),
    };
    copy_all(&mut out, left)?;
    match out.finish() {
        Ok(body) => Ok(body),
        // a value with the same fields is whole
        Err(_) => Err(EditFault::NoMemory),
    }
}

// A body of this message, of which nothing was put yet.
#[tactic(auto, using(std::proofs::lemmas::Int::ints))]
fn empty(alloc: Global, message: Message) -> Builder
    ensures { result ≡ record { key = message.key; version = message.version; dir = message.dir; items = [] } }
{
    Builder::new(alloc, message.key, message.version, message.dir)
}

/// Copies the fields at this depth up to the array, with the entries that are kept, and gives what wasn't copied.
fn retain_in<'a>(
    out: &mut Builder,
    rest: &'a [Primitive],
    fields: &'static [Field],
    depth: u8,
    field: u32,
    path: &[u32],
    keep: &[bool],
) -> Result<&'a [Primitive], EditFault>
    ensures ok { IfOk result (λ left. (value : Value (nest fields.now depth)) (more : List Primitive)
        → rest.now ≡ items_of (nest fields.now depth) value ++ more
        → IsFlagged (nest fields.now depth) more (field_flagged (nest fields.now depth) value keep.now field path.now) out.old out.new left.now) }
    ensures err { IfErr result (λ fault. (value : Value (nest fields.now depth)) (more : List Primitive)
        → rest.now ≡ items_of (nest fields.now depth) value ++ more
        → (field_flagged (nest fields.now depth) value keep.now field path.now ≡ Err fault) ⊎ (fault ≡ EditFault.NoMemory)) }
{
    let Some((_, behind)) = next_field(fields, depth) else {
        return Err(EditFault::NoSuch);
    };
    let Some(deeper) = depth.checked_add(1) else {
        return Err(EditFault::NoMemory);
    };
    let Some((first, _)) = rest.split_first() else {
        return Err(EditFault::NoMemory);
    };
    let entries = entries_of(first);
    if field > 0 {
        let end = skip(out.alloc, rest, 1, behind, deeper, entries)?;
        let left = copy(out, rest, end)?;
        return retain_in(out, left, behind, depth, field - 1, path, keep);
    }
    let Some((entry, path)) = path.split_first() else {
        return retain_entries(out, rest, behind, deeper, keep);
    };
    let Some((field, path)) = path.split_first() else {
        return Err(EditFault::NoSuch);
    };
    if *entry >= entries {
        return Err(EditFault::NoSuch);
    }
    let end = skip(out.alloc, rest, 1, behind, deeper, *entry)?;
    let left = copy(out, rest, end)?;
    retain_in(out, left, behind, deeper, *field, path, keep)
}

/// Copies an array with the entries that are kept. The entries have the fields at this depth.
fn retain_entries<'a>(
    out: &mut Builder,
    rest: &'a [Primitive],
    fields: &'static [Field],
    depth: u8,
    keep: &[bool],
) -> Result<&'a [Primitive], EditFault>
    ensures ok { IfOk result (λ left. ArrayIsCopied (nest fields.now depth) rest.now keep.now out.old out.new left.now) }
    ensures err { IfErr result (λ fault. (fault ≡ EditFault.NoMemory) ⊎ ((fault ≡ EditFault.WrongKind) × BeginsWithNoArray rest.now)) }
{
    let Some((first, behind)) = rest.split_first() else {
        return Err(EditFault::NoMemory);
    };
    let Primitive::Count(entries) = first else {
        return Err(EditFault::WrongKind);
    };
    let Some(count) = *entries else {
        return copy(out, rest, 1);
    };
    push(out, Primitive::Count(Some(flag_count(keep, count))))?;
    copy_flagged(out, behind, fields, depth, count, keep)
}

/// How many of the first flags are true.
fn flag_count(keep: &[bool], count: u32) -> u32
    ensures { result ≡ flag_count keep.now count }
{
    let mut kept = 0;
    for place in 0..count {
        if has_flag(keep, place) {
            kept += 1;
        }
    }
    kept
}

fn has_flag(keep: &[bool], place: u32) -> bool
    ensures { result ≡ flag_at keep.now place }
{
    match keep.get(place as usize) {
        Some(flag) => *flag,
        None => false,
    }
}

fn copy_flagged<'a>(
    out: &mut Builder,
    rest: &'a [Primitive],
    fields: &'static [Field],
    depth: u8,
    count: u32,
    keep: &[bool],
) -> Result<&'a [Primitive], EditFault>
    ensures ok { IfOk result (λ left. (entries : List (Value (nest fields.now depth))) (more : List Primitive)
        → length entries ≡ count → rest.now ≡ flat_map (items_of (nest fields.now depth)) entries ++ more
        → AreCopied (nest fields.now depth) entries keep.now more count out.old out.new left.now) }
    ensures err { IfErr result (λ fault. fault ≡ EditFault.NoMemory) }
{
    let mut left = rest;
    for place in 0..count {
        let end = skip(out.alloc, left, 0, fields, depth, 1)?;
        left = if has_flag(keep, place) {
            copy(out, left, end)?
        } else {
            left.split_at(end).1
        };
    }
    Ok(left)
}

/// Copies so many items, and gives those behind them.
fn copy<'a>(
    out: &mut Builder,
    items: &'a [Primitive],
    end: usize,
) -> Result<&'a [Primitive], EditFault>
    requires { end ≤ length items.now }
    ensures ok { IfOk result (λ left. (left.now ≡ drop end items.now) × (out.new ≡ followed_by out.old (take end items.now))) }
    ensures err { IfErr result (λ fault. fault ≡ EditFault.NoMemory) }
{
    let (front, left) = items.split_at(end);
    copy_all(out, front)?;
    Ok(left)
}

fn copy_all(out: &mut Builder, items: &[Primitive]) -> Result<(), EditFault>
    ensures ok { IfOk result (λ _. out.new ≡ followed_by out.old items.now) }
    ensures err { IfErr result (λ fault. fault ≡ EditFault.NoMemory) }
{
    for item in items {
        push(out, item.share()?)?;
    }
    Ok(())
}

/// A body that was decoded, or built, takes each item in its turn: only memory can be wanting.
fn push(out: &mut Builder, item: Primitive) -> Result<(), EditFault>
    ensures ok { IfOk result (λ _. out.new ≡ followed_by out.old (item ∷ [])) }
    ensures err { IfErr result (λ fault. fault ≡ EditFault.NoMemory) }
{
    match out.push(item) {
        Ok(()) => Ok(()),
        Err(_) => Err(EditFault::NoMemory),
    }
}
