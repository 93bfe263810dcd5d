//! What of a broker's versions passes.
ghost use Rattle.std.specs.Prelude.{◌≡◌, pos, [], ◌∷◌, ◌++◌, IfOk, IfSome, OnOk, MatchOption};
ghost use Rattle.tree_spelling.specs.Shape.{Shape, End, Plain, message_shape};
ghost use Rattle.kp_schema.specs.declared.dir.Dir.TheVariants as Dir;
ghost use Rattle.kp_schema.specs.declared.kind.Kind.TheVariants as Kind;
ghost use Rattle.tree_spelling.specs.declared.primitive.Primitive.TheVariants.{Int16};
ghost use Rattle.tree_spelling.specs.Value.{Value, items_of};
ghost use Rattle.tree_spelling.specs.Body.{IsOf, body_shape};
ghost use Rattle.api_versions.specs.Narrowing.{versions_shape, narrowed, known_in, supported_range, from_to, greater, lesser, known_count, known_items, narrowed_items, narrowed_body, with_items};

use kp_schema::supported;
use std::alloc::Global;
use tree_codec::{Body, Builder, Primitive};
use wire_types::NoMemory;

/// A response to ApiVersions with the versions that both the broker and the proxy know: an entry stays
/// where its versions meet those that are supported for its key, with the greater least and the lesser
/// greatest of them.
pub fn narrow(alloc: Global, body: Body) -> Result<Body, NoMemory>
    ensures message { IfOk result (IsOf body.key body.version body.dir) }
    ensures narrowed { (rest : Shape) (value : Value (versions_shape rest))
        → body.items ≡ items_of (versions_shape rest) value
        → IfOk result (λ new. new.items ≡ items_of (versions_shape rest) (narrowed rest value)) }

    // The same as a function of the body.
    ensures body { IfOk result (λ new. new ≡ narrowed_body body) }
{
    narrow_body(alloc, &body)
}

fn narrow_body(alloc: Global, body: &Body) -> Result<Body, NoMemory>
    ensures { IfOk result (λ new. new ≡ narrowed_body body.now) }
{
    let mut out = Builder::new(alloc, body.key(), body.version(), body.dir());
    narrow_items(&mut out, body.items())?;
    match out.finish() {
        Ok(body) => Ok(body),
        Err(_) => Err(NoMemory),
    }
}

fn narrow_items(out: &mut Builder, items: &[Primitive]) -> Result<(), NoMemory>
    ensures { OnOk result (out.new ≡ with_items out.old (narrowed_items items.now)) }
{
    let Some((error, rest)) = items.split_first() else {
        return Ok(());
    };
    let Some((Primitive::Count(Some(count)), rest)) = rest.split_first() else {
        return push_all(out, items);
    };
    let end = *count as usize * 3;
    if end > rest.len() {
        return Err(NoMemory);
    }
    let (entries, rest) = rest.split_at(end);
    let Some(met) = count_met(entries) else {
        return Err(NoMemory);
    };
    push(out, error.share()?)?;
    push(out, Primitive::Count(Some(met)))?;
    push_met(out, entries)?;
    push_all(out, rest)
}

// How many entries stay, if an INT32 can say so.
fn count_met(entries: &[Primitive]) -> Option<u32>
    ensures { IfSome result (λ count. count ≡ known_count entries.now) }
{
    let mut count = 0u32;
    let mut rest = entries;
    while let Some((key, least, greatest, behind)) = split_entry(rest) {
        if met(key, least, greatest).is_some() {
            count = count.checked_add(1)?;
        }
        rest = behind;
    }
    Some(count)
}

fn push_met(out: &mut Builder, entries: &[Primitive]) -> Result<(), NoMemory>
    ensures { OnOk result (out.new ≡ with_items out.old (known_items entries.now)) }
{
    let mut rest = entries;
    while let Some((key, least, greatest, behind)) = split_entry(rest) {
        if let Some((least, greatest)) = met(key, least, greatest) {
            push(out, Primitive::Int16(key))?;
            push(out, Primitive::Int16(least))?;
            push(out, Primitive::Int16(greatest))?;
        }
        rest = behind;
    }
    Ok(())
}

fn push_all(out: &mut Builder, items: &[Primitive]) -> Result<(), NoMemory>
    ensures { OnOk result (out.new ≡ with_items out.old items.now) }
{
    for item in items {
        push(out, item.share()?)?;
    }
    Ok(())
}

// A body that was decoded, or built, takes each item: only memory can be wanting.
fn push(out: &mut Builder, item: Primitive) -> Result<(), NoMemory>
    ensures { OnOk result (out.new ≡ with_items out.old (item ∷ [])) }
{
    match out.push(item) {
        Ok(()) => Ok(()),
        Err(_) => Err(NoMemory),
    }
}

// The first entry, and what follows it.
fn split_entry(items: &[Primitive]) -> Option<(i16, i16, i16, &[Primitive])>
    ensures { MatchOption result ((known_items items.now ≡ []) × (known_count items.now ≡ 0))
        (λ found. items.now ≡ Int16 found.0 ∷ (Int16 found.1 ∷ (Int16 found.2 ∷ found.3.now))) }
{
    match items {
        [
            Primitive::Int16(key),
            Primitive::Int16(least),
            Primitive::Int16(greatest),
            behind @ ..,
        ] => Some((*key, *least, *greatest, behind)),
        _ => None,
    }
}

// The versions of an API that both know.
fn met(key: i16, least: i16, greatest: i16) -> Option<(i16, i16)>
    ensures { result ≡ known_in (supported_range key) least greatest }
{
    let (from, to) = range_of(key)?;
    from_to(greater(least, from), lesser(greatest, to))
}

fn from_to(least: i16, greatest: i16) -> Option<(i16, i16)>
    ensures { result ≡ from_to least greatest }
{
    if least > greatest {
        return None;
    }
    Some((least, greatest))
}

fn greater(a: i16, b: i16) -> i16
    ensures { result ≡ greater a b }
{
    if a > b { a } else { b }
}

fn lesser(a: i16, b: i16) -> i16
    ensures { result ≡ lesser a b }
{
    if a > b { b } else { a }
}

// The versions of an API that are supported.
fn range_of(key: i16) -> Option<(i16, i16)>
    ensures { result ≡ supported_range key }
{
    for (api, from, to) in supported() {
        if *api == key {
            return Some((*from, *to));
        }
    }
    None
}

/// The shapes of a broker's answers to ApiVersions, by version: those that [`narrow`] speaks of. A call
/// does nothing but give them to its caller's proof.
pub fn versions_law()
    ensures v0 { message_shape (pos 18) (pos 0) Dir.Response ≡ versions_shape End }
    ensures v1 { message_shape (pos 18) (pos 1) Dir.Response
        ≡ versions_shape (Plain Kind.I32 End) }
    ensures v2 { message_shape (pos 18) (pos 2) Dir.Response
        ≡ versions_shape (Plain Kind.I32 End) }
{}
