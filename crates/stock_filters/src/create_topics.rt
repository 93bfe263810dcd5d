//! CreateTopics requests of which some topics are refused: "The Messages: CreateTopics API" of the protocol guide.
ghost use Rattle.std.specs.Prelude.{◌≡◌, ◌≤◌, ◌+◌, [], ◌∷◌, ◌++◌, length, map, false, Some, None, OnOk, IfOk, IfSome};
ghost use Rattle.std.specs.List.{flat_map, list_all, list_any};
ghost use Rattle.tree_spelling.specs.declared.primitive.Primitive.TheVariants.{Text};
ghost use Rattle.tree_codec.specs.Copying.{followed_by};
ghost use Rattle.filter_core.specs.Decision.{Makes};
ghost use Rattle.stock_filters.specs.CreateTopics.{topic_names, max_count, is_some_names, with_topics, has_message, refused_topic, refusal, or_zero, extended, with_refused, is_flagged, refused_names, go_on, back_with, KeepsRefused};

use crate::building::{finish, push, push_all, share};
use crate::versions::is_between;
use bytes::Bytes;
use filter_core::{Input, Move};
use kp_edge::NoMemory;
use kp_schema::Dir;
use std::alloc::Global;
use tree_codec::{Body, Builder, Primitive};

// The key of CreateTopics.
pub(crate) const CREATE_TOPICS: i16 = 19;

// The greatest count that an INT32 can say.
const MAX_COUNT: u64 = 2147483647;

/// What a filter of CreateTopics requests keeps: the request until it knows which topics may be created, and the names
/// of those that it refuses once it forwarded the others.
#[derive(Drop)]
pub struct Screened {
    pub(crate) request: Option<Body>,
    pub(crate) refuses: bool,
    pub(crate) refused: Vec<Option<Bytes>>,
}

impl Screened {
    // What it keeps of a request that goes on as it came.
    pub(crate) fn nothing(alloc: Global) -> Screened
        ensures request { result.request ≡ None }
        ensures refuses { result.refuses ≡ false }
    {
        Screened {
            request: None,
            refuses: false,
            refused: Vec::new(alloc),
        }
    }

    // What it keeps of a request while it asks.
    pub(crate) fn holding(alloc: Global, request: Body) -> Screened
        ensures { result.request ≡ Some request }
    {
        Screened {
            request: Some(request),
            refuses: false,
            refused: Vec::new(alloc),
        }
    }
}

// The names of a request's topics, in order.
pub(crate) fn topic_names(alloc: Global, request: &Body) -> Result<Vec<Option<Bytes>>, NoMemory>
    ensures { IfOk result (λ names. names.items ≡ topic_names request.now) }
{
    let none = None;
    let mut last = &none;
    let mut names = Vec::new(alloc);
    for item in request.items() {
        match item {
            Primitive::Text(text) => last = text,
            Primitive::Int16(_) => names.push(share(last)?)?,
            _ => {}
        }
    }
    Ok(names)
}

// Puts names as texts.
pub(crate) fn push_names(out: &mut Builder, names: &[Option<Bytes>]) -> Result<(), NoMemory>
    ensures { OnOk result (out.new ≡ followed_by out.old (map Text names.now)) }
{
    for name in names {
        push(out, &Primitive::Text(share(name)?))?;
    }
    Ok(())
}

// Whether there are some, and no more than a count can say.
pub(crate) fn is_some_names(names: &[Option<Bytes>]) -> bool
    ensures { result ≡ is_some_names names.now }
{
    !names.is_empty() && names.len() as u64 <= MAX_COUNT
}

// Forwards the topics whose flag is true, or answers at once where there is none.
pub(crate) fn go_on(
    alloc: Global,
    request: Body,
    flags: &[bool],
    error: i16,
) -> Result<Move<Screened>, NoMemory>
    ensures { IfOk result (λ made. Makes (λ (p : _). KeepsRefused request flags.now p.request p.refuses p.refused.items) (go_on error request flags.now) made) }
{
    if are_all(flags) {
        return Ok(Move::Forward(request, Screened::nothing(alloc)));
    }
    let names = topic_names(alloc, &request)?;
    if !is_any(flags) {
        let response = refusal(alloc, error, request.version(), names.as_slice())?;
        return Ok(Move::Return(Some(response)));
    }
    let pending = Screened {
        request: None,
        refuses: true,
        refused: refused_names(alloc, flags, names.as_slice())?,
    };
    Ok(Move::Forward(with_topics(request, flags)?, pending))
}

// Puts the refused topics behind those of the broker's answer.
pub(crate) fn come_back(
    alloc: Global,
    refuses: bool,
    refused: &[Option<Bytes>],
    input: Input,
    error: i16,
) -> Result<Move<Screened>, NoMemory>
    ensures { IfOk result (λ made. Makes (λ (p : _). ⊥) (back_with error refuses refused.now input) made) }
{
    let response = input.into_response();
    if !refuses {
        return Ok(Move::Return(response));
    }
    match response {
        Some(response) => {
            let whole = with_refused(alloc, error, refused, &response)?;
            Ok(Move::Return(Some(whole)))
        }
        None => Ok(Move::Return(None)),
    }
}

fn are_all(flags: &[bool]) -> bool
    ensures { result ≡ list_all is_flagged flags.now }
{
    for flag in flags {
        if !*flag {
            return false;
        }
    }
    true
}

fn is_any(flags: &[bool]) -> bool
    ensures { result ≡ list_any is_flagged flags.now }
{
    for flag in flags {
        if *flag {
            return true;
        }
    }
    false
}

fn refused_names(
    alloc: Global,
    flags: &[bool],
    names: &[Option<Bytes>],
) -> Result<Vec<Option<Bytes>>, NoMemory>
    ensures { IfOk result (λ refused. refused.items ≡ refused_names flags.now names.now) }
{
    let mut refused = Vec::new(alloc);
    let mut rest = flags;
    for name in names {
        let Some((flag, behind)) = rest.split_first() else {
            return Ok(refused);
        };
        if !*flag {
            refused.push(share(name)?)?;
        }
        rest = behind;
    }
    Ok(refused)
}

fn with_topics(mut request: Body, flags: &[bool]) -> Result<Body, NoMemory>
    ensures { IfOk result (λ new. new ≡ with_topics flags.now request) }
{
    request.is_tree();
    match request.retain(&[0], flags) {
        Ok(()) => Ok(request),
        Err(_) => Err(NoMemory),
    }
}

#[tactic(auto, using(std::proofs::lemmas::Int::ints))]
fn refusal(
    alloc: Global,
    error: i16,
    version: i16,
    names: &[Option<Bytes>],
) -> Result<Body, NoMemory>
    ensures { IfOk result (λ body. body ≡ refusal error version names.now) }
{
    let mut out = Builder::new(alloc, CREATE_TOPICS, version, Dir::Response);
    if is_between(version, 2, 4) {
        push(&mut out, &Primitive::Int32(0))?;
    }
    let Ok(count) = u32::try_from(names.len()) else {
        return Err(NoMemory);
    };
    push(&mut out, &Primitive::Count(Some(count)))?;
    let topics = refused_topics(alloc, is_between(version, 1, 4), error, names)?;
    push_all(&mut out, topics.as_slice())?;
    finish(out)
}

// The entries of an answer that refuses these topics.
fn refused_topics(
    alloc: Global,
    message: bool,
    error: i16,
    names: &[Option<Bytes>],
) -> Result<Vec<Primitive>, NoMemory>
    ensures { IfOk result (λ topics. topics.items ≡ flat_map (refused_topic message error) names.now) }
{
    let mut topics = Vec::new(alloc);
    for name in names {
        push_topic(&mut topics, message, error, name)?;
    }
    Ok(topics)
}

fn push_topic(
    topics: &mut Vec<Primitive>,
    message: bool,
    error: i16,
    name: &Option<Bytes>,
) -> Result<(), NoMemory>
    ensures { OnOk result (topics.new.items ≡ topics.old.items ++ refused_topic message error name.now) }
{
    topics.push(Primitive::Text(share(name)?))?;
    topics.push(Primitive::Int16(error))?;
    if message {
        topics.push(Primitive::Text(None))?;
    }
    Ok(())
}

#[tactic(auto, using(std::proofs::lemmas::Int::ints))]
fn with_refused(
    alloc: Global,
    error: i16,
    names: &[Option<Bytes>],
    response: &Body,
) -> Result<Body, NoMemory>
    ensures { IfOk result (λ body. body ≡ with_refused error names.now response.now) }
{
    let topics = refused_topics(alloc, has_message(response), error, names)?;
    let mut out = begin(alloc, response);
    push_extended(&mut out, names.len(), topics.as_slice(), response.items())?;
    finish(out)
}

// Another body of the same message.
#[tactic(auto, using(std::proofs::lemmas::Int::ints))]
fn begin(alloc: Global, body: &Body) -> Builder
    ensures { result ≡ record body.now { items = [] } }
{
    Builder::new(alloc, body.key(), body.version(), body.dir())
}

// Whether its topics have an error_message.
#[tactic(auto, using(std::proofs::lemmas::Int::ints))]
fn has_message(body: &Body) -> bool
    ensures { result ≡ has_message body.now.version }
{
    is_between(body.version(), 1, 4)
}

fn push_extended(
    out: &mut Builder,
    count: usize,
    more: &[Primitive],
    items: &[Primitive],
) -> Result<(), NoMemory>
    ensures { OnOk result (out.new ≡ followed_by out.old (extended count more.now items.now)) }
{
    let mut rest = items;
    while let Some((first, behind)) = rest.split_first() {
        if let Primitive::Count(entries) = first {
            let Some(count) = count_with(*entries, count) else {
                return Err(NoMemory);
            };
            push(out, &Primitive::Count(Some(count)))?;
            push_all(out, behind)?;
            return push_all(out, more);
        }
        push(out, first)?;
        rest = behind;
    }
    Ok(())
}

// So many more, if an INT32 can say how many there are then.
fn count_with(entries: Option<u32>, more: usize) -> Option<u32>
    ensures { IfSome result (λ count. (count ≡ or_zero entries + more) × (count ≤ max_count)) }
{
    let Ok(more) = u32::try_from(more) else {
        return None;
    };
    let entries = match entries {
        Some(entries) => entries,
        None => 0,
    };
    let count = entries.checked_add(more)?;
    if count as u64 > MAX_COUNT {
        return None;
    }
    Some(count)
}
