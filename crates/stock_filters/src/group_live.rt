ghost use Rattle.std.specs.Prelude.{◌≡◌, [], ◌∷◌, length, map, OnOk, IfOk, IfSome, MatchOption};
ghost use Rattle.tree_spelling.specs.declared.primitive.Primitive.TheVariants.{Text};
ghost use Rattle.tree_codec.specs.Copying.{followed_by};
ghost use Rattle.filter_core.specs.Decision.{Makes};
ghost use Rattle.stock_filters.specs.GroupLive.{listed_items, group_ids, group_question, begins_dead, is_dead, is_gone, live_items, live_count, live_answer, live_response, on_listing, described_by, KeepsListing, HasNoGroup, id_item};

use crate::building::{finish, push, share};
use bytes::Bytes;
use filter_core::{Filter, Input, Move};
use kp_edge::NoMemory;
use kp_schema::Dir;
use std::alloc::Global;
use tree_codec::{Body, Builder, Primitive};

// The keys of ListGroups and of DescribeGroups.
const LIST_GROUPS: i16 = 16;

const DESCRIBE_GROUPS: i16 = 15;

/// What [`GroupLive`] keeps: whether it forwarded a ListGroups request, or the answer to one.
#[derive(Drop)]
pub struct Listing {
    lists: bool,
    listing: Option<Body>,
}

/// `group-live`: of the groups that a broker lists pass those that aren't dead. The broker is asked about all of them
/// aside, by DescribeGroups of version 0 ("The Messages: DescribeGroups API").
#[derive(Drop)]
pub struct GroupLive;

impl Filter for GroupLive {
    ghost use Rattle.stock_filters.specs.GroupLive.{group_live, IsWaitingForGroups};
    ghost use Rattle.stock_filters.specs.GroupLaws.{group_live_lawful};

    type Pending = Listing;

    ghost turn = { λ _. group_live };

    ghost stands = { λ _ pending request inputs. IsWaitingForGroups pending.lists pending.listing request inputs };

    fn start(&self, _alloc: Global, request: Body) -> Result<Move<Listing>, NoMemory> {
        let lists = request.key() == LIST_GROUPS;
        let pending = Listing {
            lists,
            listing: None,
        };
        Ok(Move::Forward(request, pending))
    }

    fn resume(
        &self,
        alloc: Global,
        pending: Listing,
        input: Input,
    ) -> Result<Move<Listing>, NoMemory> {
        let Listing { lists, listing } = pending;
        if let Some(listing) = listing {
            let live = live_response(alloc, described_by(&input), &listing)?;
            return Ok(Move::Return(Some(live)));
        }
        if lists {
            return ask(alloc, input);
        }
        Ok(Move::Return(input.into_response()))
    }

    ghost forwards_once = { λ _. group_live_lawful.forwards_once };

    ghost ends_after_six = { λ _. group_live_lawful.ends_after_six };

    ghost forwards_the_same = { λ _. group_live_lawful.forwards_the_same };

    ghost questions_are_answered = { λ _. group_live_lawful.questions_are_answered };

    ghost returns_an_answer = { λ _. group_live_lawful.returns_an_answer };
}

// Asks about the groups of the first answer.
fn ask(alloc: Global, input: Input) -> Result<Move<Listing>, NoMemory>
    ensures { IfOk result (λ made. Makes (λ (p : _). KeepsListing p.listing input) (on_listing input) made) }
{
    let listing = match input {
        Input::Response(listing) => listing,
        Input::NoResponse | Input::Verdict(_) => return Ok(Move::Return(None)),
    };
    let groups = listed_items(listing.items());
    let Some(count) = id_count(groups) else {
        return Err(NoMemory);
    };
    if count == 0 {
        return Ok(Move::Return(Some(listing)));
    }
    let question = group_question(alloc, count, groups)?;
    let pending = Listing {
        lists: true,
        listing: Some(listing),
    };
    Ok(Move::Side(question, pending))
}

// The groups that an answer lists.
fn listed_items(items: &[Primitive]) -> &[Primitive]
    ensures { result.now ≡ listed_items items.now }
{
    let mut rest = items;
    while let Some((first, behind)) = rest.split_first() {
        if let Primitive::Count(Some(_)) = first {
            return behind;
        }
        rest = behind;
    }
    rest
}

// The first group's id and protocol type, and what follows it.
fn split_group(items: &[Primitive]) -> Option<(&Option<Bytes>, &Option<Bytes>, &[Primitive])>
    ensures { MatchOption result (HasNoGroup items.now)
        (λ found. items.now ≡ Text found.0.now ∷ (Text found.1.now ∷ found.2.now)) }
{
    match items {
        [Primitive::Text(id), Primitive::Text(protocol), behind @ ..] => {
            Some((id, protocol, behind))
        }
        _ => None,
    }
}

// How many groups have an id, if an INT32 can say so.
fn id_count(groups: &[Primitive]) -> Option<u32>
    ensures { IfSome result (λ count. count ≡ length (group_ids groups.now)) }
{
    let mut count = 0u32;
    let mut rest = groups;
    while let Some((id, _, behind)) = split_group(rest) {
        if id.is_some() {
            count = count.checked_add(1)?;
        }
        rest = behind;
    }
    Some(count)
}

// The question about all groups that have an id.
fn group_question(alloc: Global, count: u32, groups: &[Primitive]) -> Result<Body, NoMemory>
    requires { count ≡ length (group_ids groups.now) }
    ensures { IfOk result (λ body. body ≡ group_question (group_ids groups.now)) }
{
    let mut out = Builder::new(alloc, DESCRIBE_GROUPS, 0, Dir::Request);
    push(&mut out, &Primitive::Count(Some(count)))?;
    push_ids(&mut out, groups)?;
    finish(out)
}

fn push_ids(out: &mut Builder, groups: &[Primitive]) -> Result<(), NoMemory>
    ensures { OnOk result (out.new ≡ followed_by out.old (map id_item (group_ids groups.now))) }
{
    let mut rest = groups;
    while let Some((id, _, behind)) = split_group(rest) {
        if let Some(id) = id {
            push_text(out, id)?;
        }
        rest = behind;
    }
    Ok(())
}

fn push_text(out: &mut Builder, text: &Bytes) -> Result<(), NoMemory>
    ensures { OnOk result (out.new ≡ followed_by out.old (id_item text.now ∷ [])) }
{
    match text.clone() {
        Ok(same) => push(out, &Primitive::Text(Some(same))),
        Err(_) => Err(NoMemory),
    }
}

// The items of the second answer.
fn described_by(input: &Input) -> &[Primitive]
    ensures { result.now ≡ described_by input.now }
{
    match input {
        Input::Response(response) => response.items(),
        Input::NoResponse | Input::Verdict(_) => &[],
    }
}

// The first answer without the groups that are dead.
#[tactic(auto, using(std::proofs::lemmas::Int::ints))]
fn live_response(alloc: Global, described: &[Primitive], response: &Body) -> Result<Body, NoMemory>
    ensures { IfOk result (λ body. body ≡ live_response described.now response.now) }
{
    let mut out = Builder::new(alloc, response.key(), response.version(), response.dir());
    push_live(&mut out, described, response.items())?;
    finish(out)
}

fn push_live(
    out: &mut Builder,
    described: &[Primitive],
    items: &[Primitive],
) -> Result<(), NoMemory>
    ensures { OnOk result (out.new ≡ followed_by out.old (live_answer described.now items.now)) }
{
    let mut rest = items;
    while let Some((first, behind)) = rest.split_first() {
        if let Primitive::Count(Some(_)) = first {
            let Some(count) = live_count(described, behind) else {
                return Err(NoMemory);
            };
            push(out, &Primitive::Count(Some(count)))?;
            return push_groups(out, described, behind);
        }
        push(out, first)?;
        rest = behind;
    }
    Ok(())
}

fn push_groups(
    out: &mut Builder,
    described: &[Primitive],
    groups: &[Primitive],
) -> Result<(), NoMemory>
    ensures { OnOk result (out.new ≡ followed_by out.old (live_items described.now groups.now)) }
{
    let mut rest = groups;
    while let Some((id, protocol, behind)) = split_group(rest) {
        if !is_gone(described, id) {
            push_texts(out, id, protocol)?;
        }
        rest = behind;
    }
    Ok(())
}

fn push_texts(
    out: &mut Builder,
    first: &Option<Bytes>,
    second: &Option<Bytes>,
) -> Result<(), NoMemory>
    ensures { OnOk result (out.new ≡ followed_by out.old (Text first.now ∷ (Text second.now ∷ []))) }
{
    push(out, &Primitive::Text(share(first)?))?;
    push(out, &Primitive::Text(share(second)?))
}

// How many groups stay, if an INT32 can say so.
fn live_count(described: &[Primitive], groups: &[Primitive]) -> Option<u32>
    ensures { IfSome result (λ count. count ≡ live_count described.now groups.now) }
{
    let mut count = 0u32;
    let mut rest = groups;
    while let Some((id, _, behind)) = split_group(rest) {
        if !is_gone(described, id) {
            count = count.checked_add(1)?;
        }
        rest = behind;
    }
    Some(count)
}

fn is_gone(described: &[Primitive], id: &Option<Bytes>) -> bool
    ensures { result ≡ is_gone described.now id.now }
{
    match id {
        Some(id) => is_dead(id.as_slice(), described),
        None => false,
    }
}

// Whether the second answer says of this group that it is dead.
fn is_dead(id: &[u8], described: &[Primitive]) -> bool
    ensures { result ≡ is_dead id.now described.now }
{
    let mut rest = described;
    while let Some((_, behind)) = rest.split_first() {
        if begins_dead(id, rest) {
            return true;
        }
        rest = behind;
    }
    false
}

fn begins_dead(id: &[u8], items: &[Primitive]) -> bool
    ensures { result ≡ begins_dead id.now items.now }
{
    match items {
        [
            Primitive::Int16(_),
            Primitive::Text(Some(group)),
            Primitive::Text(Some(state)),
            ..
        ] => group.as_slice() == id && state.as_slice() == b"Dead".as_slice(),
        _ => false,
    }
}
