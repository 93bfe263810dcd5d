ghost use Rattle.std.specs.Prelude.{◌≡◌, [], ◌∷◌, drop, OnOk, IfOk};
ghost use Rattle.std.specs.List.{flat_map, list_any};
ghost use Rattle.tree_codec.specs.Copying.{followed_by};
ghost use Rattle.stock_filters.specs.TopicDeny.{is_denied_topic, names_listed, is_denied, denied_item, denied_partition, denial};

use crate::building::{push, push_all};
use crate::forwarded::Forwarded;
use crate::produce::{PRODUCE, is_produce};
use crate::versions::is_between;
use filter_core::{Filter, Input, Move};
use kp_edge::{Blob, NoMemory};
use kp_schema::Dir;
use std::alloc::Global;
use tree_codec::{Body, Builder, Primitive};

// The error TOPIC_AUTHORIZATION_FAILED.
const DENIED: i16 = 29;

/// `topic-deny`: a Produce request with one of these topics is answered at once, and each of its partitions is
/// refused with TOPIC_AUTHORIZATION_FAILED (29).
#[derive(Drop)]
pub struct TopicDeny {
    pub topics: Vec<Blob>,
}

impl Filter for TopicDeny {
    ghost use Rattle.std.specs.Prelude.{◌≡◌, []};
    ghost use Rattle.filter_core.specs.TwoTurns.{handed_back};
    ghost use Rattle.stock_filters.specs.TopicDeny.{deny, topic_deny, topic_deny_keeps};
    ghost use Rattle.filter_core.specs.Lawful.{forwards_once, ends_after_six, forwards_the_same, questions_are_answered, returns_an_answer};

    type Pending = Forwarded;

    ghost turn = { λ filter. topic_deny filter.topics.items };

    ghost stands = { λ _ _ _ inputs. inputs ≡ [] };

    fn start(&self, alloc: Global, request: Body) -> Result<Move<Forwarded>, NoMemory> {
        if !self.denies(&request) {
            return Ok(Move::Forward(request, Forwarded));
        }
        Ok(Move::Return(Some(denial(alloc, &request)?)))
    }

    fn resume(
        &self,
        _alloc: Global,
        _pending: Forwarded,
        input: Input,
    ) -> Result<Move<Forwarded>, NoMemory> {
        Ok(Move::Return(input.into_response()))
    }

    ghost forwards_once = { λ filter. forwards_once (deny filter.topics.items) handed_back (topic_deny_keeps filter.topics.items) };

    ghost ends_after_six = { λ filter. ends_after_six (deny filter.topics.items) handed_back (topic_deny_keeps filter.topics.items) };

    ghost forwards_the_same = { λ filter. forwards_the_same (deny filter.topics.items) handed_back (topic_deny_keeps filter.topics.items) };

    ghost questions_are_answered = { λ filter. questions_are_answered (deny filter.topics.items) handed_back (topic_deny_keeps filter.topics.items) };

    ghost returns_an_answer = { λ filter. returns_an_answer (deny filter.topics.items) handed_back (topic_deny_keeps filter.topics.items) };
}

impl TopicDeny {
    fn denies(&self, request: &Body) -> bool
        ensures { result ≡ is_denied self.now.topics.items request.now }
    {
        is_produce(request) && self.name_one(topic_items(request.items()))
    }

    fn name_one(&self, items: &[Primitive]) -> bool
        ensures { result ≡ list_any (names_listed self.now.topics.items) items.now }
    {
        for item in items {
            if self.is_named(item) {
                return true;
            }
        }
        false
    }

    fn is_named(&self, item: &Primitive) -> bool
        ensures { result ≡ names_listed self.now.topics.items item.now }
    {
        match item {
            Primitive::Text(Some(name)) => self.lists(name.as_slice()),
            _ => false,
        }
    }

    fn lists(&self, name: &[u8]) -> bool
        ensures { result ≡ is_denied_topic self.now.topics.items name.now }
    {
        for listed in &self.topics {
            if listed.as_slice() == name {
                return true;
            }
        }
        false
    }
}

// The items behind transactional_id, acks and timeout_ms.
fn topic_items(items: &[Primitive]) -> &[Primitive]
    ensures { result.now ≡ drop 3 items.now }
{
    match items {
        [_, _, _, topics @ ..] => topics,
        _ => &[],
    }
}

// The answer that denies a Produce request.
fn denial(alloc: Global, request: &Body) -> Result<Body, NoMemory>
    ensures { IfOk result (λ body. body ≡ denial request.now) }
{
    let version = request.version();
    let log_start = is_between(version, 5, 8);
    let errors = is_between(version, 8, 8);
    let mut out = Builder::new(alloc, PRODUCE, version, Dir::Response);
    push_denied(&mut out, log_start, errors, topic_items(request.items()))?;
    push_all(&mut out, &[Primitive::Int32(0)])?;
    match out.finish() {
        Ok(body) => Ok(body),
        Err(_) => Err(NoMemory),
    }
}

fn push_denied(
    out: &mut Builder,
    log_start: bool,
    errors: bool,
    items: &[Primitive],
) -> Result<(), NoMemory>
    ensures { OnOk result (out.new ≡ followed_by out.old (flat_map (denied_item log_start errors) items.now)) }
{
    for asked in items {
        match asked {
            Primitive::Int32(index) => push_partition(out, log_start, errors, *index)?,
            Primitive::Binary(_) => {}
            other => push(out, other)?,
        }
    }
    Ok(())
}

// The answer for one partition.
fn push_partition(
    out: &mut Builder,
    log_start: bool,
    errors: bool,
    index: i32,
) -> Result<(), NoMemory>
    ensures { OnOk result (out.new ≡ followed_by out.old (denied_partition log_start errors index)) }
{
    push_all(
        out,
        &[
            Primitive::Int32(index),
            Primitive::Int16(DENIED),
            Primitive::Int64(-1),
            Primitive::Int64(-1),
        ],
    )?;
    if log_start {
        push_all(out, &[Primitive::Int64(-1)])?;
    }
    if errors {
        push_all(out, &[Primitive::Count(Some(0)), Primitive::Text(None)])?;
    }
    Ok(())
}
