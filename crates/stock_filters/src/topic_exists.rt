ghost use Rattle.std.specs.Prelude.{◌≡◌, [], ◌∷◌, pos, map, is_some, IfOk};
ghost use Rattle.std.specs.List.{list_any};
ghost use Rattle.filter_core.specs.Decision.{Makes};
ghost use Rattle.stock_filters.specs.CreateTopics.{go_on, KeepsRefused};
ghost use Rattle.stock_filters.specs.TopicExists.{asked_names, named_question, begins_known, is_known, is_new, metadata_items, exists_flags};

use crate::building::{finish, push};
use crate::create_topics::{
    CREATE_TOPICS, Screened, come_back, go_on, is_some_names, push_names, topic_names,
};
use bytes::Bytes;
use filter_core::{Filter, Input, Move};
use kp_edge::NoMemory;
use kp_schema::Dir;
use std::alloc::Global;
use tree_codec::{Body, Builder, Primitive};

// The error TOPIC_ALREADY_EXISTS.
const REFUSED: i16 = 36;

// The key of Metadata.
const METADATA: i16 = 3;

/// `topic-exists`: topics of a CreateTopics request that the broker has already are refused with TOPIC_ALREADY_EXISTS
/// (36), before the request is forwarded. The broker is asked about all of them aside, by Metadata of version 4 ("The
/// Messages: Metadata API").
#[derive(Drop)]
pub struct TopicExists;

impl Filter for TopicExists {
    ghost use Rattle.std.specs.Prelude.{pos};
    ghost use Rattle.stock_filters.specs.CreateTopics.{IsScreening};
    ghost use Rattle.stock_filters.specs.TopicExists.{creates_named, exists_question, exists_flags, topic_exists, topic_exists_lawful};

    type Pending = Screened;

    ghost turn = { λ _. topic_exists };

    ghost stands = { λ _ pending request inputs. IsScreening creates_named exists_question exists_flags (pos 36) pending.request pending.refuses pending.refused.items request inputs };

    fn start(&self, alloc: Global, request: Body) -> Result<Move<Screened>, NoMemory> {
        if request.key() != CREATE_TOPICS {
            return Ok(Move::Forward(request, Screened::nothing(alloc)));
        }
        let names = topic_names(alloc, &request)?;
        if !is_some_names(names.as_slice()) || !is_any_named(names.as_slice()) {
            return Ok(Move::Forward(request, Screened::nothing(alloc)));
        }
        let question = named_question(alloc, names.as_slice())?;
        Ok(Move::Side(question, Screened::holding(alloc, request)))
    }

    fn resume(
        &self,
        alloc: Global,
        pending: Screened,
        input: Input,
    ) -> Result<Move<Screened>, NoMemory> {
        let Screened {
            request,
            refuses,
            refused,
        } = pending;
        let Some(request) = request else {
            return come_back(alloc, refuses, refused.as_slice(), input, REFUSED);
        };
        judge(alloc, request, &input)
    }

    ghost forwards_once = { λ _. topic_exists_lawful.forwards_once };

    ghost ends_after_six = { λ _. topic_exists_lawful.ends_after_six };

    ghost forwards_the_same = { λ _. topic_exists_lawful.forwards_the_same };

    ghost questions_are_answered = { λ _. topic_exists_lawful.questions_are_answered };

    ghost returns_an_answer = { λ _. topic_exists_lawful.returns_an_answer };
}

// Goes on with the topics that don't exist.
fn judge(alloc: Global, request: Body, input: &Input) -> Result<Move<Screened>, NoMemory>
    ensures { IfOk result (λ made. Makes (λ (p : _). KeepsRefused request (exists_flags request input.now) p.request p.refuses p.refused.items) (go_on (pos 36) request (exists_flags request input.now)) made) }
{
    let names = topic_names(alloc, &request)?;
    let flags = new_flags(alloc, metadata_items(input), names.as_slice())?;
    go_on(alloc, request, flags.as_slice(), REFUSED)
}

fn is_any_named(names: &[Option<Bytes>]) -> bool
    ensures { result ≡ list_any is_some names.now }
{
    for name in names {
        if let Some(_) = name {
            return true;
        }
    }
    false
}

// The question about the topics that have a name.
fn named_question(alloc: Global, names: &[Option<Bytes>]) -> Result<Body, NoMemory>
    ensures { IfOk result (λ body. body ≡ named_question (asked_names names.now)) }
{
    let asked = asked_names(alloc, names)?;
    let Ok(count) = u32::try_from(asked.len()) else {
        return Err(NoMemory);
    };
    let mut out = Builder::new(alloc, METADATA, 4, Dir::Request);
    push(&mut out, &Primitive::Count(Some(count)))?;
    push_names(&mut out, asked.as_slice())?;
    push(&mut out, &Primitive::Boolean(0))?;
    finish(out)
}

fn asked_names(alloc: Global, names: &[Option<Bytes>]) -> Result<Vec<Option<Bytes>>, NoMemory>
    ensures { IfOk result (λ asked. asked.items ≡ asked_names names.now) }
{
    let mut asked = Vec::new(alloc);
    for name in names {
        if let Some(text) = name {
            let Ok(same) = text.clone() else {
                return Err(NoMemory);
            };
            asked.push(Some(same))?;
        }
    }
    Ok(asked)
}

// The items of the broker's answer.
fn metadata_items(input: &Input) -> &[Primitive]
    ensures { result.now ≡ metadata_items input.now }
{
    match input {
        Input::Response(response) => response.items(),
        Input::NoResponse | Input::Verdict(_) => &[],
    }
}

// Which topics the broker doesn't have.
fn new_flags(
    alloc: Global,
    items: &[Primitive],
    names: &[Option<Bytes>],
) -> Result<Vec<bool>, NoMemory>
    ensures { IfOk result (λ flags. flags.items ≡ map (is_new items.now) names.now) }
{
    let mut flags = Vec::new(alloc);
    for name in names {
        flags.push(is_new(items, name))?;
    }
    Ok(flags)
}

fn is_new(items: &[Primitive], name: &Option<Bytes>) -> bool
    ensures { result ≡ is_new items.now name.now }
{
    match name {
        Some(name) => !is_known(name.as_slice(), items),
        None => true,
    }
}

fn is_known(name: &[u8], items: &[Primitive]) -> bool
    ensures { result ≡ is_known name.now items.now }
{
    let mut rest = items;
    while let Some((_, behind)) = rest.split_first() {
        if begins_known(name, rest) {
            return true;
        }
        rest = behind;
    }
    false
}

fn begins_known(name: &[u8], items: &[Primitive]) -> bool
    ensures { result ≡ begins_known name.now items.now }
{
    match items {
        [Primitive::Int16(error), Primitive::Text(Some(known)), ..] => *error == 0
            && known.as_slice() == name,
        _ => false,
    }
}
