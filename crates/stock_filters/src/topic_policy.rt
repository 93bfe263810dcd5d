ghost use Rattle.std.specs.Prelude.{◌≡◌, [], ◌∷◌, pos, IfOk};
ghost use Rattle.tree_spelling.specs.Spelling.{spelling};
ghost use Rattle.stock_filters.specs.TopicPolicy.{name_items, allowed_flags, verdict_given, policy_flags};
ghost use Rattle.stock_filters.specs.CreateTopics.{go_on, KeepsRefused};
ghost use Rattle.filter_core.specs.Decision.{Makes};

use crate::building::{finish, push};
use crate::create_topics::{
    CREATE_TOPICS, Screened, come_back, go_on, is_some_names, push_names, topic_names,
};
use bytes::Bytes;
use filter_core::{Filter, Input, Move};
use kp_edge::{Blob, NoMemory};
use kp_schema::Dir;
use std::alloc::Global;
use tree_codec::{Body, Builder, Primitive, encode};

// The error TOPIC_AUTHORIZATION_FAILED.
const REFUSED: i16 = 29;

// The key of DescribeGroups, whose requests of version 0 are an array of STRING.
const STRINGS: i16 = 15;

/// `topic-policy`: an authority says which topics of a CreateTopics request may be created. It is asked by an array of
/// STRING with their names. Byte i of its verdict allows topic i where it is 0. The others are refused with
/// TOPIC_AUTHORIZATION_FAILED (29).
#[derive(Drop)]
pub struct TopicPolicy;

impl Filter for TopicPolicy {
    ghost use Rattle.std.specs.Prelude.{pos};
    ghost use Rattle.stock_filters.specs.CreateTopics.{creates_topics, IsScreening};
    ghost use Rattle.stock_filters.specs.TopicPolicy.{policy_question, policy_flags, topic_policy, topic_policy_lawful};

    type Pending = Screened;

    ghost turn = { λ _. topic_policy };

    ghost stands = { λ _ pending request inputs. IsScreening creates_topics policy_question policy_flags (pos 29) pending.request pending.refuses pending.refused.items request inputs };

    fn start(&self, alloc: Global, request: Body) -> Result<Move<Screened>, NoMemory> {
        if request.key() != CREATE_TOPICS {
            return Ok(Move::Forward(request, Screened::nothing(alloc)));
        }
        let names = topic_names(alloc, &request)?;
        if !is_some_names(names.as_slice()) {
            return Ok(Move::Forward(request, Screened::nothing(alloc)));
        }
        let key = spelled_names(alloc, names.as_slice())?;
        Ok(Move::Hold(key, Screened::holding(alloc, request)))
    }

    fn resume(
        &self,
        alloc: Global,
        pending: Screened,
        input: Input,
    ) -> Result<Move<Screened>, NoMemory> {
        let Screened {
            request,
            refuses,
            refused,
        } = pending;
        let Some(request) = request else {
            return come_back(alloc, refuses, refused.as_slice(), input, REFUSED);
        };
        judge(alloc, request, &input)
    }

    ghost forwards_once = { λ _. topic_policy_lawful.forwards_once };

    ghost ends_after_six = { λ _. topic_policy_lawful.ends_after_six };

    ghost forwards_the_same = { λ _. topic_policy_lawful.forwards_the_same };

    ghost questions_are_answered = { λ _. topic_policy_lawful.questions_are_answered };

    ghost returns_an_answer = { λ _. topic_policy_lawful.returns_an_answer };
}

// Goes on as the verdict says.
fn judge(alloc: Global, request: Body, input: &Input) -> Result<Move<Screened>, NoMemory>
    ensures { IfOk result (λ made. Makes (λ (p : _). KeepsRefused request (policy_flags request input.now) p.request p.refuses p.refused.items) (go_on (pos 29) request (policy_flags request input.now)) made) }
{
    let names = topic_names(alloc, &request)?;
    let flags = allowed_flags(alloc, names.as_slice(), verdict_given(input))?;
    go_on(alloc, request, flags.as_slice(), REFUSED)
}

// An array of STRING, spelled.
fn spelled_names(alloc: Global, names: &[Option<Bytes>]) -> Result<Blob, NoMemory>
    ensures { IfOk result (λ key. key ≡ spelling (name_items names.now)) }
{
    let Ok(count) = u32::try_from(names.len()) else {
        return Err(NoMemory);
    };
    let mut out = Builder::new(alloc, STRINGS, 0, Dir::Request);
    push(&mut out, &Primitive::Count(Some(count)))?;
    push_names(&mut out, names)?;
    let body = finish(out)?;
    match encode(alloc, &body, u64::MAX) {
        Ok(bytes) => Blob::copy(alloc, bytes.as_slice()),
        Err(_) => Err(NoMemory),
    }
}

fn verdict_given(input: &Input) -> &[u8]
    ensures { result.now ≡ verdict_given input.now }
{
    match input {
        Input::Verdict(verdict) => verdict.as_slice(),
        Input::Response(_) | Input::NoResponse => &[],
    }
}

// Which topics the verdict allows.
fn allowed_flags(
    alloc: Global,
    names: &[Option<Bytes>],
    verdict: &[u8],
) -> Result<Vec<bool>, NoMemory>
    ensures { IfOk result (λ flags. flags.items ≡ allowed_flags names.now verdict.now) }
{
    let mut flags = Vec::new(alloc);
    let mut rest = verdict;
    for name in names {
        let _ = name;
        match rest.split_first() {
            Some((byte, behind)) => {
                flags.push(*byte == 0)?;
                rest = behind;
            }
            None => flags.push(false)?,
        }
    }
    Ok(flags)
}
