ghost use Rattle.std.specs.Prelude.{◌≡◌, ◌<◌, ◌==◌, ◌∷◌, length, IfOk, IfSome, position};
ghost use Rattle.proxy_config.specs.Texts.{comma_parts, denied_topics, blocked_keys};
ghost use Rattle.proxy_config.specs.Steps.{parts_behind};

use crate::number::short_number;
use kp_edge::{Blob, NoMemory};
use std::alloc::Global;
use virtual_cluster::Sequence;

// Where the first comma is.
fn first_comma(text: &[u8]) -> Option<usize>
    ensures first { result ≡ position (λ c. c == 44) text.now }
    ensures within { IfSome result (λ i. i < length text.now) }
{
    text.iter().position(|c| *c == b',')
}

// The part up to the first comma, and what stands behind the comma if there is one.
fn first_part(text: &[u8]) -> (&[u8], Option<&[u8]>)
    ensures parts { comma_parts text.now ≡ result.0.now ∷ parts_behind result.1 }
    ensures shorter { IfSome result.1 (λ behind. length behind.now < length text.now) }
{
    match first_comma(text) {
        Some(comma) => (&text[..comma], Some(&text[comma + 1..])),
        None => (text, None),
    }
}

// The topics of a list, if none of them is empty.
#[tactic(auto, unfolding(crate::specs::Texts::denied_topics))]
pub(crate) fn denied_topics(alloc: Global, text: &[u8]) -> Result<Option<Sequence<Blob>>, NoMemory>
    ensures { IfOk result (λ topics. topics ≡ denied_topics text.now) }
{
    let mut topics = Vec::new(alloc);
    let mut rest = Some(text);
    while let Some(text) = rest {
        let (topic, behind) = first_part(text);
        if topic.is_empty() {
            return Ok(None);
        }
        topics.push(Blob::copy(alloc, topic)?)?;
        rest = behind;
    }
    Ok(Some(Sequence::from_vec(topics)))
}

// The API keys of a list, if each part is one.
#[tactic(auto, unfolding(crate::specs::Texts::blocked_keys))]
pub(crate) fn blocked_keys(alloc: Global, text: &[u8]) -> Result<Option<Sequence<i16>>, NoMemory>
    ensures { IfOk result (λ keys. keys ≡ blocked_keys text.now) }
{
    let mut keys = Vec::new(alloc);
    let mut rest = Some(text);
    while let Some(text) = rest {
        let (part, behind) = first_part(text);
        match short_number(32_767, part) {
            Some(key) => keys.push(key as i16)?,
            None => return Ok(None),
        }
        rest = behind;
    }
    Ok(Some(Sequence::from_vec(keys)))
}
