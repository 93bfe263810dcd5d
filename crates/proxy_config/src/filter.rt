ghost use Rattle.std.specs.Prelude.{◌≡◌, IfOk};
ghost use Rattle.proxy_config.specs.Texts.{filter_of};

use crate::comma_list::{blocked_keys, denied_topics};
use kp_edge::NoMemory;
use std::alloc::Global;
use virtual_cluster::FilterPlan;

// The filter that a text asks for.
#[tactic(auto, unfolding(crate::specs::Texts::filter_of))]
pub(crate) fn filter(alloc: Global, text: &[u8]) -> Result<Option<FilterPlan>, NoMemory>
    ensures { IfOk result (λ found. found ≡ filter_of text.now) }
{
    if text == b"produce-all".as_slice() {
        return Ok(Some(FilterPlan::ProduceAll));
    }
    if text == b"topic-policy".as_slice() {
        return Ok(Some(FilterPlan::TopicPolicy));
    }
    if text == b"topic-exists".as_slice() {
        return Ok(Some(FilterPlan::TopicExists));
    }
    if text == b"group-live".as_slice() {
        return Ok(Some(FilterPlan::GroupLive));
    }
    if let Some(topics) = text.strip_prefix(b"topic-deny:") {
        return match denied_topics(alloc, topics)? {
            Some(topics) => Ok(Some(FilterPlan::TopicDeny(topics))),
            None => Ok(None),
        };
    }
    if let Some(keys) = text.strip_prefix(b"api-block:") {
        return match blocked_keys(alloc, keys)? {
            Some(keys) => Ok(Some(FilterPlan::ApiBlock(keys))),
            None => Ok(None),
        };
    }
    Ok(None)
}
