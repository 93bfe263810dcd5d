ghost use Rattle.std.specs.Prelude.{◌≡◌, IfOk, IfSome};
ghost use Rattle.virtual_cluster.specs.Limits.{IsValid};
ghost use Rattle.config_answers.specs.ClusterAnswers.{cluster_answer, served_cluster, IsServed};

use crate::answer::{CONFIG_LIMIT, refused};
use kp_edge::{Blob, NoMemory};
use proxy_config::{ConfigFault, read};
use std::alloc::Global;
use virtual_cluster::ClusterPlan;

/// What a configuration has under the name of a cluster.
#[derive(Debug, Drop)]
pub enum ClusterAnswer {
    /// The plan of that cluster.
    Found(ClusterPlan),
    /// There is none to serve, and this line says why.
    Refused(Blob),
}

/// The cluster of that name in a configuration with these bytes. One with a prefix isn't served yet. Of a longer
/// text than the limit, one byte past the limit tells as much as all of it.
#[tactic(auto, unfolding(crate::specs::ClusterAnswers::cluster_answer))]
pub fn cluster_answer(alloc: Global, name: &[u8], text: &[u8]) -> Result<ClusterAnswer, NoMemory>
    ensures found { IfOk result (λ found. found ≡ cluster_answer name.now text.now) }
    ensures served { IfOk result IsServed }
{
    if text.len() > CONFIG_LIMIT {
        return Ok(ClusterAnswer::Refused(refused(alloc, b"too-long")?));
    }
    match read(alloc, text) {
        Ok(plans) => served(alloc, plans.into_named(name)),
        Err(ConfigFault::NoMemory) => Err(NoMemory),
        Err(fault) => {
            let why = fault.text(alloc)?;
            Ok(ClusterAnswer::Refused(refused(alloc, why.as_slice())?))
        }
    }
}

fn served(alloc: Global, named: Option<ClusterPlan>) -> Result<ClusterAnswer, NoMemory>
    requires { IfSome named IsValid }
    ensures found { IfOk result (λ found. found ≡ served_cluster named) }
    ensures served { IfOk result IsServed }
{
    match named {
        Some(plan) if plan.prefix.is_none() => Ok(ClusterAnswer::Found(plan)),
        _ => Ok(ClusterAnswer::Refused(refused(alloc, b"no-cluster")?)),
    }
}
