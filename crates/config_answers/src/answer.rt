ghost use Rattle.std.specs.Prelude.{◌≡◌, ◌++◌, codes, decimal, IfOk, OnOk};
ghost use Rattle.proxy_config.specs.Meant.{meant_by};
ghost use Rattle.config_answers.specs.ConfigAnswers.{config_answer, asked_text, refused_text};

use crate::asked::Asked;
use crate::plan_text::{put, put_number, put_plans};
use kp_edge::{Blob, NoMemory};
use proxy_config::{ConfigFault, read};
use std::alloc::Global;
use virtual_cluster::Plans;

/// The most bytes of a configuration.
pub const CONFIG_LIMIT: usize = 1_048_576;

/// All that is written of a configuration.
#[derive(Debug, Drop)]
pub enum ConfigAnswer {
    /// It holds. This is what was asked.
    Holds(Blob),
    /// It is refused, and this line says why.
    Refused(Blob),
}

/// The answer to a configuration with these bytes. Of a longer one than the limit, one byte past the limit tells as
/// much as all of it.
#[tactic(auto, unfolding(crate::specs::ConfigAnswers::config_answer))]
pub fn config_answer(alloc: Global, asked: Asked, text: &[u8]) -> Result<ConfigAnswer, NoMemory>
    ensures { IfOk result (λ found. found ≡ config_answer asked text.now) }
{
    if text.len() > CONFIG_LIMIT {
        return Ok(ConfigAnswer::Refused(refused(alloc, b"too-long")?));
    }
    match read(alloc, text) {
        Ok(plans) => Ok(ConfigAnswer::Holds(told(alloc, asked, &plans)?)),
        Err(ConfigFault::NoMemory) => Err(NoMemory),
        Err(fault) => {
            let why = fault.text(alloc)?;
            Ok(ConfigAnswer::Refused(refused(alloc, why.as_slice())?))
        }
    }
}

// The line of a refusal.
pub(crate) fn refused(alloc: Global, why: &[u8]) -> Result<Blob, NoMemory>
    ensures { IfOk result (λ line. line ≡ refused_text why.now) }
{
    let mut line = Vec::new(alloc);
    put(&mut line, b"refused ")?;
    put(&mut line, why)?;
    put(&mut line, b"\n")?;
    Ok(Blob::from_vec(line))
}

// What is asked of the plans.
fn told(alloc: Global, asked: Asked, plans: &Plans) -> Result<Blob, NoMemory>
    ensures { IfOk result (λ text. text ≡ asked_text asked plans.now) }
{
    let mut text = Vec::new(alloc);
    match asked {
        Asked::Check => put_count(alloc, &mut text, plans.list().len())?,
        Asked::Plan => put_plans(alloc, &mut text, plans.list())?,
    }
    Ok(Blob::from_vec(text))
}

fn put_count(alloc: Global, text: &mut Vec<u8>, count: usize) -> Result<(), NoMemory>
    ensures { OnOk result (text.new.items ≡ text.old.items ++ (codes "ok " ++ decimal count ++ codes "\n")) }
{
    put(text, b"ok ")?;
    put_number(alloc, text, count as u64)?;
    put(text, b"\n")
}
