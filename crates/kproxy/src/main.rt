//! The program kproxy: it hands the machine's streams and files, and the words behind its own name, to
//! [`proxy_main::run_command`], and ends with the number of the status that comes back.
//!
//! ```text
//!   arguments ── words_of ──► run_command ──► exit ── status
//!                               │     │
//!                          input│     │output
//! ```
//!
//! What the words mean, and what is written for them, is told in `proxy_main`.
#![tactic(auto)]

ghost use Rattle.std.specs.Prelude.{◌≡◌, [], drop, IfOk, IfErr, IsOkAnd, IsErr};
ghost use Rattle.std.specs.IoError.{error_kind};
ghost use Rattle.std.specs.Process.{exit_status};
ghost use Rattle.std.specs.Vec.Iter.{into_iter_items};
ghost use Rattle.std.specs.declared.io.ErrorKind.TheVariants.{InvalidData};
ghost use Rattle.proxy_main.specs.Words.{status_number};

use kp_edge::{HostFiles, NoMemory, StdIn, StdOut, Steps};
use proxy_main::{Status, run_command};
use std::alloc::Global;
use std::env::{Args, args};
use std::io;
use std::io::ErrorKind;
use std::process::ExitCode;

fn main(rt: HostRuntime) -> ExitCode {
    exit(command(&rt))
}

fn command(rt: &HostRuntime) -> Result<Status, NoMemory> {
    let words = words_of(rt.alloc(), args(rt))?;
    let mut input = StdIn::new(rt)?;
    let mut out = StdOut::new(rt)?;
    let mut files = HostFiles::new(rt)?;
    let mut steps = Steps::<()>::new();
    Ok(run_command(
        rt.alloc(),
        words.as_slice(),
        &mut input,
        &mut out,
        &mut files,
        &mut steps,
    ))
}

// The command's words, from the program's arguments. The first argument is the program's name.
fn words_of(alloc: Global, arguments: io::Result<Args>) -> Result<Vec<String>, NoMemory>
    // The words are the arguments behind the name.
    ensures behind_name { IfOk arguments (λ all. IfOk result (λ words. words.items ≡ drop 1 (into_iter_items all))) }
    // An argument isn't UTF-8: there are no words.
    ensures not_utf8 { IfErr arguments (λ error. error_kind error ≡ InvalidData → IsOkAnd result (λ words. words.items ≡ [])) }
    // The arguments can't be read for another reason.
    ensures unread { IfErr arguments (λ error. ¬ (error_kind error ≡ InvalidData) → IsErr result) }
{
    match arguments {
        Ok(all) => Ok(behind_name(all.collect(alloc)?)),
        Err(error) => match error.kind() {
            ErrorKind::InvalidData => Ok(Vec::new(alloc)),
            _ => Err(NoMemory),
        },
    }
}

// All but the first word.
fn behind_name(mut words: Vec<String>) -> Vec<String>
    ensures { result.items ≡ drop 1 words.items }
{
    if !words.is_empty() {
        let _ = words.remove(0);
    }
    words
}

// The number that the process ends with. `ended` is the command's status, or that memory ran out before the command.
fn exit(ended: Result<Status, NoMemory>) -> ExitCode
    ensures status { IfOk ended (λ status. exit_status result ≡ status_number status) }
    ensures no_memory { IsErr ended → exit_status result ≡ status_number Status.NoMemory }
{
    let status = ended.unwrap_or(Status::NoMemory);
    ExitCode::from(status.number())
}
