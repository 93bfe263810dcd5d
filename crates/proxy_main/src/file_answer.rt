// The commands on a configuration file: `check` and `plan`.
ghost use Rattle.std.specs.Prelude.{◌≡◌, ℕ, List, map, string_bytes, IfOk, IfSome, IsNone, IsErrOf};
ghost use Rattle.kp_edge.specs.Counts.{Counted};
ghost use Rattle.proxy_main.specs.FileAnswers.{AnswersFile, IsAnswerTo, IsFileCommand, IsNoFileCommand, asked_word, begins_with_dash};
ghost use Rattle.proxy_main.specs.Written.{WritesOut};

use crate::output::write_all;
use crate::status::Status;
use config_answers::{Asked, CONFIG_LIMIT, ConfigAnswer, config_answer, front_law};
use kp_edge::{Failed, FileFault, Files, Sink};
use std::alloc::Global;

// What is asked, and the name of the file.
#[derive(Clone, Copy)]
pub(crate) struct FileCommand<'a> {
    pub(crate) asked: Asked,
    pub(crate) name: &'a [u8],
}

// The command that the words say, where it is one on a configuration file.
pub(crate) fn file_command(words: &[String]) -> Option<FileCommand<'_>>
    ensures some { IfSome result (λ c. IsFileCommand (map string_bytes words.now) c.asked c.name.now) }
    ensures none { IsNone result → IsNoFileCommand (map string_bytes words.now) }
{
    if words.len() != 2 {
        return None;
    }
    let asked = asked_in(words[0].as_str())?;
    let name = words[1].as_bytes();
    match begins_with_a_dash(name) {
        true => None,
        false => Some(FileCommand { asked, name }),
    }
}

fn asked_in(word: &str) -> Option<Asked>
    ensures some { IfSome result (λ asked. word.now ≡ asked_word asked) }
    ensures none { IsNone result → (asked : Asked) → ¬ (word.now ≡ asked_word asked) }
{
    match word {
        "check" => Some(Asked::Check),
        "plan" => Some(Asked::Plan),
        _ => None,
    }
}

pub(crate) fn begins_with_a_dash(name: &[u8]) -> bool
    ensures { result ≡ begins_with_dash name.now }
{
    match name.first() {
        Some(first) => *first == b'-',
        None => false,
    }
}

// Reads the file once, and writes what is asked of it or why it is refused.
pub(crate) fn answer_file<O: Sink, F: Files>(
    alloc: Global,
    command: &FileCommand<'_>,
    out: &mut O,
    files: &mut F,
) -> Status
    ensures text { AnswersFile command.now.asked (F.content files.old command.now.name.now) (O.taken out.old) (O.taken out.new) result }
    ensures output { Counted (result ≡ Status.OutputFault) (O.faults out.old) (O.faults out.new) }
    ensures files { Counted (result ≡ Status.FilesFault) (F.faults files.old) (F.faults files.new) }
    ensures content { (name : List ℕ) → F.content files.new name ≡ F.content files.old name }
{
    match answer_to(alloc, command.asked, command.name, files) {
        Ok(ConfigAnswer::Holds(text)) => write_with(Status::Done, text.as_slice(), out),
        Ok(ConfigAnswer::Refused(text)) => write_with(Status::Refused, text.as_slice(), out),
        Err(FileFault::Failed) => Status::FilesFault,
        Err(FileFault::NoMemory) => Status::NoMemory,
    }
}

// The answer to the file. One byte past the limit of a configuration tells as much of it as all of it.
fn answer_to<F: Files>(
    alloc: Global,
    asked: Asked,
    name: &[u8],
    files: &mut F,
) -> Result<ConfigAnswer, FileFault>
    ensures answers { IfOk result (λ found. IsAnswerTo asked (F.content files.old name.now) found) }
    ensures cause { Counted (IsErrOf result FileFault.Failed) (F.faults files.old) (F.faults files.new) }
    ensures content { (n : List ℕ) → F.content files.new n ≡ F.content files.old n }
{
    front_law();
    let bytes = files.read(alloc, name, CONFIG_LIMIT + 1)?;
    Ok(config_answer(alloc, asked, bytes.as_slice())?)
}

// Writes the text, and ends with this status unless a write fails.
pub(crate) fn write_with<O: Sink>(status: Status, text: &[u8], out: &mut O) -> Status
    ensures written { WritesOut text.now status (O.taken out.old) (O.taken out.new) result }
    ensures faults { ¬ (status ≡ Status.OutputFault) → Counted (result ≡ Status.OutputFault) (O.faults out.old) (O.faults out.new) }
{
    match write_all(out, text) {
        Ok(()) => status,
        Err(Failed) => Status::OutputFault,
    }
}
