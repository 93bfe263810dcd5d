// The commands.
ghost use Rattle.std.specs.Prelude.{◌≡◌, ◌↔◌, ℕ, List, map, string_bytes, IsTrue};
ghost use Rattle.kp_edge.specs.Counts.{BothCounted, Counted};
ghost use Rattle.config_answers.specs.declared.asked.Asked.{Asked};
ghost use Rattle.proxy_main.specs.Words.{IsReplay, usage};
ghost use Rattle.proxy_main.specs.DefaultPlan.{default_meaning};
ghost use Rattle.proxy_main.specs.FileAnswers.{AnswersFile, IsFileCommand};
ghost use Rattle.proxy_main.specs.ClusterReplays.{IsClusterReplay, IsNoClusterReplay, NamesNoFile, ReplaysCluster};
ghost use Rattle.proxy_main.specs.Replayed.{ReplaysInput, RefusesWords};

use crate::cluster_replay::{cluster_replay, replay_cluster};
use crate::default_plan::replay_default;
use crate::file_answer::{answer_file, file_command};
use crate::output::write_all;
use crate::status::Status;
use kp_edge::{Failed, Files, Sink, Source, Steps};
use std::alloc::Global;

// The one line that is written where the words are faulty.
const USAGE: &[u8] =
    b"usage: kproxy replay [CONFIG CLUSTER] | check CONFIG | plan CONFIG | serve CONFIG | broker HOST PORT | load SEED N\n";

/// Does what the words say, and ends with the status that says how. The word `replay` runs the script on `input`
/// over a connection and writes an answer line for each line. What a script means is told in docs/SCRIPTS.md. With the
/// names of a file and a cluster behind it, `replay` runs the script over that cluster, and else over the default
/// plan. `check` and `plan`, each before the name of a file, write what is told of a configuration in docs/CONFIG.md.
/// It waits for nothing but its input, its output and the read of that file.
pub fn run_command<I: Source, O: Sink, F: Files, L>(
    alloc: Global,
    words: &[String],
    input: &mut I,
    out: &mut O,
    files: &mut F,
    steps: &mut Steps<L>,
) -> Status
    // The script is replayed over the default plan, or over the plan of the file's cluster. The steps that are counted are the
    // work of its requests.
    ensures replay { IsReplay (map string_bytes words.now) → ReplaysInput default_meaning (I.coming input.old) (I.coming input.new) (O.taken out.old) (O.taken out.new) steps.old steps.new result }
    ensures cluster { (file cluster : List ℕ) → IsClusterReplay (map string_bytes words.now) file cluster → ReplaysCluster (F.content files.old file) cluster (I.coming input.old) (I.coming input.new) (O.taken out.old) (O.taken out.new) steps.old steps.new result }

    // `check` and `plan` answer the whole file, as far as the files tell what it holds.
    ensures file { (asked : Asked) (name : List ℕ) → IsFileCommand (map string_bytes words.now) asked name → AnswersFile asked (F.content files.old name) (O.taken out.old) (O.taken out.new) result }

    // Other words are faulty. The input is read for `replay` alone, and a file where the words name one.
    ensures words { ¬ IsReplay (map string_bytes words.now) → NamesNoFile (map string_bytes words.now) → RefusesWords result (O.taken out.old) (O.taken out.new) }
    ensures unread { ¬ IsReplay (map string_bytes words.now) → IsNoClusterReplay (map string_bytes words.now) → input.new ≡ input.old }
    ensures unopened { NamesNoFile (map string_bytes words.now) → files.new ≡ files.old }

    // A fault has its cause in this call: the input's, the output's and the files' count rose where the status
    // names their fault, and else stayed.
    ensures faults { BothCounted (result ≡ Status.InputFault) (result ≡ Status.OutputFault) (I.faults input.old) (I.faults input.new) (O.faults out.old) (O.faults out.new) }
    ensures files { Counted (result ≡ Status.FilesFault) (F.faults files.old) (F.faults files.new) }

    // What the files tell stays. No step is counted but those of a replay's requests.
    ensures content { (name : List ℕ) → F.content files.new name ≡ F.content files.old name }
    ensures uncounted { ¬ IsReplay (map string_bytes words.now) → IsNoClusterReplay (map string_bytes words.now) → steps.new ≡ steps.old }
{
    if is_replay(words) {
        replay_default(alloc, input, out, steps)
    } else if let Some(names) = cluster_replay(words) {
        replay_cluster(alloc, &names, input, out, files, steps)
    } else if let Some(command) = file_command(words) {
        answer_file(alloc, &command, out, files)
    } else {
        refuse_words(out)
    }
}

fn is_replay(words: &[String]) -> bool
    ensures { IsTrue result ↔ IsReplay (map string_bytes words.now) }
{
    words.len() == 1 && words[0].as_str() == "replay"
}

fn refuse_words<O: Sink>(out: &mut O) -> Status
    ensures refused { RefusesWords result (O.taken out.old) (O.taken out.new) }
    ensures faults { Counted (result ≡ Status.OutputFault) (O.faults out.old) (O.faults out.new) }
{
    match write_all(out, USAGE) {
        Ok(()) => Status::Usage,
        Err(Failed) => Status::OutputFault,
    }
}
