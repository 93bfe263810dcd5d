// The command on a script and a configuration file: `replay` over one of its clusters.
ghost use Rattle.std.specs.Prelude.{◌≡◌, ℕ, List, map, string_bytes, IfOk, IfSome, IsNone, IsErrOf};
ghost use Rattle.kp_edge.specs.Counts.{BothCounted, Counted};
ghost use Rattle.config_answers.specs.ClusterAnswers.{IsServed};
ghost use Rattle.proxy_main.specs.ClusterReplays.{IsClusterReplay, IsNoClusterReplay, IsFoundIn, ReplaysFound, ReplaysCluster};

use crate::file_answer::{begins_with_a_dash, write_with};
use crate::plan_replay::replay_plan;
use crate::status::Status;
use config_answers::{CONFIG_LIMIT, ClusterAnswer, cluster_answer, front_law};
use kp_edge::{FileFault, Files, Sink, Source, Steps};
use std::alloc::Global;

// The names of a configuration file and of a cluster in it.
#[derive(Clone, Copy)]
pub(crate) struct ClusterReplay<'a> {
    pub(crate) file: &'a [u8],
    pub(crate) cluster: &'a [u8],
}

// The names that the words say, where they are `replay` over a cluster.
pub(crate) fn cluster_replay(words: &[String]) -> Option<ClusterReplay<'_>>
    ensures some { IfSome result (λ c. IsClusterReplay (map string_bytes words.now) c.file.now c.cluster.now) }
    ensures none { IsNone result → IsNoClusterReplay (map string_bytes words.now) }
{
    if words.len() != 3 || words[0].as_str() != "replay" {
        return None;
    }
    let file = words[1].as_bytes();
    let cluster = words[2].as_bytes();
    if begins_with_a_dash(file) || begins_with_a_dash(cluster) {
        return None;
    }
    Some(ClusterReplay { file, cluster })
}

// Reads the file once, and then the script on the input over a connection of the cluster, or writes why not.
pub(crate) fn replay_cluster<I: Source, O: Sink, F: Files, L>(
    alloc: Global,
    names: &ClusterReplay<'_>,
    input: &mut I,
    out: &mut O,
    files: &mut F,
    steps: &mut Steps<L>,
) -> Status
    ensures replay { ReplaysCluster (F.content files.old names.now.file.now) names.now.cluster.now (I.coming input.old) (I.coming input.new) (O.taken out.old) (O.taken out.new) steps.old steps.new result }
    ensures faults { BothCounted (result ≡ Status.InputFault) (result ≡ Status.OutputFault) (I.faults input.old) (I.faults input.new) (O.faults out.old) (O.faults out.new) }
    ensures files { Counted (result ≡ Status.FilesFault) (F.faults files.old) (F.faults files.new) }
    ensures content { (name : List ℕ) → F.content files.new name ≡ F.content files.old name }
{
    match cluster_in(alloc, names.file, names.cluster, files) {
        Ok(found) => replay_found(alloc, found, input, out, steps),
        Err(FileFault::Failed) => Status::FilesFault,
        Err(FileFault::NoMemory) => Status::NoMemory,
    }
}

// What the file has of the cluster. One byte past the limit of a configuration is as good as the whole file.
fn cluster_in<F: Files>(
    alloc: Global,
    file: &[u8],
    cluster: &[u8],
    files: &mut F,
) -> Result<ClusterAnswer, FileFault>
    ensures found { IfOk result (λ found. IsFoundIn (F.content files.old file.now) cluster.now found) }
    ensures served { IfOk result IsServed }
    ensures cause { Counted (IsErrOf result FileFault.Failed) (F.faults files.old) (F.faults files.new) }
    ensures content { (n : List ℕ) → F.content files.new n ≡ F.content files.old n }
{
    front_law();
    let bytes = files.read(alloc, file, CONFIG_LIMIT + 1)?;
    Ok(cluster_answer(alloc, cluster, bytes.as_slice())?)
}

fn replay_found<I: Source, O: Sink, L>(
    alloc: Global,
    found: ClusterAnswer,
    input: &mut I,
    out: &mut O,
    steps: &mut Steps<L>,
) -> Status
    requires { IsServed found }
    ensures replay { ReplaysFound found (I.coming input.old) (I.coming input.new) (O.taken out.old) (O.taken out.new) steps.old steps.new result }
    ensures faults { BothCounted (result ≡ Status.InputFault) (result ≡ Status.OutputFault) (I.faults input.old) (I.faults input.new) (O.faults out.old) (O.faults out.new) }
    ensures not_files { result ≡ Status.FilesFault → ⊥ }
{
    match found {
        ClusterAnswer::Found(plan) => replay_plan(alloc, &plan, input, out, steps),
        ClusterAnswer::Refused(line) => write_with(Status::Refused, line.as_slice(), out),
    }
}
