// `replay` over the plan of a cluster.
ghost use Rattle.std.specs.Prelude.{◌≡◌, None};
ghost use Rattle.kp_edge.specs.Counts.{BothCounted};
ghost use Rattle.virtual_cluster.specs.Limits.{IsValid};
ghost use Rattle.proxy_main.specs.DefaultPlan.{cluster_meaning};
ghost use Rattle.proxy_main.specs.Replayed.{ReplaysInput};

use crate::script::replay;
use crate::status::Status;
use any_filter::chain_of;
use conn_core::{Core, chain_law};
use kp_edge::{NoMemory, Sink, Source, Steps};
use std::alloc::Global;
use virtual_cluster::ClusterPlan;

// Runs the script on the input over a connection of this cluster.
pub(crate) fn replay_plan<I: Source, O: Sink, L>(
    alloc: Global,
    plan: &ClusterPlan,
    input: &mut I,
    out: &mut O,
    steps: &mut Steps<L>,
) -> Status
    requires valid { IsValid plan.now }
    requires unprefixed { plan.now.prefix ≡ None }
    ensures replay { ReplaysInput (cluster_meaning plan.now) (I.coming input.old) (I.coming input.new) (O.taken out.old) (O.taken out.new) steps.old steps.new result }
    ensures faults { BothCounted (result ≡ Status.InputFault) (result ≡ Status.OutputFault) (I.faults input.old) (I.faults input.new) (O.faults out.old) (O.faults out.new) }
{
    chain_law();
    match chain_of(alloc, plan) {
        Ok(chain) => replay(
            alloc,
            Core::new(alloc, chain, plan.in_flight),
            input,
            out,
            steps,
        ),
        Err(NoMemory) => Status::NoMemory,
    }
}
