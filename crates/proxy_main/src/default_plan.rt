// `replay` where no configuration is named.
ghost use Rattle.std.specs.Prelude.{◌≡◌, IfOk};
ghost use Rattle.kp_edge.specs.Counts.{BothCounted};
ghost use Rattle.proxy_main.specs.DefaultPlan.{default_plan, default_broker, default_meaning};
ghost use Rattle.proxy_main.specs.Replayed.{ReplaysInput};

use crate::plan_replay::replay_plan;
use crate::status::Status;
use kp_edge::{Blob, NoMemory, Sink, Source, Steps};
use std::alloc::Global;
use virtual_cluster::{Address, ClusterPlan, Sequence};

// Runs the script on the input over a connection of the default plan.
pub(crate) fn replay_default<I: Source, O: Sink, L>(
    alloc: Global,
    input: &mut I,
    out: &mut O,
    steps: &mut Steps<L>,
) -> Status
    ensures replay { ReplaysInput default_meaning (I.coming input.old) (I.coming input.new) (O.taken out.old) (O.taken out.new) steps.old steps.new result }
    ensures faults { BothCounted (result ≡ Status.InputFault) (result ≡ Status.OutputFault) (I.faults input.old) (I.faults input.new) (O.faults out.old) (O.faults out.new) }
{
    match default_plan(alloc) {
        Ok(plan) => replay_plan(alloc, &plan, input, out, steps),
        Err(NoMemory) => Status::NoMemory,
    }
}

fn default_plan(alloc: Global) -> Result<ClusterPlan, NoMemory>
    ensures { IfOk result (λ plan. plan ≡ default_plan) }
{
    let mut nodes = Vec::new(alloc);
    nodes.push(default_broker(alloc)?)?;
    Ok(ClusterPlan {
        name: Blob::copy(alloc, b"default")?,
        listen: Blob::copy(alloc, b"localhost")?,
        advertise: Blob::copy(alloc, b"localhost")?,
        port: 19092,
        first_node: 0,
        bootstrap: default_broker(alloc)?,
        nodes: Sequence::from_vec(nodes),
        prefix: None,
        filters: Sequence::new(alloc),
        policy_deny: Sequence::new(alloc),
        in_flight: 16,
        completers: 2,
        connections: 64,
    })
}

fn default_broker(alloc: Global) -> Result<Address, NoMemory>
    ensures { IfOk result (λ address. address ≡ default_broker) }
{
    Ok(Address {
        host: Blob::copy(alloc, b"localhost")?,
        port: 9092,
    })
}
