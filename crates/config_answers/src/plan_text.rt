// Which port of a plan leads where, as text.
ghost use Rattle.std.specs.Prelude.{◌≡◌, ◌<◌, ◌≤◌, ◌+◌, ◌^◌, ◌++◌, length, OnOk, All};
ghost use Rattle.std.specs.Fmt.{decimal};
ghost use Rattle.virtual_cluster.specs.Limits.{IsValid};
ghost use Rattle.config_answers.specs.PlanTexts.{address_text, port_line, port_lines, prefix_line, role_text, plan_text, plans_text};

use kp_edge::{Blob, NoMemory};
use node_ports::{PortRole, role_of, target_of};
use std::alloc::Global;
use virtual_cluster::{Address, ClusterPlan};

// Puts the bytes behind the text.
pub(crate) fn put(text: &mut Vec<u8>, bytes: &[u8]) -> Result<(), NoMemory>
    ensures { OnOk result (text.new.items ≡ text.old.items ++ bytes.now) }
{
    text.extend_from_slice(bytes)?;
    Ok(())
}

// Puts a number in decimal behind the text.
pub(crate) fn put_number(alloc: Global, text: &mut Vec<u8>, number: u64) -> Result<(), NoMemory>
    ensures { OnOk result (text.new.items ≡ text.old.items ++ decimal number) }
{
    match format!(in alloc; "{number}") {
        Ok(digits) => put(text, digits.as_bytes()),
        Err(_) => Err(NoMemory),
    }
}

fn put_address(alloc: Global, text: &mut Vec<u8>, address: &Address) -> Result<(), NoMemory>
    ensures { OnOk result (text.new.items ≡ text.old.items ++ address_text address.now) }
{
    put(text, address.host.as_slice())?;
    put(text, b":")?;
    put_number(alloc, text, address.port as u64)
}

fn put_role(alloc: Global, text: &mut Vec<u8>, role: PortRole) -> Result<(), NoMemory>
    ensures { OnOk result (text.new.items ≡ text.old.items ++ role_text role) }
{
    match role {
        PortRole::Bootstrap => put(text, b"bootstrap "),
        PortRole::Node(node) => match format!(in alloc; "node {node} ") {
            Ok(words) => put(text, words.as_bytes()),
            Err(_) => Err(NoMemory),
        },
    }
}

// The line of a port: its role, the port, and where it leads.
#[tactic(auto, unfolding(crate::specs::PlanTexts::port_line))]
fn put_port(
    alloc: Global,
    text: &mut Vec<u8>,
    plan: &ClusterPlan,
    port: u16,
) -> Result<(), NoMemory>
    requires { IsValid plan.now }
    ensures { OnOk result (text.new.items ≡ text.old.items ++ port_line plan.now port) }
{
    let Some(role) = role_of(plan, port) else {
        return Ok(());
    };
    let Some(target) = target_of(plan, role) else {
        return Ok(());
    };
    put_role(alloc, text, role)?;
    put_number(alloc, text, port as u64)?;
    put(text, b" ")?;
    put_address(alloc, text, target)?;
    put(text, b"\n")
}

fn put_ports(alloc: Global, text: &mut Vec<u8>, plan: &ClusterPlan) -> Result<(), NoMemory>
    requires { IsValid plan.now }
    ensures { OnOk result (text.new.items ≡ text.old.items ++ port_lines plan.now plan.now.port (1 + length plan.now.nodes)) }
{
    for behind in 0..plan.nodes.len() + 1 {
        put_port(alloc, text, plan, (plan.port as usize + behind) as u16)?;
    }
    Ok(())
}

fn put_prefix(text: &mut Vec<u8>, prefix: &Option<Blob>) -> Result<(), NoMemory>
    ensures { OnOk result (text.new.items ≡ text.old.items ++ prefix_line prefix.now) }
{
    match prefix {
        Some(prefix) => {
            put(text, b"prefix ")?;
            put(text, prefix.as_slice())?;
            put(text, b"\n")
        }
        None => Ok(()),
    }
}

#[tactic(auto, unfolding(crate::specs::PlanTexts::plan_text))]
fn put_plan(alloc: Global, text: &mut Vec<u8>, plan: &ClusterPlan) -> Result<(), NoMemory>
    requires { IsValid plan.now }
    ensures { OnOk result (text.new.items ≡ text.old.items ++ plan_text plan.now) }
{
    put(text, b"cluster ")?;
    put(text, plan.name.as_slice())?;
    put(text, b"\n")?;
    put_prefix(text, &plan.prefix)?;
    put_ports(alloc, text, plan)
}

// Puts the lines of all the plans behind the text, in their order.
pub(crate) fn put_plans(
    alloc: Global,
    text: &mut Vec<u8>,
    plans: &[ClusterPlan],
) -> Result<(), NoMemory>
    requires { All IsValid plans.now }
    ensures { OnOk result (text.new.items ≡ text.old.items ++ plans_text plans.now) }
{
    for n in 0..plans.len() {
        put_plan(alloc, text, &plans[n])?;
    }
    Ok(())
}
