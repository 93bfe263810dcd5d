ghost use Rattle.std.specs.Prelude.{◌≡◌, ◌<◌, ◌≤◌, ◌+◌, Some, length, vec_len, IfOk};
ghost use Rattle.toml.specs.View.{table_view, items_view};
ghost use Rattle.proxy_config.specs.Meant.{IsMeant, cluster_of};
ghost use Rattle.proxy_config.specs.Steps.{AreClusters};
ghost use Rattle.proxy_config.specs.Halves.{needed_of, options_of, joined_plan};

use crate::fault::ConfigFault;
use crate::keys;
use kp_edge::Blob;
use std::alloc::Global;
use toml::{Table, Value};
use virtual_cluster::{Address, ClusterPlan, FilterPlan, Sequence};

// The keys of a cluster that have to be there.
#[derive(Drop)]
struct Needed {
    name: Blob,
    listen: Blob,
    advertise: Blob,
    port: u16,
    first_node: i32,
    bootstrap: Address,
    nodes: Sequence<Address>,
}

// The keys of a cluster that may be missing.
#[derive(Drop)]
struct Options {
    prefix: Option<Blob>,
    filters: Sequence<FilterPlan>,
    policy_deny: Sequence<Blob>,
    in_flight: u32,
    completers: u32,
    connections: u32,
}

#[tactic(auto, unfolding(crate::specs::Halves::needed_of))]
fn read_needed(alloc: Global, n: u32, table: &Table) -> Result<Needed, ConfigFault>
    ensures { IsMeant result (needed_of n (table_view table.now)) }
{
    let at = Some(n);
    Ok(Needed {
        name: keys::text(alloc, at, table, "name")?,
        listen: keys::text(alloc, at, table, "listen")?,
        advertise: keys::text(alloc, at, table, "advertise")?,
        port: keys::port(alloc, at, table, "port")?,
        first_node: keys::int32(alloc, at, table, "first_node")?,
        bootstrap: keys::address(alloc, at, table, "bootstrap")?,
        nodes: keys::addresses(alloc, at, table, "nodes")?,
    })
}

#[tactic(auto, unfolding(crate::specs::Halves::options_of))]
fn read_options(alloc: Global, n: u32, table: &Table) -> Result<Options, ConfigFault>
    ensures { IsMeant result (options_of n (table_view table.now)) }
{
    let at = Some(n);
    Ok(Options {
        prefix: keys::text_or_none(alloc, at, table, "prefix")?,
        filters: keys::filters_or_none(alloc, at, table, "filters")?,
        policy_deny: keys::texts_or_none(alloc, at, table, "policy_deny")?,
        in_flight: keys::natural_or(alloc, 16, at, table, "in_flight")?,
        completers: keys::natural_or(alloc, 2, at, table, "completers")?,
        connections: keys::natural_or(alloc, 64, at, table, "connections")?,
    })
}

fn joined(needed: Needed, options: Options) -> ClusterPlan
    ensures { result ≡ joined_plan needed options }
{
    ClusterPlan {
        name: needed.name,
        listen: needed.listen,
        advertise: needed.advertise,
        port: needed.port,
        first_node: needed.first_node,
        bootstrap: needed.bootstrap,
        nodes: needed.nodes,
        prefix: options.prefix,
        filters: options.filters,
        policy_deny: options.policy_deny,
        in_flight: options.in_flight,
        completers: options.completers,
        connections: options.connections,
    }
}

// The plan of cluster `n`.
pub(crate) fn cluster(alloc: Global, n: u32, table: &Table) -> Result<ClusterPlan, ConfigFault>
    ensures { IsMeant result (cluster_of n (table_view table.now)) }
{
    let needed = read_needed(alloc, n, table)?;
    let options = read_options(alloc, n, table)?;
    keys::only_known(alloc, Some(n), table)?;
    Ok(joined(needed, options))
}

// The plans of the tables.
#[tactic(auto, unfolding(crate::specs::Meant::cluster_of))]
pub(crate) fn clusters(alloc: Global, items: &[Value]) -> Result<Vec<ClusterPlan>, ConfigFault>
    requires { length items.now ≤ 64 }
    ensures clusters { AreClusters (items_view items.now) result }
    ensures count { IfOk result (λ plans. vec_len plans ≡ length items.now) }
{
    let mut plans = Vec::new(alloc);
    for n in 0..items.len() {
        let plan = match items[n].as_table() {
            Some(table) => cluster(alloc, n as u32, table)?,
            None => return Err(ConfigFault::NoMemory),
        };
        match plans.push(plan) {
            Ok(()) => {}
            Err(_) => return Err(ConfigFault::NoMemory),
        }
    }
    Ok(plans)
}
