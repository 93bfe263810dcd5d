ghost use Rattle.std.specs.Prelude.{◌≡◌, ◌⊎◌};
ghost use Rattle.toml.specs.View.{table_view};
ghost use Rattle.proxy_config.specs.Meant.{IsMeant, meant_by, config_of};

use crate::cluster::clusters;
use crate::fault::ConfigFault;
use crate::keys;
use std::alloc::Global;
use toml::Table;
use virtual_cluster::Plans;

/// The plans that a text stands for, or its first fault. The format and the order of the faults stand in
/// docs/CONFIG.md.
pub fn read(alloc: Global, text: &[u8]) -> Result<Plans, ConfigFault>
    ensures { IsMeant result (meant_by text.now) }
{
    match toml::table_from_slice(alloc, text) {
        Ok(table) => config(alloc, &table),
        Err(error) => {
            if error.is_memory() {
                Err(ConfigFault::NoMemory)
            } else {
                Err(ConfigFault::NotToml)
            }
        }
    }
}

// The plans that a table stands for.
#[tactic(auto, unfolding(crate::specs::Meant::config_of))]
fn config(alloc: Global, table: &Table) -> Result<Plans, ConfigFault>
    ensures { IsMeant result (config_of (table_view table.now)) }
{
    let _one = keys::version(alloc, None, table, "version")?;
    let items = keys::tables(alloc, None, table, "cluster")?;
    keys::only_known(alloc, None, table)?;
    let plans = clusters(alloc, items)?;
    match Plans::new(plans) {
        Ok(plans) => Ok(plans),
        Err(fault) => Err(ConfigFault::Plan(fault)),
    }
}
