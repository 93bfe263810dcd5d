// What a table gives for a key that has to be there, and for one that may be missing.
ghost use Rattle.std.specs.Prelude.{◌≡◌, ◌≤◌, IfOk, [], pos, None, Some, option_map, length};
ghost use Rattle.toml.specs.Data.{get_member};
ghost use Rattle.toml.specs.View.{view, items_view, table_view};
ghost use Rattle.proxy_config.specs.Values.{text_value, natural_in, int32_value, version_in, address_in, some_text_in, texts_in, addresses_in, filters_in, tables_in, required, optional};
ghost use Rattle.proxy_config.specs.Meant.{key_place, IsMeant, keys_of, cluster_keys, unknown_key, unless};
ghost use Rattle.proxy_config.specs.Steps.{plan_keys, option_keys, IsMeantAs};
ghost use Rattle.std.specs.List.{list_any};
ghost use Rattle.std.specs.Str.{bytes_eq};

use crate::fault::{ConfigFault, Why, refuse};
use crate::{lists, values};
use kp_edge::Blob;
use std::alloc::Global;
use toml::{Table, Value};
use virtual_cluster::{Address, FilterPlan, Sequence};

fn find<'a>(table: &'a Table, key: &str) -> Option<&'a Value>
    ensures { option_map (λ v. view v.now) result ≡ get_member key.now (table_view table.now) }
{
    table.get(key)
}

#[tactic(auto, unfolding(crate::specs::Values::required))]
pub(crate) fn text(
    alloc: Global,
    cluster: Option<u32>,
    table: &Table,
    key: &str,
) -> Result<Blob, ConfigFault>
    ensures { IsMeant result (required text_value (key_place cluster key.now) (table_view table.now)) }
{
    match find(table, key) {
        Some(value) => values::text(alloc, cluster, key, value),
        None => Err(refuse(alloc, Why::Missing, cluster, key.as_bytes())),
    }
}

#[tactic(auto, unfolding(crate::specs::Values::required))]
pub(crate) fn natural(
    alloc: Global,
    most: u32,
    cluster: Option<u32>,
    table: &Table,
    key: &str,
) -> Result<u32, ConfigFault>
    ensures meant { IsMeant result (required (natural_in most) (key_place cluster key.now) (table_view table.now)) }
    ensures bound { IfOk result (λ n. n ≤ most) }
{
    match find(table, key) {
        Some(value) => values::natural(alloc, most, cluster, key, value),
        None => Err(refuse(alloc, Why::Missing, cluster, key.as_bytes())),
    }
}

// A port, which may be 0.
pub(crate) fn port(
    alloc: Global,
    cluster: Option<u32>,
    table: &Table,
    key: &str,
) -> Result<u16, ConfigFault>
    ensures { IsMeant result (required (natural_in 65535) (key_place cluster key.now) (table_view table.now)) }
{
    let number = natural(alloc, 65_535, cluster, table, key)?;
    Ok(number as u16)
}

#[tactic(auto, unfolding(crate::specs::Values::required))]
pub(crate) fn int32(
    alloc: Global,
    cluster: Option<u32>,
    table: &Table,
    key: &str,
) -> Result<i32, ConfigFault>
    ensures { IsMeant result (required int32_value (key_place cluster key.now) (table_view table.now)) }
{
    match find(table, key) {
        Some(value) => values::int32(alloc, cluster, key, value),
        None => Err(refuse(alloc, Why::Missing, cluster, key.as_bytes())),
    }
}

#[tactic(auto, unfolding(crate::specs::Values::required))]
pub(crate) fn version(
    alloc: Global,
    cluster: Option<u32>,
    table: &Table,
    key: &str,
) -> Result<u32, ConfigFault>
    ensures { IsMeant result (required version_in (key_place cluster key.now) (table_view table.now)) }
{
    match find(table, key) {
        Some(value) => values::version(alloc, cluster, key, value),
        None => Err(refuse(alloc, Why::Missing, cluster, key.as_bytes())),
    }
}

#[tactic(auto, unfolding(crate::specs::Values::required))]
pub(crate) fn address(
    alloc: Global,
    cluster: Option<u32>,
    table: &Table,
    key: &str,
) -> Result<Address, ConfigFault>
    ensures { IsMeant result (required address_in (key_place cluster key.now) (table_view table.now)) }
{
    match find(table, key) {
        Some(value) => values::one_address(alloc, cluster, key, value),
        None => Err(refuse(alloc, Why::Missing, cluster, key.as_bytes())),
    }
}

#[tactic(auto, unfolding(crate::specs::Values::required))]
pub(crate) fn addresses(
    alloc: Global,
    cluster: Option<u32>,
    table: &Table,
    key: &str,
) -> Result<Sequence<Address>, ConfigFault>
    ensures { IsMeant result (required addresses_in (key_place cluster key.now) (table_view table.now)) }
{
    match find(table, key) {
        Some(value) => lists::addresses(alloc, cluster, key, value),
        None => Err(refuse(alloc, Why::Missing, cluster, key.as_bytes())),
    }
}

#[tactic(auto, unfolding(crate::specs::Values::required))]
pub(crate) fn tables<'a>(
    alloc: Global,
    cluster: Option<u32>,
    table: &'a Table,
    key: &str,
) -> Result<&'a [Value], ConfigFault>
    ensures meant { IsMeantAs (λ items. items_view items.now) result (required tables_in (key_place cluster key.now) (table_view table.now)) }
    ensures some { IfOk result (λ items. 1 ≤ length items.now) }
    ensures few { IfOk result (λ items. length items.now ≤ 64) }
{
    match find(table, key) {
        Some(value) => lists::tables(alloc, cluster, key, value),
        None => Err(refuse(alloc, Why::Missing, cluster, key.as_bytes())),
    }
}

#[tactic(auto, unfolding(crate::specs::Values::optional))]
pub(crate) fn text_or_none(
    alloc: Global,
    cluster: Option<u32>,
    table: &Table,
    key: &str,
) -> Result<Option<Blob>, ConfigFault>
    ensures { IsMeant result (optional None some_text_in (key_place cluster key.now) (table_view table.now)) }
{
    match find(table, key) {
        Some(value) => Ok(Some(values::text(alloc, cluster, key, value)?)),
        None => Ok(None),
    }
}

#[tactic(auto, unfolding(crate::specs::Values::optional))]
pub(crate) fn filters_or_none(
    alloc: Global,
    cluster: Option<u32>,
    table: &Table,
    key: &str,
) -> Result<Sequence<FilterPlan>, ConfigFault>
    ensures { IsMeant result (optional [] filters_in (key_place cluster key.now) (table_view table.now)) }
{
    match find(table, key) {
        Some(value) => lists::filters(alloc, cluster, key, value),
        None => Ok(Sequence::new(alloc)),
    }
}

#[tactic(auto, unfolding(crate::specs::Values::optional))]
pub(crate) fn texts_or_none(
    alloc: Global,
    cluster: Option<u32>,
    table: &Table,
    key: &str,
) -> Result<Sequence<Blob>, ConfigFault>
    ensures { IsMeant result (optional [] texts_in (key_place cluster key.now) (table_view table.now)) }
{
    match find(table, key) {
        Some(value) => lists::texts(alloc, cluster, key, value),
        None => Ok(Sequence::new(alloc)),
    }
}

#[tactic(auto, unfolding(crate::specs::Values::optional))]
pub(crate) fn natural_or(
    alloc: Global,
    default: u32,
    cluster: Option<u32>,
    table: &Table,
    key: &str,
) -> Result<u32, ConfigFault>
    ensures { IsMeant result (optional default (natural_in 4294967295) (key_place cluster key.now) (table_view table.now)) }
{
    match find(table, key) {
        Some(value) => values::natural(alloc, u32::MAX, cluster, key, value),
        None => Ok(default),
    }
}

fn is_file_key(key: &[u8]) -> bool
    ensures { result ≡ list_any (bytes_eq key.now) (keys_of None) }
{
    key == b"version".as_slice() || key == b"cluster".as_slice()
}

fn is_cluster_key(key: &[u8]) -> bool
    ensures { result ≡ list_any (bytes_eq key.now) cluster_keys }
{
    is_plan_key(key) || is_option_key(key)
}

// The keys that have to be there.
fn is_plan_key(key: &[u8]) -> bool
    ensures { result ≡ list_any (bytes_eq key.now) plan_keys }
{
    key == b"name".as_slice()
        || key == b"listen".as_slice()
        || key == b"advertise".as_slice()
        || key == b"port".as_slice()
        || key == b"first_node".as_slice()
        || key == b"bootstrap".as_slice()
        || key == b"nodes".as_slice()
}

// The keys that may be missing.
fn is_option_key(key: &[u8]) -> bool
    ensures { result ≡ list_any (bytes_eq key.now) option_keys }
{
    key == b"prefix".as_slice()
        || key == b"filters".as_slice()
        || key == b"policy_deny".as_slice()
        || key == b"in_flight".as_slice()
        || key == b"completers".as_slice()
        || key == b"connections".as_slice()
}

fn is_known(cluster: Option<u32>, key: &[u8]) -> bool
    ensures { result ≡ list_any (bytes_eq key.now) (keys_of cluster) }
{
    match cluster {
        Some(_) => is_cluster_key(key),
        None => is_file_key(key),
    }
}

// Each key of the table is known; else the first that isn't is refused.
pub(crate) fn only_known(
    alloc: Global,
    cluster: Option<u32>,
    table: &Table,
) -> Result<(), ConfigFault>
    ensures { IsMeant result (unless (unknown_key cluster (table_view table.now)) tt) }
{
    for (key, _value) in table.iter() {
        if !is_known(cluster, key.as_bytes()) {
            return Err(refuse(alloc, Why::UnknownKey, cluster, key.as_bytes()));
        }
    }
    Ok(())
}
