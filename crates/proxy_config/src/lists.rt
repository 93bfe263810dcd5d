// The list that a key has as its value, or what is amiss with it.
ghost use Rattle.std.specs.Prelude.{◌≡◌, ◌≤◌, IfOk, is_some, length};
ghost use Rattle.toml.specs.Data.{as_str, as_table};
ghost use Rattle.toml.specs.View.{view, items_view};
ghost use Rattle.proxy_config.specs.Values.{text_of, are_texts, texts, texts_in, are_addresses, address_list, addresses_in, filters_in, are_tables, items_count, tables_in};
ghost use Rattle.proxy_config.specs.Meant.{key_place, IsMeant};
ghost use Rattle.proxy_config.specs.Steps.{AreFound, AreFilters, IsMeantAs};

use crate::address::address;
use crate::fault::{ConfigFault, Why, refuse};
use crate::filter::filter;
use kp_edge::{Blob, NoMemory};
use std::alloc::Global;
use toml::Value;
use virtual_cluster::{Address, FilterPlan, Sequence};

// A string as it stands in a list.
fn text_of(value: &Value) -> &str
    ensures { result.now ≡ text_of (view value.now) }
{
    match value.as_str() {
        Some(text) => text,
        None => "",
    }
}

fn are_texts(items: &[Value]) -> bool
    ensures { result ≡ are_texts (items_view items.now) }
{
    for value in items {
        if !value.is_str() {
            return false;
        }
    }
    true
}

fn copy_texts(alloc: Global, items: &[Value]) -> Result<Vec<Blob>, NoMemory>
    ensures { IfOk result (λ copies. copies.items ≡ texts (items_view items.now)) }
{
    let mut copies = Vec::new(alloc);
    for value in items {
        copies.push(Blob::copy(alloc, text_of(value).as_bytes())?)?;
    }
    Ok(copies)
}

// Strings.
pub(crate) fn texts(
    alloc: Global,
    cluster: Option<u32>,
    key: &str,
    value: &Value,
) -> Result<Sequence<Blob>, ConfigFault>
    ensures { IsMeant result (texts_in (key_place cluster key.now) (view value.now)) }
{
    match value.as_array() {
        Some(items) => {
            if are_texts(items.as_slice()) {
                Ok(Sequence::from_vec(copy_texts(alloc, items.as_slice())?))
            } else {
                Err(refuse(alloc, Why::WrongType, cluster, key.as_bytes()))
            }
        }
        None => Err(refuse(alloc, Why::WrongType, cluster, key.as_bytes())),
    }
}

// The addresses that texts are, if each is one.
fn read_addresses(alloc: Global, items: &[Value]) -> Result<Option<Vec<Address>>, NoMemory>
    ensures { IfOk result (AreFound (items_view items.now)) }
{
    let mut found = Vec::new(alloc);
    for value in items {
        match address(alloc, text_of(value).as_bytes())? {
            Some(address) => found.push(address)?,
            None => return Ok(None),
        }
    }
    Ok(Some(found))
}

// Addresses.
pub(crate) fn addresses(
    alloc: Global,
    cluster: Option<u32>,
    key: &str,
    value: &Value,
) -> Result<Sequence<Address>, ConfigFault>
    ensures { IsMeant result (addresses_in (key_place cluster key.now) (view value.now)) }
{
    let items = match value.as_array() {
        Some(items) => items.as_slice(),
        None => return Err(refuse(alloc, Why::WrongType, cluster, key.as_bytes())),
    };
    if !are_texts(items) {
        return Err(refuse(alloc, Why::WrongType, cluster, key.as_bytes()));
    }
    match read_addresses(alloc, items)? {
        Some(addresses) => Ok(Sequence::from_vec(addresses)),
        None => Err(refuse(alloc, Why::BadValue, cluster, key.as_bytes())),
    }
}

// The filters that texts ask for, or the first text that asks for none.
fn read_filters(
    alloc: Global,
    cluster: Option<u32>,
    items: &[Value],
) -> Result<Vec<FilterPlan>, ConfigFault>
    ensures { AreFilters cluster (items_view items.now) result }
{
    let mut filters = Vec::new(alloc);
    for value in items {
        let text = text_of(value).as_bytes();
        match filter(alloc, text)? {
            Some(filter) => match filters.push(filter) {
                Ok(()) => {}
                Err(_) => return Err(ConfigFault::NoMemory),
            },
            None => return Err(refuse(alloc, Why::UnknownFilter, cluster, text)),
        }
    }
    Ok(filters)
}

// Filters.
pub(crate) fn filters(
    alloc: Global,
    cluster: Option<u32>,
    key: &str,
    value: &Value,
) -> Result<Sequence<FilterPlan>, ConfigFault>
    ensures { IsMeant result (filters_in (key_place cluster key.now) (view value.now)) }
{
    let items = match value.as_array() {
        Some(items) => items.as_slice(),
        None => return Err(refuse(alloc, Why::WrongType, cluster, key.as_bytes())),
    };
    if !are_texts(items) {
        return Err(refuse(alloc, Why::WrongType, cluster, key.as_bytes()));
    }
    Ok(Sequence::from_vec(read_filters(alloc, cluster, items)?))
}

fn are_tables(items: &[Value]) -> bool
    ensures { result ≡ are_tables (items_view items.now) }
{
    for value in items {
        if !value.is_table() {
            return false;
        }
    }
    true
}

// The tables of the clusters.
#[tactic(auto, using(crate::proofs::ItemCounts::items_count_is))]
pub(crate) fn tables<'a>(
    alloc: Global,
    cluster: Option<u32>,
    key: &str,
    value: &'a Value,
) -> Result<&'a [Value], ConfigFault>
    ensures meant { IsMeantAs (λ items. items_view items.now) result (tables_in (key_place cluster key.now) (view value.now)) }
    ensures some { IfOk result (λ items. 1 ≤ length items.now) }
    ensures few { IfOk result (λ items. length items.now ≤ 64) }
{
    let items = match value.as_array() {
        Some(items) => items.as_slice(),
        None => return Err(refuse(alloc, Why::WrongType, cluster, key.as_bytes())),
    };
    if !are_tables(items) {
        return Err(refuse(alloc, Why::WrongType, cluster, key.as_bytes()));
    }
    if 1 <= items.len() && items.len() <= 64 {
        Ok(items)
    } else {
        Err(refuse(alloc, Why::BadValue, cluster, key.as_bytes()))
    }
}
