// The value of a key, or what is amiss with it.
ghost use Rattle.std.specs.Prelude.{◌≡◌, ◌≤◌, IfOk};
ghost use Rattle.toml.specs.View.{view};
ghost use Rattle.proxy_config.specs.Values.{text_value, natural_in, int32_value, version_in, address_in};
ghost use Rattle.proxy_config.specs.Meant.{key_place, IsMeant};

use crate::address::address;
use crate::fault::{ConfigFault, Why, refuse};
use kp_edge::Blob;
use std::alloc::Global;
use toml::Value;
use virtual_cluster::Address;

pub(crate) fn text(
    alloc: Global,
    cluster: Option<u32>,
    key: &str,
    value: &Value,
) -> Result<Blob, ConfigFault>
    ensures { IsMeant result (text_value (key_place cluster key.now) (view value.now)) }
{
    match value.as_str() {
        Some(text) => Ok(Blob::copy(alloc, text.as_bytes())?),
        None => Err(refuse(alloc, Why::WrongType, cluster, key.as_bytes())),
    }
}

// An integer from 0 to `most`.
pub(crate) fn natural(
    alloc: Global,
    most: u32,
    cluster: Option<u32>,
    key: &str,
    value: &Value,
) -> Result<u32, ConfigFault>
    ensures meant { IsMeant result (natural_in most (key_place cluster key.now) (view value.now)) }
    ensures bound { IfOk result (λ n. n ≤ most) }
{
    match value.as_integer() {
        Some(number) => {
            if 0 <= number && number <= most as i64 {
                Ok(number as u32)
            } else {
                Err(refuse(alloc, Why::BadValue, cluster, key.as_bytes()))
            }
        }
        None => Err(refuse(alloc, Why::WrongType, cluster, key.as_bytes())),
    }
}

pub(crate) fn int32(
    alloc: Global,
    cluster: Option<u32>,
    key: &str,
    value: &Value,
) -> Result<i32, ConfigFault>
    ensures { IsMeant result (int32_value (key_place cluster key.now) (view value.now)) }
{
    match value.as_integer() {
        Some(number) => {
            if i32::MIN as i64 <= number && number <= i32::MAX as i64 {
                Ok(number as i32)
            } else {
                Err(refuse(alloc, Why::BadValue, cluster, key.as_bytes()))
            }
        }
        None => Err(refuse(alloc, Why::WrongType, cluster, key.as_bytes())),
    }
}

pub(crate) fn version(
    alloc: Global,
    cluster: Option<u32>,
    key: &str,
    value: &Value,
) -> Result<u32, ConfigFault>
    ensures { IsMeant result (version_in (key_place cluster key.now) (view value.now)) }
{
    match value.as_integer() {
        Some(1) => Ok(1),
        Some(_) => Err(refuse(alloc, Why::BadValue, cluster, key.as_bytes())),
        None => Err(refuse(alloc, Why::WrongType, cluster, key.as_bytes())),
    }
}

pub(crate) fn one_address(
    alloc: Global,
    cluster: Option<u32>,
    key: &str,
    value: &Value,
) -> Result<Address, ConfigFault>
    ensures { IsMeant result (address_in (key_place cluster key.now) (view value.now)) }
{
    match value.as_str() {
        Some(text) => match address(alloc, text.as_bytes())? {
            Some(address) => Ok(address),
            None => Err(refuse(alloc, Why::BadValue, cluster, key.as_bytes())),
        },
        None => Err(refuse(alloc, Why::WrongType, cluster, key.as_bytes())),
    }
}
