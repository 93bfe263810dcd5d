ghost use Rattle.std.specs.Prelude.{◌≡◌};
ghost use Rattle.proxy_config.specs.Meant.{key_place};
ghost use Rattle.proxy_config.specs.Steps.{fault_at, IsFault};

use kp_edge::{Blob, NoMemory};
use std::alloc::Global;
use virtual_cluster::PlanFault;

/// Where something is amiss: at a key of the file, or of the cluster with that number, from 0 on.
#[derive(Debug, Drop)]
pub struct Place {
    pub cluster: Option<u32>,
    pub key: Blob,
}

/// Why a configuration is refused.
#[derive(Debug, Drop)]
pub enum ConfigFault {
    /// The text is no TOML, or not in UTF-8.
    NotToml,
    /// A key that has to be there isn't.
    Missing(Place),
    /// The value of a key, or a member of it, has another type.
    WrongType(Place),
    /// The value has the right type, and can't be meant.
    BadValue(Place),
    /// A key that the configuration doesn't have.
    UnknownKey(Place),
    /// A filter that there isn't. Its text stands in place of the key.
    UnknownFilter(Place),
    /// The plans can't be served.
    Plan(PlanFault),
    NoMemory,
}

impl From<NoMemory> for ConfigFault {
    ghost use Rattle.std.specs.Prelude.{◌≡◌};
    ghost use Rattle.proxy_config.specs.declared.fault.ConfigFault.TheVariants as faults;

    ghost from_gives = { λ _ fault. fault ≡ faults.NoMemory };

    fn from(_refused: NoMemory) -> ConfigFault {
        ConfigFault::NoMemory
    }
}

// A fault at a place.
#[derive(Clone, Copy)]
pub(crate) enum Why {
    Missing,
    WrongType,
    BadValue,
    UnknownKey,
    UnknownFilter,
}

// The fault at that place, whose key is copied.
pub(crate) fn refuse(alloc: Global, why: Why, cluster: Option<u32>, key: &[u8]) -> ConfigFault
    ensures { IsFault result (fault_at why (key_place cluster key.now)) }
{
    let key = match Blob::copy(alloc, key) {
        Ok(key) => key,
        Err(NoMemory) => return ConfigFault::NoMemory,
    };
    let place = Place { cluster, key };
    match why {
        Why::Missing => ConfigFault::Missing(place),
        Why::WrongType => ConfigFault::WrongType(place),
        Why::BadValue => ConfigFault::BadValue(place),
        Why::UnknownKey => ConfigFault::UnknownKey(place),
        Why::UnknownFilter => ConfigFault::UnknownFilter(place),
    }
}
