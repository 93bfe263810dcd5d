ghost use Rattle.std.specs.Prelude.{◌≡◌};

use kp_edge::NoMemory;

/// The part of a plan whose limit is broken.
#[derive(Clone, Copy, Debug, PartialEq, Eq)]
pub enum LimitKey {
    Name,
    Listen,
    Advertise,
    FirstNode,
    Bootstrap,
    Nodes,
    Prefix,
    Filters,
    PolicyDeny,
    InFlight,
    Completers,
    Connections,
}

/// Why plans can't be served. Plans are numbered from 0.
#[derive(Clone, Copy, Debug, PartialEq, Eq)]
pub enum PlanFault {
    /// Plan `a` breaks the limit of `key`.
    BadLimit { a: u32, key: LimitKey },
    /// Plan `a` has port 0, or a port past 65,535.
    PortRange { a: u32 },
    /// Two plans have one name.
    NameTwice { a: u32, b: u32 },
    /// Two plans have a port in common.
    PortClash { a: u32, b: u32 },
    /// Two plans share a broker, and the prefix of one begins that of the other.
    PrefixClash { a: u32, b: u32 },
    NoMemory,
}

/// Why a name got no prefix.
#[derive(Clone, Copy, Debug, PartialEq, Eq)]
pub enum NameFault {
    /// With the prefix it has this many bytes, which no STRING can have.
    TooLong { length: u64 },
    NoMemory,
}

impl From<NoMemory> for NameFault {
    ghost use Rattle.std.specs.Prelude.{◌≡◌};
    ghost use Rattle.virtual_cluster.specs.declared.fault.NameFault.TheVariants as faults;

    ghost from_gives = { λ _ fault. fault ≡ faults.NoMemory };

    fn from(_refused: NoMemory) -> NameFault {
        NameFault::NoMemory
    }
}
