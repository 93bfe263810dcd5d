ghost use Rattle.std.specs.Prelude.{◌≡◌, Some};
ghost use Rattle.virtual_cluster.specs.Refusals.{limit_word};

use crate::{LimitKey, PlanFault};
use std::fmt;

impl LimitKey {
    /// The key as the configuration writes it.
    pub fn word(self) -> &'static str
        ensures { result.now ≡ limit_word self }
    {
        match self {
            LimitKey::Name => "name",
            LimitKey::Listen => "listen",
            LimitKey::Advertise => "advertise",
            LimitKey::FirstNode => "first_node",
            LimitKey::Bootstrap => "bootstrap",
            LimitKey::Nodes => "nodes",
            LimitKey::Prefix => "prefix",
            LimitKey::Filters => "filters",
            LimitKey::PolicyDeny => "policy_deny",
            LimitKey::InFlight => "in_flight",
            LimitKey::Completers => "completers",
            LimitKey::Connections => "connections",
        }
    }
}

impl fmt::Display for PlanFault {
    ghost use Rattle.std.specs.Prelude.{Some};
    ghost use Rattle.virtual_cluster.specs.Refusals.{plan_fault_text};

    ghost output = { λ fault. Some (plan_fault_text fault) };

    fn fmt<W: fmt::Write>(&self, f: &mut fmt::Formatter<W>) -> fmt::Result {
        match *self {
            PlanFault::BadLimit { a, key } => {
                let word = key.word();
                write!(f, "bad-limit {a} {word}")
            }
            PlanFault::PortRange { a } => write!(f, "port-range {a}"),
            PlanFault::NameTwice { a, b } => write!(f, "name-twice {a} {b}"),
            PlanFault::PortClash { a, b } => write!(f, "port-clash {a} {b}"),
            PlanFault::PrefixClash { a, b } => write!(f, "prefix-clash {a} {b}"),
            PlanFault::NoMemory => write!(f, "no-memory"),
        }
    }
}
