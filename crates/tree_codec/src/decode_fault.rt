ghost use Rattle.std.specs.Prelude.{◌≡◌};
ghost use Rattle.tree_codec.specs.declared.decode_fault.DecodeFault.TheVariants as faults;
ghost use Rattle.tree_codec.specs.Faults.{as_not_spelled};

use std::alloc::{AllocError, AllocFailed};
use wire_types::{NoMemory, ReadFault};

/// Why bytes were not decoded. `at` is a place in the body.
#[derive(Clone, Copy, Debug, PartialEq, Eq, Drop)]
pub enum DecodeFault {
    /// The first item that can't be read, or the first byte too many.
    NotSpelled { at: usize },
    /// The count that passes 8,388,608 entries in sum.
    TooManyEntries { at: usize },
    NoMemory,
}

impl From<ReadFault> for DecodeFault {
    ghost from_gives = { λ fault made. made ≡ as_not_spelled fault };

    fn from(fault: ReadFault) -> DecodeFault {
        match fault {
            ReadFault::Short { at } | ReadFault::BadLength { at } => DecodeFault::NotSpelled { at },
        }
    }
}

impl From<AllocError> for DecodeFault {
    ghost from_gives = { λ _ fault. fault ≡ faults.NoMemory };

    fn from(_error: AllocError) -> DecodeFault {
        DecodeFault::NoMemory
    }
}

impl<T: Drop> From<AllocFailed<T>> for DecodeFault {
    ghost from_gives = { λ _ fault. fault ≡ faults.NoMemory };

    fn from(_error: AllocFailed<T>) -> DecodeFault {
        DecodeFault::NoMemory
    }
}

impl From<NoMemory> for DecodeFault {
    ghost from_gives = { λ _ fault. fault ≡ faults.NoMemory };

    fn from(_error: NoMemory) -> DecodeFault {
        DecodeFault::NoMemory
    }
}
