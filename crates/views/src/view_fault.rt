ghost use Rattle.std.specs.Prelude.{◌≡◌};
ghost use Rattle.views.specs.declared.view_fault.ViewFault.TheVariants as faults;

use std::alloc::{AllocError, AllocFailed};
use wire_types::NoMemory;

/// Why a body has no such view, or a view no body.
#[derive(Clone, Copy, Debug, PartialEq, Eq, Drop)]
pub enum ViewFault {
    /// The body is of another API, or of the other direction.
    WrongApi,
    /// This field is given and the version has none, or it is missing and the version has it. Fields are
    /// counted from 0, an array and its entries' fields each counted.
    Misplaced { field: u16 },
    /// A text or a list of bytes has more bytes, or an array more entries, than its length can say.
    TooLong { length: u64 },
    NoMemory,
}

impl From<AllocError> for ViewFault {
    ghost from_gives = { λ _ fault. fault ≡ faults.NoMemory };

    fn from(_error: AllocError) -> ViewFault {
        ViewFault::NoMemory
    }
}

impl<T: Drop> From<AllocFailed<T>> for ViewFault {
    ghost from_gives = { λ _ fault. fault ≡ faults.NoMemory };

    fn from(_error: AllocFailed<T>) -> ViewFault {
        ViewFault::NoMemory
    }
}

impl From<NoMemory> for ViewFault {
    ghost from_gives = { λ _ fault. fault ≡ faults.NoMemory };

    fn from(_error: NoMemory) -> ViewFault {
        ViewFault::NoMemory
    }
}
