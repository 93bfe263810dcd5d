ghost use Rattle.std.specs.Prelude.{◌≡◌};
ghost use Rattle.tree_spelling.specs.declared.edit_fault.EditFault.TheVariants as faults;

use std::alloc::{AllocError, AllocFailed};
use wire_types::NoMemory;

/// Why a body was not changed, or not made.
#[derive(Clone, Copy, Debug, PartialEq, Eq, Drop)]
pub enum EditFault {
    /// The path names nothing, or an item comes too many, or too few came.
    NoSuch,
    /// The field is of another kind.
    WrongKind,
    /// The number isn't in the range of the field's kind.
    OutOfRange { value: i64 },
    /// The text has more bytes, or the array more entries, than its length can say.
    TooLong { length: u64 },
    NoMemory,
}

impl From<AllocError> for EditFault {
    ghost from_gives = { λ _ fault. fault ≡ faults.NoMemory };

    fn from(_error: AllocError) -> EditFault {
        EditFault::NoMemory
    }
}

impl<T: Drop> From<AllocFailed<T>> for EditFault {
    ghost from_gives = { λ _ fault. fault ≡ faults.NoMemory };

    fn from(_error: AllocFailed<T>) -> EditFault {
        EditFault::NoMemory
    }
}

impl From<NoMemory> for EditFault {
    ghost from_gives = { λ _ fault. fault ≡ faults.NoMemory };

    fn from(_error: NoMemory) -> EditFault {
        EditFault::NoMemory
    }
}
