ghost use Rattle.std.specs.Prelude.{◌≡◌};
ghost use Rattle.framing.specs.declared.head_fault.HeadFault.TheVariants as faults;

use std::alloc::AllocError;

/// Why the head of a request was not read: the first of these that applies.
#[derive(Clone, Copy, Debug, PartialEq, Eq)]
pub enum HeadFault {
    /// The frame has fewer than eight bytes.
    Short,
    /// The client id is missing, or is not spelled as a STRING.
    BadClientId,
    NoMemory,
}

impl From<AllocError> for HeadFault {
    ghost from_gives = { λ _ fault. fault ≡ faults.NoMemory };

    fn from(_error: AllocError) -> HeadFault {
        HeadFault::NoMemory
    }
}
