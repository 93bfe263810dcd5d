ghost use Rattle.std.specs.Prelude.{◌≡◌};
ghost use Rattle.tree_codec.specs.declared.encode_fault.EncodeFault.TheVariants as faults;

use wire_types::NoMemory;

/// Why a body was not encoded.
#[derive(Clone, Copy, Debug, PartialEq, Eq, Drop)]
pub enum EncodeFault {
    /// Its spelling has this many bytes, which is more than was allowed.
    GrownPast { size: u64 },
    NoMemory,
}

impl From<NoMemory> for EncodeFault {
    ghost from_gives = { λ _ fault. fault ≡ faults.NoMemory };

    fn from(_error: NoMemory) -> EncodeFault {
        EncodeFault::NoMemory
    }
}
