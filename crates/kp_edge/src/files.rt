ghost use Rattle.std.specs.Prelude.{◌≡◌, ◌≤◌, ℕ, List, length, IfOk, IsErrOf};
ghost use Rattle.kp_edge.specs.Counts.{Counted};
ghost use Rattle.kp_edge.specs.Files.{Content, IsFrontOf};

use crate::{Blob, NoMemory};
use std::alloc::{AllocError, AllocFailed, Global};

/// Why a file wasn't read.
#[derive(Clone, Copy, Debug, PartialEq, Eq)]
pub enum FileFault {
    /// There is no such file, or reading it failed. The count of faults rose in that call.
    Failed,
    NoMemory,
}

/// Files by their names.
pub trait Files {
    /// What the file of a name holds, or that there is none of that name, where the object tells it.
    ghost content: { Self → List ℕ → Content };

    /// How many reads failed.
    ghost faults: { Self → ℕ };

    /// The first `most` bytes of the file, or all where it has fewer. It may wait for the machine. Want of
    /// memory is no failure of the files and isn't counted.
    fn read(&mut self, alloc: Global, name: &[u8], most: usize) -> Result<Blob, FileFault>
        ensures bytes { IfOk result (λ blob. IsFrontOf (content self.old name.now) most blob) }
        ensures bound { IfOk result (λ blob. length blob ≤ most) }
        ensures kept { (n : List ℕ) → content self.new n ≡ content self.old n }
        ensures cause { Counted (IsErrOf result FileFault.Failed) (faults self.old) (faults self.new) };
}

impl From<NoMemory> for FileFault {
    ghost use Rattle.std.specs.Prelude.{◌≡◌};
    ghost use Rattle.kp_edge.specs.declared.files.FileFault.TheVariants.{NoMemory};

    ghost from_gives = { λ _ fault. fault ≡ NoMemory };

    fn from(_refused: NoMemory) -> FileFault {
        FileFault::NoMemory
    }
}

impl From<AllocError> for FileFault {
    ghost use Rattle.std.specs.Prelude.{◌≡◌};
    ghost use Rattle.kp_edge.specs.declared.files.FileFault.TheVariants.{NoMemory};

    ghost from_gives = { λ _ fault. fault ≡ NoMemory };

    fn from(_refused: AllocError) -> FileFault {
        FileFault::NoMemory
    }
}

impl<T: Drop> From<AllocFailed<T>> for FileFault {
    ghost use Rattle.std.specs.Prelude.{◌≡◌};
    ghost use Rattle.kp_edge.specs.declared.files.FileFault.TheVariants.{NoMemory};

    ghost from_gives = { λ _ fault. fault ≡ NoMemory };

    fn from(_refused: AllocFailed<T>) -> FileFault {
        FileFault::NoMemory
    }
}
