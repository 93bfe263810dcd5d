ghost use Rattle.std.specs.Prelude.{◌≡◌, ◌≤◌, ◌↔◌, ℕ, List, Some, length, take, option_copied, option_map, IfOk, IsErrOf};
ghost use Rattle.kp_edge.specs.Counts.{Counted};
ghost use Rattle.kp_edge.specs.Files.{IsFrontOf};
ghost use Rattle.kp_edge.specs.Cabinet.{content_of, file_of, IsUnreadable, after_reading};

use crate::{Blob, FileFault, Files, raise};
use std::alloc::Global;
use std::marker::Model;

/// Files in memory, by name. Of two with one name the first counts. Reads are numbered from 0, and
/// those that are listed fail.
#[derive(Debug, Drop)]
pub struct MemFiles {
    files: Vec<(Blob, Blob)>,
    failing: Vec<u64>,
    number: u64,
    faults: u64,
}

impl Model for MemFiles {
    ghost use Rattle.kp_edge.specs.Cabinet.{Cabinet};

    ghost Value = { Cabinet };

    ghost view = { λ f. record {
      files = f.files.items;
      failing = f.failing.items;
      number = f.number;
      faults = f.faults;
    } };
}

impl MemFiles {
    /// Each file is its name and its bytes.
    pub fn new(files: Vec<(Blob, Blob)>, failing: Vec<u64>) -> MemFiles
        ensures { result ≡ record { files = files.items; failing = failing.items; number = 0; faults = 0 } }
    {
        MemFiles {
            files,
            failing,
            number: 0,
            faults: 0,
        }
    }

    /// How many reads failed.
    pub fn faults(&self) -> u64
        ensures { result ≡ self.now.faults }
    {
        self.faults
    }
}

// The first file of that name.
fn find<'a>(files: &'a [(Blob, Blob)], name: &[u8]) -> Option<&'a Blob>
    ensures { option_copied result ≡ file_of files.now name.now }
{
    for (known, bytes) in files {
        if known.as_slice() == name {
            return Some(bytes);
        }
    }
    None
}

impl Files for MemFiles {
    ghost content = { λ f name. content_of (file_of f.files name) };

    ghost faults = { λ f. f.faults };

    fn read(&mut self, alloc: Global, name: &[u8], most: usize) -> Result<Blob, FileFault>
        ensures fails { IsErrOf result FileFault.Failed ↔ IsUnreadable self.old name.now }
        ensures found { IfOk result (λ blob. option_map (take most) (file_of self.old.files name.now) ≡ Some blob) }
        ensures after { self.new ≡ after_reading self.old result }

        // as of all files
        ensures bytes { IfOk result (λ blob. IsFrontOf (content_of (file_of self.old.files name.now)) most blob) }
        ensures bound { IfOk result (λ blob. length blob ≤ most) }
        ensures kept { (n : List ℕ) → content_of (file_of self.new.files n) ≡ content_of (file_of self.old.files n) }
        ensures cause { Counted (IsErrOf result FileFault.Failed) self.old.faults self.new.faults }
    {
        let number = self.number;
        self.number = raise(number);
        if self.failing.contains(&number) {
            self.faults = raise(self.faults);
            return Err(FileFault::Failed);
        }
        match find(self.files.as_slice(), name) {
            Some(bytes) => {
                let count = bytes.len().min(most);
                Ok(Blob::copy(alloc, &bytes.as_slice()[..count])?)
            }
            None => {
                self.faults = raise(self.faults);
                Err(FileFault::Failed)
            }
        }
    }
}
