ghost use Rattle.std.specs.Prelude.{◌≡◌, ◌≤◌, Err, length, IfOk, IsErrOf, IsUtf8, vec_len};
ghost use Rattle.kp_edge.specs.Counts.{Counted};
ghost use Rattle.kp_edge.specs.Files.{Untold};

use crate::{Blob, FileFault, Files, NoMemory, raise};
use std::alloc::Global;
use std::io::{Error, ErrorKind, Read};
use std::marker::Model;
use std::{fs, str};

/// The files of the machine, whose names are paths in UTF-8. It tells no bytes: contracts see how many
/// reads failed.
#[derive(Drop)]
pub struct HostFiles<R: std::rt::Files + Clone + Drop> {
    rt: R,
    faults: u64,
}

impl<R: std::rt::Files + Clone + Drop> Model for HostFiles<R> {
    ghost use Rattle.std.specs.Prelude.{ℕ};

    ghost Value = { ℕ };

    ghost view = { λ f. f.faults };
}

impl<R: std::rt::Files + Clone + Drop> HostFiles<R> {
    pub fn new(rt: &R) -> Result<HostFiles<R>, NoMemory>
        ensures { IfOk result (λ f. f ≡ 0) }
    {
        Ok(HostFiles {
            rt: rt.clone()?,
            faults: 0,
        })
    }

    /// How many reads failed.
    pub fn faults(&self) -> u64
        ensures { result ≡ self.now }
    {
        self.faults
    }
}

// The first `most` bytes of the file at that path.
fn read_front<R: std::rt::Files>(
    rt: &R,
    alloc: Global,
    name: &[u8],
    most: usize,
) -> Result<Vec<u8>, FileFault>
    ensures bound { IfOk result (λ bytes. vec_len bytes ≤ most) }
    ensures no_text { ¬ (IsUtf8 name.now) → result ≡ Err FileFault.Failed }
{
    let path = str::from_utf8(name).map_err(|_| FileFault::Failed)?;
    let file = fs::open(rt, path).map_err(fault_of)?;
    let mut bytes = Vec::new(alloc);
    file.take(most as u64)
        .read_to_end(&mut bytes)
        .map_err(fault_of)?;
    bytes.truncate(most);
    Ok(bytes)
}

fn fault_of(error: Error) -> FileFault {
    if error.kind() == ErrorKind::OutOfMemory {
        FileFault::NoMemory
    } else {
        FileFault::Failed
    }
}

impl<R: std::rt::Files + Clone + Drop> Files for HostFiles<R> {
    ghost content = { λ _ _. Untold };

    ghost faults = { λ f. f };

    fn read(&mut self, alloc: Global, name: &[u8], most: usize) -> Result<Blob, FileFault>
        ensures no_text { ¬ (IsUtf8 name.now) → result ≡ Err FileFault.Failed }

        // as of all files
        ensures bound { IfOk result (λ blob. length blob ≤ most) }
        ensures cause { Counted (IsErrOf result FileFault.Failed) self.old self.new }
    {
        match read_front(&self.rt, alloc, name, most) {
            Ok(bytes) => Ok(Blob::from_vec(bytes)),
            Err(FileFault::NoMemory) => Err(FileFault::NoMemory),
            Err(FileFault::Failed) => {
                self.faults = raise(self.faults);
                Err(FileFault::Failed)
            }
        }
    }
}
