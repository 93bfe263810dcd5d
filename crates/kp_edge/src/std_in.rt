ghost use Rattle.std.specs.Prelude.{◌≡◌, false, None, IsOkAnd};

use crate::{Failed, NoMemory, Source, raise};
use std::io::{Input, Read};
use std::marker::Model;

/// The standard input. It tells no bytes: contracts see whether it gave its end, and how many reads failed.
/// A read puts what the machine has straight into the buffer, and may wait for it. After the end the machine
/// isn't read any more, so a terminal on which more is typed stays at its end.
#[derive(Drop)]
pub struct StdIn<R: Input> {
    reader: R::Reader,
    ended: bool,
    faults: u64,
}

impl<R: Input> Model for StdIn<R> {
    ghost use Rattle.kp_edge.specs.Adapter.{AdapterIn};

    ghost Value = { AdapterIn };

    ghost view = { λ s. record { ended = s.ended; faults = s.faults } };
}

impl<R: Input> StdIn<R> {
    pub fn new(rt: &R) -> Result<StdIn<R>, NoMemory>
        ensures { IsOkAnd result (λ s. s ≡ record { ended = false; faults = 0 }) }
    {
        Ok(StdIn {
            reader: rt.reader(),
            ended: false,
            faults: 0,
        })
    }

    /// How many reads failed.
    pub fn faults(&self) -> u64
        ensures { result ≡ self.now.faults }
    {
        self.faults
    }
}

impl<R: Input> Source for StdIn<R> {
    ghost coming = { λ _. None };

    ghost reads = { λ _. None };

    ghost ended = { λ s. s.ended };

    ghost faults = { λ s. s.faults };

    fn read(&mut self, buf: &mut [u8]) -> Result<usize, Failed> {
        if self.ended {
            return Ok(0);
        }
        match self.reader.read(buf) {
            Ok(n) => {
                self.ended = n == 0;
                Ok(n)
            }
            Err(_) => {
                self.faults = raise(self.faults);
                Err(Failed)
            }
        }
    }
}
