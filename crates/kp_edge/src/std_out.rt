ghost use Rattle.std.specs.Prelude.{◌≡◌, None, IfOk};

use crate::{Failed, NoMemory, Sink, raise};
use std::io::Print;
use std::marker::Model;

/// The standard output. It tells no bytes: contracts see how many writes failed. It has no buffer, so
/// what a write took was handed to the machine.
#[derive(Drop)]
pub struct StdOut<R: Print + Clone + Drop> {
    rt: R,
    faults: u64,
}

impl<R: Print + Clone + Drop> Model for StdOut<R> {
    ghost use Rattle.std.specs.Prelude.{ℕ};

    ghost Value = { ℕ };

    ghost view = { λ s. s.faults };
}

impl<R: Print + Clone + Drop> StdOut<R> {
    pub fn new(rt: &R) -> Result<StdOut<R>, NoMemory>
        ensures { IfOk result (λ s. s ≡ 0) }
    {
        Ok(StdOut {
            rt: rt.clone()?,
            faults: 0,
        })
    }

    /// How many writes failed.
    pub fn faults(&self) -> u64
        ensures { result ≡ self.now }
    {
        self.faults
    }
}

impl<R: Print + Clone + Drop> Sink for StdOut<R> {
    ghost taken = { λ _. None };

    ghost faults = { λ s. s };

    fn write(&mut self, piece: &[u8]) -> Result<usize, Failed> {
        if piece.is_empty() {
            return Ok(0);
        }
        match self.rt.write_some(piece) {
            Ok(n) if n > 0 => Ok(n),
            _ => {
                self.faults = raise(self.faults);
                Err(Failed)
            }
        }
    }

    fn finish(&mut self) {}
}
