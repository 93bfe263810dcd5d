ghost use Rattle.std.specs.Prelude.{◌≡◌, ◌+◌, ◌-◌, ◌<◌, ◌≤◌, ◌↔◌, ◌++◌, [], Some, length, min, take, IsOk, IsErr, IfOk, OnErr};
ghost use Rattle.kp_edge.specs.Counts.{HasCause, raised};
ghost use Rattle.kp_edge.specs.Store.{IsFullFor, after_taking};

use crate::{Failed, NoMemory, Sink, raise};
use std::alloc::Global;
use std::marker::Model;

/// A sink in memory with so much room. It takes no memory after it was made, and fails only where its
/// room is used up.
#[derive(Debug, Drop)]
pub struct SureSink {
    bytes: Vec<u8>,
    room: u64,
    faults: u64,
}

impl Model for SureSink {
    ghost use Rattle.std.specs.Prelude.{◌+◌, ◌≤◌, vec_len, vec_capacity};
    ghost use Rattle.kp_edge.specs.Store.{Store};

    ghost Value = { Store };

    ghost view = { λ s. record { taken = s.bytes.items; room = s.room; faults = s.faults } };

    ghost invariant = { λ s. vec_len s.bytes + s.room ≤ vec_capacity s.bytes };
}

impl SureSink {
    /// Reserves the room at once.
    pub fn new(alloc: Global, room: u64) -> Result<SureSink, NoMemory>
        ensures { IfOk result (λ s. s ≡ record { taken = []; room = room; faults = 0 }) }
    {
        Ok(SureSink {
            bytes: Vec::with_capacity(alloc, room as usize)?,
            room,
            faults: 0,
        })
    }

    /// What was taken, in order.
    pub fn bytes(&self) -> &[u8]
        ensures { result.now ≡ self.now.taken }
    {
        self.bytes.as_slice()
    }

    /// How many writes failed.
    pub fn faults(&self) -> u64
        ensures { result ≡ self.now.faults }
    {
        self.faults
    }
}

impl Sink for SureSink {
    ghost taken = { λ s. Some s.taken };

    ghost faults = { λ s. s.faults };

    fn write(&mut self, piece: &[u8]) -> Result<usize, Failed>
        ensures fails { IsErr result ↔ IsFullFor self.old piece.now }
        ensures count { IfOk result (λ n. n ≡ min (length piece.now) self.old.room) }
        ensures after { IfOk result (λ n. self.new ≡ after_taking self.old piece.now n) }
        ensures after_failure { OnErr result (self.new ≡ record self.old { faults = raised self.old.faults }) }

        // as of every sink
        ensures bound { IfOk result (λ n. n ≤ length piece.now) }
        ensures progress { IfOk result (λ n. 0 < length piece.now → 0 < n) }
        ensures bytes { IfOk result (λ n. self.new.taken ≡ self.old.taken ++ take n piece.now) }
        ensures failed { OnErr result (self.new.taken ≡ self.old.taken) }
        ensures cause { HasCause self.old.faults self.new.faults result }
    {
        if self.room == 0 && !piece.is_empty() {
            self.faults = raise(self.faults);
            return Err(Failed);
        }
        let count = piece.len().min(self.room as usize);
        self.bytes.extend_from_slice(&piece[..count]).unwrap();
        self.room -= count as u64;
        Ok(count)
    }

    fn finish(&mut self)
        ensures same { self.new ≡ self.old }

        // as of every sink
        ensures kept { self.new.taken ≡ self.old.taken }
        ensures count { self.new.faults ≡ self.old.faults }
    {}
}
