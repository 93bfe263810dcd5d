ghost use Rattle.std.specs.Prelude.{◌≡◌, ◌<◌, ◌≤◌, ◌↔◌, ◌++◌, [], Some, length, take, IsErr, IfOk, OnErr};
ghost use Rattle.kp_edge.specs.Counts.{HasCause};
ghost use Rattle.kp_edge.specs.Outlet.{IsFailingWrite, share, after_accepting, after_refusing};

use crate::{Failed, NoMemory, Sink, SureSink, raise};
use std::alloc::Global;
use std::marker::Model;

/// A sink in memory that takes at most so many bytes in a write, and also fails at the writes that are
/// listed. Writes are numbered from 0.
#[derive(Debug, Drop)]
pub struct MemSink {
    store: SureSink,
    most: u32,
    failing: Vec<u64>,
    number: u64,
    faults: u64,
}

impl Model for MemSink {
    ghost use Rattle.kp_edge.specs.Outlet.{Outlet};

    ghost Value = { Outlet };

    ghost view = { λ s. record {
      taken = s.store.taken;
      room = s.store.room;
      most = s.most;
      failing = s.failing.items;
      number = s.number;
      faults = s.faults;
    } };
}

impl MemSink {
    /// Reserves the room at once. A `most` of 0 counts as 1.
    pub fn new(alloc: Global, most: u32, room: u64, failing: Vec<u64>) -> Result<MemSink, NoMemory>
        ensures { IfOk result (λ s. s ≡ record {
          taken = [];
          room = room;
          most = most;
          failing = failing.items;
          number = 0;
          faults = 0;
        }) }
    {
        Ok(MemSink {
            store: SureSink::new(alloc, room)?,
            most,
            failing,
            number: 0,
            faults: 0,
        })
    }

    /// What was taken, in order.
    pub fn bytes(&self) -> &[u8]
        ensures { result.now ≡ self.now.taken }
    {
        self.store.bytes()
    }

    /// How many writes failed.
    pub fn faults(&self) -> u64
        ensures { result ≡ self.now.faults }
    {
        self.faults
    }
}

impl Sink for MemSink {
    ghost taken = { λ s. Some s.taken };

    ghost faults = { λ s. s.faults };

    fn write(&mut self, piece: &[u8]) -> Result<usize, Failed>
        ensures fails { IsErr result ↔ IsFailingWrite self.old piece.now }
        ensures count { IfOk result (λ n. n ≡ share self.old piece.now) }
        ensures after { IfOk result (λ n. self.new ≡ after_accepting self.old piece.now n) }
        ensures after_failure { OnErr result (self.new ≡ after_refusing self.old) }

        // as of every sink
        ensures bound { IfOk result (λ n. n ≤ length piece.now) }
        ensures progress { IfOk result (λ n. 0 < length piece.now → 0 < n) }
        ensures bytes { IfOk result (λ n. self.new.taken ≡ self.old.taken ++ take n piece.now) }
        ensures failed { OnErr result (self.new.taken ≡ self.old.taken) }
        ensures cause { HasCause self.old.faults self.new.faults result }
    {
        let number = self.number;
        self.number = raise(number);
        if self.failing.contains(&number) {
            self.faults = raise(self.faults);
            return Err(Failed);
        }
        let most = piece.len().min(self.most.max(1) as usize);
        let outcome = self.store.write(&piece[..most]);
        if outcome.is_err() {
            self.faults = raise(self.faults);
        }
        outcome
    }

    fn finish(&mut self)
        ensures same { self.new ≡ self.old }

        // as of every sink
        ensures kept { self.new.taken ≡ self.old.taken }
        ensures count { self.new.faults ≡ self.old.faults }
    {}
}
