ghost use Rattle.std.specs.Prelude.{◌≡◌, ◌<◌, ◌≤◌, ◌↔◌, ◌++◌, ◌∷◌, [], false, length, drop, Some, IsErr, IfOk, OnErr};
ghost use Rattle.kp_edge.specs.Counts.{HasCause};
ghost use Rattle.kp_edge.specs.Source.{ComesNext, LastingEnd, outcome};
ghost use Rattle.kp_edge.specs.MemoryInput.{IsFailingRead, limit, portion, after_giving, after_failing};

use crate::unread::Unread;
use crate::{Blob, Failed, ReadLog, Source, raise};
use std::marker::Model;

/// A source in memory that gives its bytes in pieces and fails at the reads that are listed.
///
/// Reads are numbered from 0. Read number `i` gives at most `pieces[i]` bytes, where 0 counts as 1, and
/// a read behind that list as many as fit. After the end was given no read fails.
#[derive(Debug, Drop)]
pub struct MemSource {
    unread: Unread,
    pieces: Vec<u32>,
    failing: Vec<u64>,
    number: u64,
    ended: bool,
    log: ReadLog,
    faults: u64,
}

impl Model for MemSource {
    ghost use Rattle.std.specs.Prelude.{◌≡◌, true, []};
    ghost use Rattle.kp_edge.specs.MemoryInput.{MemoryInput};

    ghost Value = { MemoryInput };

    ghost view = { λ s. record {
      coming = s.unread;
      pieces = s.pieces.items;
      failing = s.failing.items;
      number = s.number;
      ended = s.ended;
      reads = s.log.outcomes;
      faults = s.faults;
    } };

    ghost invariant = { λ s. s.ended ≡ true → s.unread ≡ [] };
}

impl MemSource {
    pub fn new(bytes: Blob, pieces: Vec<u32>, failing: Vec<u64>) -> MemSource
        ensures { result ≡ record {
          coming = bytes;
          pieces = pieces.items;
          failing = failing.items;
          number = 0;
          ended = false;
          reads = [];
          faults = 0;
        } }
    {
        MemSource {
            unread: Unread::new(bytes),
            pieces,
            failing,
            number: 0,
            ended: false,
            log: ReadLog::new(),
            faults: 0,
        }
    }

    /// How many reads failed.
    pub fn faults(&self) -> u64
        ensures { result ≡ self.now.faults }
    {
        self.faults
    }
}

// The most bytes that the read of this number gives into so much room.
fn limit_at(pieces: &[u32], number: u64, room: usize) -> usize
    ensures { result ≡ limit pieces.now number room }
{
    match pieces.get(number as usize) {
        Some(piece) => ((*piece).max(1) as usize).min(room),
        None => room,
    }
}

impl Source for MemSource {
    ghost coming = { λ s. Some s.coming };

    ghost reads = { λ s. Some s.reads };

    ghost ended = { λ s. s.ended };

    ghost faults = { λ s. s.faults };

    fn read(&mut self, buf: &mut [u8]) -> Result<usize, Failed>
        requires { 0 < length buf.old }
        ensures fails { IsErr result ↔ IsFailingRead self.old }
        ensures count { IfOk result (λ n. n ≡ portion self.old (length buf.old)) }
        ensures after { IfOk result (λ n. self.new ≡ after_giving self.old n buf.new) }
        ensures others { IfOk result (λ n. drop n buf.new ≡ drop n buf.old) }
        ensures after_failure { OnErr result (self.new ≡ after_failing self.old) }
        ensures buffer { OnErr result (buf.new ≡ buf.old) }

        // as of every source
        ensures bound { IfOk result (λ n. n ≤ length buf.new) }
        ensures bytes { IfOk result (λ n. ComesNext n self.old.coming (Some self.new.coming) buf.new) }
        ensures failed { OnErr result (self.new.coming ≡ self.old.coming) }
        ensures told { self.new.reads ≡ self.old.reads ++ outcome result buf.new ∷ [] }
        ensures end { LastingEnd self.old.ended self.new.ended result }
        ensures cause { HasCause self.old.faults self.new.faults result }
    {
        let number = self.number;
        self.number = raise(number);
        if !self.ended && self.failing.contains(&number) {
            self.faults = raise(self.faults);
            let read = Err(Failed);
            self.log.note(buf, &read);
            return read;
        }
        let most = limit_at(self.pieces.as_slice(), number, buf.len());
        let count = self.unread.give(&mut buf[..most]);
        self.ended = count == 0;
        let read = Ok(count);
        self.log.note(buf, &read);
        read
    }
}
