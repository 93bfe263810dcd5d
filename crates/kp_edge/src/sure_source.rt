ghost use Rattle.std.specs.Prelude.{◌≡◌, ◌<◌, ◌≤◌, ◌++◌, ◌∷◌, ◌==◌, [], false, length, min, drop, Some, IsOk, IfOk, OnErr};
ghost use Rattle.kp_edge.specs.Counts.{HasCause};
ghost use Rattle.kp_edge.specs.Source.{ComesNext, LastingEnd, outcome};
ghost use Rattle.kp_edge.specs.Supply.{after_supplying};

use crate::unread::Unread;
use crate::{Blob, Failed, ReadLog, Source};
use std::marker::Model;

/// A source in memory that never fails.
#[derive(Debug, Drop)]
pub struct SureSource {
    unread: Unread,
    ended: bool,
    log: ReadLog,
}

impl Model for SureSource {
    ghost use Rattle.std.specs.Prelude.{◌≡◌, true, []};
    ghost use Rattle.kp_edge.specs.Supply.{Supply};

    ghost Value = { Supply };

    ghost view = { λ s. record { coming = s.unread; ended = s.ended; reads = s.log.outcomes } };

    ghost invariant = { λ s. s.ended ≡ true → s.unread ≡ [] };
}

impl SureSource {
    pub fn new(bytes: Blob) -> SureSource
        ensures { result ≡ record { coming = bytes; ended = false; reads = [] } }
    {
        SureSource {
            unread: Unread::new(bytes),
            ended: false,
            log: ReadLog::new(),
        }
    }
}

impl Source for SureSource {
    ghost coming = { λ s. Some s.coming };

    ghost reads = { λ s. Some s.reads };

    ghost ended = { λ s. s.ended };

    ghost faults = { λ _. 0 };

    fn read(&mut self, buf: &mut [u8]) -> Result<usize, Failed>
        requires { 0 < length buf.old }
        ensures never_fails { IsOk result }
        ensures count { IfOk result (λ n. n ≡ min (length buf.old) (length self.old.coming)) }
        ensures after { IfOk result (λ n. self.new ≡ after_supplying self.old n buf.new) }
        ensures others { IfOk result (λ n. drop n buf.new ≡ drop n buf.old) }

        // as of every source
        ensures bound { IfOk result (λ n. n ≤ length buf.new) }
        ensures bytes { IfOk result (λ n. ComesNext n self.old.coming (Some self.new.coming) buf.new) }
        ensures failed { OnErr result (self.new.coming ≡ self.old.coming) }
        ensures told { self.new.reads ≡ self.old.reads ++ outcome result buf.new ∷ [] }
        ensures end { LastingEnd self.old.ended self.new.ended result }
        ensures cause { HasCause 0 0 result }
    {
        let count = self.unread.give(buf);
        self.ended = count == 0;
        let read = Ok(count);
        self.log.note(buf, &read);
        read
    }
}
