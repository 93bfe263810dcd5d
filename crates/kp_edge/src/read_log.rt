ghost use Rattle.std.specs.Prelude.{◌≡◌, ◌≤◌, List, [], ◌∷◌, ◌++◌, length, IfOk};
ghost use Rattle.std.specs.Borrow.{ftrue};
ghost use Rattle.std.specs.Coded.{coded_list};
ghost use Rattle.kp_edge.specs.Source.{ReadOutcome, outcome};
ghost use Rattle.kp_edge.specs.ReadCode.{outcome_code};
ghost use Rattle.kp_edge.specs.ReadNotes.{outcome_of};

use crate::Failed;
use std::marker::Model;

/// What the reads of a source came to, in order, which proofs alone see: it takes no bytes, and nothing of
/// it is left when the program runs. A source that tells its reads keeps one and notes each.
#[derive(Debug, Drop)]
pub struct ReadLog {
    pub ghost outcomes: { List ReadOutcome } by { coded_list outcome_code },
}

// Nothing in memory stands for the list, so `new` and `with` are proved by hand.
impl Model for ReadLog {
    ghost also_owns = { λ _. ftrue };
}

// One read.
#[derive(Clone, Copy, Drop)]
pub(crate) enum ReadNote<'a> {
    Bytes(&'a [u8]),
    AtEnd,
    Failure,
}

impl ReadLog {
    pub fn new() -> ReadLog
        ensures { result.outcomes ≡ [] }
    {
        ReadLog {}
    }

    /// Notes what a read into this buffer gave.
    pub fn note(&mut self, buf: &[u8], read: &Result<usize, Failed>)
        requires { IfOk read.now (λ n. n ≤ length buf.now) }
        ensures { self.new.outcomes ≡ self.old.outcomes ++ outcome read.now buf.now ∷ [] }
    {
        *self = self.with(&note_of(buf, read));
    }

    fn with(&self, _note: &ReadNote<'_>) -> ReadLog
        ensures { result.outcomes ≡ self.now.outcomes ++ outcome_of _note.now ∷ [] }
    {
        ReadLog {}
    }
}

// What the log notes of a read.
fn note_of<'a>(buf: &'a [u8], read: &Result<usize, Failed>) -> ReadNote<'a>
    requires { IfOk read.now (λ n. n ≤ length buf.now) }
    ensures { outcome_of result ≡ outcome read.now buf.now }
{
    match *read {
        Ok(0) => ReadNote::AtEnd,
        Ok(n) => ReadNote::Bytes(buf.split_at(n).0),
        Err(Failed) => ReadNote::Failure,
    }
}
