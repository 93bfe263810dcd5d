ghost use Rattle.std.specs.Prelude.{◌≡◌, ◌<◌, ◌≤◌, ◌++◌, ◌∷◌, [], ℕ, Bool, List, Option, Some, length, IfOk, IfSome, OnErr};
ghost use Rattle.kp_edge.specs.Counts.{HasCause};
ghost use Rattle.kp_edge.specs.Source.{ComesNext, LastingEnd, ReadOutcome, outcome};

use crate::Failed;

/// A stream of bytes that comes in.
pub trait Source {
    /// What is still to come, where the object tells it.
    ghost coming: { Self → Option (List ℕ) };

    /// What its reads came to, in order, where the object tells it.
    ghost reads: { Self → Option (List ReadOutcome) };

    /// Whether it gave its end.
    ghost ended: { Self → Bool };

    /// How many reads failed.
    ghost faults: { Self → ℕ };

    /// Puts the next bytes at the front of the buffer and says how many. None are given at the end alone, and
    /// ever after. It may wait for bytes to come.
    fn read(&mut self, buf: &mut [u8]) -> Result<usize, Failed>
        requires { 0 < length buf.old }
        ensures bound { IfOk result (λ n. n ≤ length buf.new) }
        ensures bytes { IfOk result (λ n. IfSome (coming self.old) (λ xs. ComesNext n xs (coming self.new) buf.new)) }
        ensures failed { OnErr result (coming self.new ≡ coming self.old) }
        ensures told { IfSome (reads self.old) (λ before. reads self.new ≡ Some (before ++ outcome result buf.new ∷ [])) }
        ensures end { LastingEnd (ended self.old) (ended self.new) result }
        ensures cause { HasCause (faults self.old) (faults self.new) result };
}
