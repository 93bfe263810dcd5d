ghost use Rattle.std.specs.Prelude.{◌≡◌, ◌<◌, ◌≤◌, ◌++◌, ℕ, List, Option, Some, length, take, IfOk, IfSome, OnErr};
ghost use Rattle.kp_edge.specs.Counts.{HasCause};

use crate::Failed;

/// A stream of bytes that goes out.
pub trait Sink {
    /// What was taken so far, where the object tells it.
    ghost taken: { Self → Option (List ℕ) };

    /// How many writes failed.
    ghost faults: { Self → ℕ };

    /// Takes the first bytes of the piece and says how many. It may wait for room.
    fn write(&mut self, piece: &[u8]) -> Result<usize, Failed>
        ensures bound { IfOk result (λ n. n ≤ length piece.now) }
        ensures progress { IfOk result (λ n. 0 < length piece.now → 0 < n) }
        ensures bytes { IfOk result (λ n. IfSome (taken self.old) (λ xs. taken self.new ≡ Some (xs ++ take n piece.now))) }
        ensures failed { OnErr result (taken self.new ≡ taken self.old) }
        ensures cause { HasCause (faults self.old) (faults self.new) result };

    /// Ends the stream towards the peer. It has no answer, so it counts no failure.
    fn finish(&mut self)
        ensures kept { taken self.new ≡ taken self.old }
        ensures count { faults self.new ≡ faults self.old };
}
