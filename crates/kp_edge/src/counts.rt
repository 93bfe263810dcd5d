ghost use Rattle.std.specs.Prelude.{◌≡◌};
ghost use Rattle.kp_edge.specs.Counts.{raised, Rose};

/// The next number of a count of calls or failures. At its type's end the count stands still.
pub fn raise(count: u64) -> u64
    ensures next { result ≡ raised count }
    ensures rose { Rose count result }
{
    count.saturating_add(1)
}
