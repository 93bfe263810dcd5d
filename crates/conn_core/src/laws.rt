ghost use Rattle.std.specs.Prelude.{ℕ, List};
ghost use Rattle.filter_core.specs.Decision.{Turn};
ghost use Rattle.conn_rules.specs.Meaning.{Lasting};
ghost use Rattle.conn_rules.specs.Told.{FailsByOwnEnds};
ghost use Rattle.conn_core.specs.Chained.{chained};
ghost use Rattle.conn_core.specs.Spelled.{PassesAsItCame, AnswersPassAsTheyCame};

/// What the law of order asks, of every chain: a response stays as it is, once it is there. A silent request gets none,
/// and each other response carries its request's correlation id.
pub fn chain_law()
    ensures { (chain : List Turn) (limit : ℕ) → Lasting (chained chain limit) }
{}

/// What the law of told ends asks, of every chain: no request fails by an end of the client's stream.
pub fn own_ends_law()
    ensures { (chain : List Turn) (limit : ℕ) → FailsByOwnEnds (chained chain limit) }
{}

/// What a chain passes unchanged goes on byte by byte as it came: a request but for its correlation id, and the body of
/// an answer.
pub fn spelled_law()
    ensures requests { PassesAsItCame }
    ensures answers { AnswersPassAsTheyCame }
{}
