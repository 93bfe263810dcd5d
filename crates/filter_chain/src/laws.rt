//! What holds of every chain, whatever its filters do.

ghost use Rattle.filter_chain.specs.Laws.{DoneStays, EndStays, NothingBehindBudget, AnswersAreUsedInOrder, SeesOnlyNearer, ChainLooksThrough};

/// The laws of a chain, over the turns of any filters. A call does nothing but give them to its caller's proof.
pub fn chain_laws()
    // A request that is done, or that a filter shut, stays so whatever more it is given.
    ensures done_stays { DoneStays }
    ensures end_stays { EndStays }
    // It asks for nothing behind its 64th answer.
    ensures within_budget { NothingBehindBudget }
    // What a run used of its answers is a front of them.
    ensures used_in_order { AnswersAreUsedInOrder }
    // What a filter sees passed the filters nearer the broker alone.
    ensures sees_only_nearer { SeesOnlyNearer }
    // Where the last filter looks at a broker's answers through a function alone, so does the chain.
    ensures looks_through { ChainLooksThrough }
{}
