ghost use Rattle.std.specs.Prelude.{List, All, map};
ghost use Rattle.filter_core.specs.Decision.{Turn};
ghost use Rattle.filter_core.specs.Laws.{IsLawful};
ghost use Rattle.proxy_laws.specs.LawfulChains.{CompletesWithOwnResponse, NeedsWholeMessages, HasOneMainSend, ComesToAnEnd, IsShutByOwnFilter, HasFewTurns};

use filter_core::Filter;

/// What follows for a chain whose turns keep the laws of filters.
pub fn lawful_chain_laws()
    // A completed request has a response of its own API and version, or none where it is a Produce with acks 0.
    ensures own_response { (chain : List Turn) → All IsLawful chain → CompletesWithOwnResponse chain }
    // What goes to the broker is the request itself, or a message aside that it answers.
    ensures whole_messages { (chain : List Turn) → All IsLawful chain → NeedsWholeMessages chain }
    // The request itself goes to the broker once at most.
    ensures one_main_send { (chain : List Turn) → All IsLawful chain → HasOneMainSend chain }
    // No filter goes on without an end.
    ensures comes_to_an_end { (chain : List Turn) → All IsLawful chain → ComesToAnEnd chain }
    // The filter that shuts is one of the chain.
    ensures shut_by_own_filter { (chain : List Turn) → All IsLawful chain → IsShutByOwnFilter chain }
    // The filters have few turns.
    ensures few_turns { (chain : List Turn) → All IsLawful chain → HasFewTurns chain }
{}

/// The turns of any filters keep the laws.
pub fn filters_are_lawful<F: Filter>(filters: &[F])
    ensures { All IsLawful (map F.turn filters.now) }
{}
