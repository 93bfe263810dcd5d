ghost use Rattle.std.specs.Prelude.{[], ◌∷◌, ◌++◌, List, IfOk};
ghost use Rattle.tree_spelling.specs.Body.{Contents};
ghost use Rattle.filter_core.specs.Decision.{Turn, Makes};
ghost use Rattle.filter_core.specs.Laws.{ForwardsOnce, EndsAfterSix, ForwardsTheSame, QuestionsAreAnswered, ReturnsAnAnswer};

use crate::input::Input;
use crate::moves::Move;
use kp_edge::NoMemory;
use std::alloc::Global;
use tree_codec::Body;

/// A filter: what is done with each request, and with what comes back for it. docs/FILTERS.md shows how to write one.
///
/// It makes one move when it is started on a request, and one more each time that it is given what its move asked
/// for. It keeps what it needs for its next move in a pending value, and sees no request and no answer twice.
pub trait Filter {
    ghost use Rattle.filter_core.specs.declared.input.Input.{Input};

    /// What it keeps of a request between two moves.
    type Pending: Drop;

    /// What it decides, by the request and all inputs since it started on it.
    ghost turn: { Self → Turn };

    /// Which pending values stand for a request and the inputs since.
    ghost stands: { Self → Self.Pending → Contents → List Input → Type 0 };

    /// The first move on a request.
    fn start(&self, alloc: Global, request: Body) -> Result<Move<Self::Pending>, NoMemory>
        ensures { IfOk result (λ made. Makes (λ pending. stands self.now pending request []) (turn self.now request []) made) };

    /// The next move, with what the last one asked for.
    fn resume(
        &self,
        alloc: Global,
        pending: Self::Pending,
        input: Input,
    ) -> Result<Move<Self::Pending>, NoMemory>
        ensures { IfOk result (λ made. (request : Contents) (inputs : List Input) → stands self.now pending request inputs
            → Makes (λ pending. stands self.now pending request (inputs ++ input ∷ [])) (turn self.now request (inputs ++ input ∷ [])) made) };

    /// It forwards a request at most once.
    ghost forwards_once: { (filter : Self) → ForwardsOnce (turn filter) };

    /// After six inputs it returns or shuts.
    ghost ends_after_six: { (filter : Self) → EndsAfterSix (turn filter) };

    /// What it forwards has the request's key and version, and acks 0 exactly where the request has.
    ghost forwards_the_same: { (filter : Self) → ForwardsTheSame (turn filter) };

    /// What it asks aside is supported, and no Produce with acks 0.
    ghost questions_are_answered: { (filter : Self) → QuestionsAreAnswered (turn filter) };

    /// What it returns answers the request: a response of its key and version, or none to a Produce with acks 0.
    ghost returns_an_answer: { (filter : Self) → ReturnsAnAnswer (turn filter) };
}
