ghost use Rattle.std.specs.Prelude.{◌≡◌, ◌≤◌, ◌+◌, ◌++◌, ◌∷◌, [], ℕ, List, length, IfOk, OnOk};
ghost use Rattle.conn_rules.specs.Meaning.{Meaning};
ghost use Rattle.conn_rules.specs.State.{Outside};
ghost use Rattle.serving.specs.Services.{Begins, IsProgress, CountsOn, work_begun, outside_of, IsRead, progress_remaining};

use crate::cause::Cause;
use crate::given::Given;
use crate::progress::{Begun, Progress};
use bytes::Bytes;
use kp_edge::{NoMemory, Steps};

/// What requests mean, as code. A request is begun once, and goes on each time that it is given what it waits for. `begin`
/// and `go_on` count in `steps` the work that its meaning says of it.
pub trait Service: Drop {
    /// A request that waits.
    type Run: Drop;

    /// The body of a response, read.
    type Answer: Drop;

    /// What requests mean. Its room is not this trait's: a connection has a limit of its own.
    ghost meaning: { Self → Meaning };

    /// Which runs are those of a request with this frame that was given so much.
    ghost stands: { Self → Self.Run → List ℕ → List Outside → Type 0 };

    /// The bytes that an answer was read from.
    ghost read_from: { Self → Self.Answer → List ℕ };

    /// How often a run may wait once more, at most.
    ghost remaining: { Self → Self.Run → ℕ };

    /// A client's frame, without its size.
    fn begin<L>(&self, frame: &Bytes, steps: &mut Steps<L>) -> Result<Begun<Self::Run>, NoMemory>
        requires { 8 ≤ length frame.now }
        ensures right { IfOk result (λ begun. Begins (meaning self.now) (stands self.now) frame.now begun) }
        ensures counted { IfOk result (λ begun. steps.new ≡ steps.old + work_begun (meaning self.now) frame.now begun) };

    /// The request is given what it waited for.
    fn go_on<L>(
        &self,
        run: Self::Run,
        given: Given<Self::Answer>,
        steps: &mut Steps<L>,
    ) -> Result<Progress<Self::Run>, NoMemory>
        ensures right { IfOk result (λ progress. (frame : List ℕ) (before : List Outside) → stands self.now run frame before → IsProgress (meaning self.now) (stands self.now) frame (before ++ outside_of (read_from self.now) given ∷ []) progress) }
        ensures counted { OnOk result (CountsOn (meaning self.now) (stands self.now) run (outside_of (read_from self.now) given) steps.old steps.new) }
        ensures fewer { IfOk result (λ progress. progress_remaining (remaining self.now) progress ≤ remaining self.now run) };

    /// The body of a response, or why it can't be read. `before` is the key and the version of its request.
    fn read(&self, before: [u8; 4], body: Bytes) -> Result<Result<Self::Answer, Cause>, NoMemory>
        ensures { IfOk result (λ read. IsRead (meaning self.now) (read_from self.now) before body read) };
}
