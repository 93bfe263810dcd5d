// A connection as a value of the program, with one call an event.
ghost use Rattle.std.specs.Prelude.{◌≡◌, ◌≤◌, length, None};
ghost use Rattle.conn_rules.specs.Meaning.{Meaning};
ghost use Rattle.conn_rules.specs.State.{State};
ghost use Rattle.conn_rules.specs.Connections.{Follows, CountsWork, FrameComesBack, AnswerComesBack, VerdictComesBack};

use crate::event::{
    AnswerFault, CompleteFault, Emit, Event, Fault, Look, Reply, TakeFault, Ticket,
};
use bytes::Bytes;
use kp_edge::{Blob, Steps};

/// One proxied connection without its streams. Each call is one event of the machine: what it answers, and the
/// state that the connection then stands for, are those that the rules give for the meaning of its requests.
///
/// `take`, `answer` and `complete` count in `steps` the work of their requests, each part of it once. The other calls do no
/// such work and take no memory.
pub trait Connection: Drop {
    /// What its requests mean.
    ghost meaning: { Self → Meaning };

    /// Which states of the machine it stands for.
    ghost stands: { Self → State → Type 0 };

    /// The client's next frame, without its size. A frame that is refused comes back.
    fn take<L>(&mut self, frame: Bytes, steps: &mut Steps<L>) -> Result<(), TakeFault>
        requires { 8 ≤ length frame }
        ensures follows { Follows meaning stands self.old (Event.Take frame) (Reply.Take result) self.new }
        ensures counted { CountsWork meaning stands self.old (Event.Take frame) (Reply.Take result) steps.old steps.new }
        ensures back { FrameComesBack frame result };

    /// The broker's next frame, without its size. A frame that is refused comes back.
    fn answer<L>(&mut self, frame: Bytes, steps: &mut Steps<L>) -> Result<(), AnswerFault>
        requires { 4 ≤ length frame }
        ensures follows { Follows meaning stands self.old (Event.Answer frame) (Reply.Answer result) self.new }
        ensures counted { CountsWork meaning stands self.old (Event.Answer frame) (Reply.Answer result) steps.old steps.new }
        ensures back { AnswerComesBack frame result };

    /// An authority's verdict on the hold that request `request` waits for with ask number `index`. A verdict that
    /// nothing waits for comes back.
    fn complete<L>(
        &mut self,
        request: u64,
        index: u32,
        verdict: Blob,
        steps: &mut Steps<L>,
    ) -> Result<(), CompleteFault>
        ensures follows { Follows meaning stands self.old (Event.Complete request index verdict) (Reply.Complete result) self.new }
        ensures counted { CountsWork meaning stands self.old (Event.Complete request index verdict) (Reply.Complete result) steps.old steps.new }
        ensures back { VerdictComesBack verdict result };

    /// The client's stream ended with `rest` bytes of a frame.
    fn client_end(&mut self, rest: u64)
        ensures { Follows meaning stands self.old (Event.ClientEnd rest) Reply.Noted self.new };

    /// The broker's stream ended with `rest` bytes of a frame.
    fn broker_end(&mut self, rest: u64)
        ensures { Follows meaning stands self.old (Event.BrokerEnd rest) Reply.Noted self.new };

    /// Something outside of the connection failed.
    fn fault(&mut self, fault: Fault)
        ensures { Follows meaning stands self.old (Event.Fault fault) Reply.Noted self.new };

    /// The next frame for the broker, with its size.
    fn send(&mut self) -> Option<Bytes>
        ensures { Follows meaning stands self.old Event.Send (Reply.Send result) self.new };

    /// The next response for the client, with its size.
    fn emit(&mut self) -> Emit
        ensures { Follows meaning stands self.old Event.Emit (Reply.Emit result) self.new };

    /// The next hold for an authority.
    fn pick(&mut self) -> Option<Ticket>
        ensures { Follows meaning stands self.old Event.Pick (Reply.Pick result) self.new };

    /// How the connection stands.
    fn look(&self) -> Look
        ensures { Follows meaning stands self.now Event.Look (Reply.Look result) self.now };
}
