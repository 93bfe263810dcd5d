ghost use Rattle.std.specs.Prelude.{◌≡◌, ℕ, ◌∷◌, ◌++◌, List, length, Some, All, IsTrue};
ghost use Rattle.kp_edge.specs.declared.end.End.{End};
ghost use Rattle.conn_rules.specs.Meaning.{Meaning, Lasting};
ghost use Rattle.conn_rules.specs.State.{State};
ghost use Rattle.conn_rules.specs.Worked.{worked_meaning, worked_exchange, told_ended};
ghost use Rattle.conn_rules.specs.Sweep.{SweepLaws};
ghost use Rattle.conn_rules.specs.Work.{WorkStays};
ghost use Rattle.conn_rules.specs.Told.{IsEndNext, is_client_stream_end, FailsByOwnEnds};
ghost use Rattle.conn_rules.specs.Origins.{HaltOrigin, DeathOrigin, CutOrigin, ToldOrigin};
ghost use Rattle.conn_rules.specs.History.{Entry, IsHistory, AreRequests, IsTold, IsToldIfEmit, IsInOrder, frames_taken, client_frames, AreFirst};

/// The law of order: what a client was sent is the responses to the first of its requests, one after another,
/// whatever came, in whatever order, and whenever memory was wanting. Each of these requests is answered: its
/// response carries the client's own correlation id, or is no bytes where the request is silent.
pub fn order_law()
    ensures { (M : Meaning) (hs : List Entry) (s : State) → Lasting M → IsHistory M hs s → IsInOrder M hs s }
{}

/// The requests of a connection are the frames that were taken from its client, in order.
pub fn requests_law()
    ensures { (M : Meaning) (hs : List Entry) (s : State) → IsHistory M hs s → AreRequests s (frames_taken hs) }
{}

/// The frames that were taken are the first of those that the client's side handed on: behind one that was not taken,
/// though it found room, none is.
pub fn first_frames_law()
    ensures { (M : Meaning) (hs : List Entry) (s : State) → IsHistory M hs s → AreFirst (frames_taken hs) (client_frames hs) }
{}

/// Once the client's writer was told an end, it is told the same ever after.
pub fn end_stays_law()
    ensures { (M : Meaning) (before behind : List Entry) (told : Entry) (why : End) (s : State) → IsTold why told → IsHistory M (before ++ told ∷ behind) s → All (IsToldIfEmit why) behind }
{}

/// The end that was told comes next. It is a halt's, or the cut stands at the first request that isn't passed, or the
/// connection died and that request has no response.
///
/// So where the client's stream is what ended, all requests are passed. By the law of order the client was then sent the
/// responses of all of them.
pub fn told_law()
    ensures end_next { (M : Meaning) (hs : List Entry) (s : State) (why : End) → IsHistory M hs s → s.causes.over ≡ Some why → IsEndNext M why s }
    ensures all_passed { (M : Meaning) (hs : List Entry) (s : State) (why : End) → FailsByOwnEnds M → IsHistory M hs s → s.causes.over ≡ Some why → IsTrue (is_client_stream_end why) → s.passed ≡ length s.requests }
{}

/// Each halt, cut and death has an origin: an entry of the history brought it, and which entry that is depends on the end.
/// So an end of the client's stream is told of what came of that stream, and of nothing else, unless the meaning of requests
/// gives it. The end that was told is that of a halt, of the cut at the first request that isn't passed, or of a death.
pub fn causes_law()
    ensures halt { (M : Meaning) (hs : List Entry) (s : State) (why : End) → IsHistory M hs s → s.causes.halt ≡ Some why → HaltOrigin M hs s why }
    ensures cut { (M : Meaning) (hs : List Entry) (s : State) (k : ℕ) (why : End) → IsHistory M hs s → s.causes.cut ≡ Some (k, why) → CutOrigin M hs s k why }
    ensures death { (M : Meaning) (hs : List Entry) (s : State) (why : End) → IsHistory M hs s → s.causes.death ≡ Some why → DeathOrigin M hs s why }
    ensures told { (M : Meaning) (hs : List Entry) (s : State) (why : End) → IsHistory M hs s → s.causes.over ≡ Some why → ToldOrigin M hs s why }
{}

/// Settling is one sweep over the requests, from the oldest on.
pub fn sweep_laws()
    ensures { (M : Meaning) → SweepLaws M }
{}

/// Requests are worked on where a frame or a verdict is accepted, and nowhere else: at each other entry of a history the
/// work of all requests stays what it was.
pub fn work_law()
    ensures { (M : Meaning) → WorkStays M }
{}

/// A whole exchange goes as it was worked through by hand: a Heartbeat, an ApiVersions request that is done before it,
/// and the client's end.
pub fn worked_exchange()
    ensures { IsHistory worked_meaning worked_exchange told_ended }
{}
