// Why a connection ends or has ended: its cut, its death, its halt, and what its client was told.
ghost use Rattle.std.specs.Prelude.{◌≡◌, None, Some};
ghost use Rattle.conn_rules.specs.Causes.{no_causes, below, cut_cause, with_cut, with_death, with_halt, with_told, are_ending, are_dead, are_still, client_ended, broker_ended, after_client_end};

use kp_edge::End;

/// The causes of one connection. Each is set once, but for the cut, which moves to lesser requests.
#[derive(Clone, Copy, Debug, PartialEq, Eq)]
pub struct Causes {
    /// The request from which on nothing is done any more, and why.
    pub cut: Option<(u64, End)>,
    /// Why nothing more goes to the broker or comes from it.
    pub death: Option<End>,
    /// Why everything stands still.
    pub halt: Option<End>,
    /// The end that the client's writer was told.
    pub over: Option<End>,
}

impl Causes {
    /// None stands yet.
    pub fn new() -> Causes
        ensures { result ≡ no_causes }
    {
        Causes {
            cut: None,
            death: None,
            halt: None,
            over: None,
        }
    }

    /// Cuts at this request, unless a cut stands there or before it.
    pub fn cut_at(&mut self, request: u64, why: End)
        ensures { self.new ≡ with_cut request why self.old }
    {
        if self.is_below_cut(request) {
            self.cut = Some((request, why));
        }
    }

    /// The connection dies, unless it is dead.
    pub fn die(&mut self, why: End)
        ensures { self.new ≡ with_death why self.old }
    {
        if self.death.is_none() {
            self.death = Some(why);
        }
    }

    /// The connection halts, unless it has halted.
    pub fn halt(&mut self, why: End)
        ensures { self.new ≡ with_halt why self.old }
    {
        if self.halt.is_none() {
            self.halt = Some(why);
        }
    }

    /// The client's writer is told this end.
    pub fn tell(&mut self, why: End)
        ensures { self.new ≡ with_told why self.old }
    {
        self.over = Some(why);
    }

    /// The client's stream ended with `rest` bytes of a frame, behind so many requests.
    pub fn end_client(&mut self, requests: u64, rest: u64)
        ensures { self.new ≡ after_client_end requests rest self.old }
    {
        if self.death.is_none() {
            self.cut_at(requests, client_ended(rest));
        }
    }

    /// The broker's stream ended with `rest` bytes of a frame, while so many sends waited for an answer.
    pub fn end_broker(&mut self, rest: u64, waiting: u64)
        ensures { self.new ≡ with_death (broker_ended rest waiting) self.old }
    {
        self.die(broker_ended(rest, waiting));
    }

    /// The request is served: it stands before the cut, or no cut stands.
    pub fn is_below_cut(&self, request: u64) -> bool
        ensures { result ≡ below self.now.cut request }
    {
        match self.cut {
            Some((cut, _)) => request < cut,
            None => true,
        }
    }

    /// The cut's cause, where the cut stands at this request.
    pub fn cut_cause(&self, request: u64) -> Option<End>
        ensures { result ≡ cut_cause self.now.cut request }
    {
        let (cut, why) = self.cut?;
        if cut == request { Some(why) } else { None }
    }

    /// No client frame is taken any more.
    pub fn are_ending(&self) -> bool
        ensures { result ≡ are_ending self.now }
    {
        self.cut.is_some() || self.death.is_some() || self.halt.is_some() || self.over.is_some()
    }

    /// No broker frame is taken any more.
    pub fn are_dead(&self) -> bool
        ensures { result ≡ are_dead self.now }
    {
        self.death.is_some() || self.halt.is_some() || self.over.is_some()
    }

    /// Nothing is done any more but to tell why.
    pub fn are_still(&self) -> bool
        ensures { result ≡ are_still self.now }
    {
        self.halt.is_some() || self.over.is_some()
    }
}

fn client_ended(rest: u64) -> End
    ensures { result ≡ client_ended rest }
{
    match rest {
        0 => End::Ended,
        _ => End::ClientTorn { rest },
    }
}

fn broker_ended(rest: u64, waiting: u64) -> End
    ensures { result ≡ broker_ended rest waiting }
{
    match rest {
        0 => End::BrokerEnd { waiting },
        _ => End::BrokerTorn { rest },
    }
}
