ghost use Rattle.std.specs.Prelude.{◌≡◌, ◌≤◌, ◌<◌, ◌^◌, ℕ, List, length, OnOk, OnErr, true, IfOk, drop};
ghost use Rattle.conn_rules.specs.Connections.{Follows, FrameComesBack, AnswerComesBack, VerdictComesBack};
ghost use Rattle.conn_rules.specs.Meaning.{Meaning};
ghost use Rattle.conn_rules.specs.Room.{limited};
ghost use Rattle.framing.specs.CorrelationIds.{response_id};
ghost use Rattle.conn_rules.specs.Causes.{below};
ghost use Rattle.conn_rules.specs.State.{State, opening};
ghost use Rattle.serving.specs.Frames.{IsWhole};
ghost use Rattle.serving.specs.Services.{IsRead, outside_of};
ghost use Rattle.serving.specs.Listing.{SameOutside};
ghost use Rattle.serving.specs.Flights.{IsStuck};
ghost use Rattle.serving.specs.Stands.{Stands, FlightTakes, FlightGives, FlightGivesBody, flight_faulted, PassesAll, told_flight, refusal_end};

use crate::cause::Cause;
use crate::flight::Flight;
use crate::given::Given;
use crate::listing::{give, settle};
use crate::progress::Begun;
use crate::service::Service;
use crate::slot::Slot;
use bytes::Bytes;
use conn_rules::{
    AnswerFault, CompleteFault, Connection, Emit, Event, Fault, Look, Reply, TakeFault, Ticket,
};
use correlation::{AnswerRefusal, Owner};
use kp_edge::{Blob, End, NoMemory, Steps};
use std::alloc::Global;

/// A connection whose requests mean what a service says.
#[derive(Drop)]
pub struct Serving<S: Service> {
    service: S,
    flight: Flight<S::Run>,
}

impl<S: Service> Serving<S> {
    /// A connection to which nothing came yet, for 1 to 64 requests in flight.
    pub fn over(alloc: Global, service: S, in_flight: u32) -> Serving<S>
        requires some { 1 ≤ in_flight }
        requires few { in_flight ≤ 64 }
        ensures meaning { ⟦<Serving<S> as Connection>⟧.meaning result ≡ limited in_flight (S.meaning service) }
        ensures opens { ⟦<Serving<S> as Connection>⟧.stands result opening }
    {
        Serving {
            service,
            flight: Flight::new(alloc, in_flight),
        }
    }

    /// The frame becomes the next request, or the cause of a cut in its place.
    fn accept<L>(&mut self, frame: &Bytes, steps: &mut Steps<L>) -> Result<(), NoMemory>
        requires { 8 ≤ length frame.now }
        ensures service { self.new.service ≡ self.old.service }
        ensures takes { OnOk result (FlightTakes (S.meaning self.old.service) (S.stands self.old.service) frame.now self.old.flight self.new.flight steps.old steps.new) }
        ensures outside { OnErr result (SameOutside self.old.flight self.new.flight) }
    {
        let flight = &mut self.flight;
        let number = flight.requests;
        let (silent, progress) = match self.service.begin(frame, steps)? {
            Begun::NoRequest(cause) => {
                flight.causes.cut_at(number, cause.at(number));
                return Ok(());
            }
            Begun::Request { silent, progress } => (silent, progress),
        };
        let size = frame.len() as u64;
        let (Some(requests), Some(count), Some(held)) = (
            number.checked_add(1),
            flight.count.checked_add(1),
            flight.held.checked_add(size),
        ) else {
            return Err(NoMemory);
        };
        let last = flight.slots.len();
        flight.slots.push_back(Slot::begun(size, silent, progress))?;
        let free = flight.free;
        settle(&self.service, flight, last, free, steps)?;
        flight.requests = requests;
        flight.count = count;
        flight.held = held;
        Ok(())
    }

    /// The owner's request gets the body of its response, unless the cut is before it.
    fn give_body<L>(
        &mut self,
        owner: Owner,
        frame: &Bytes,
        steps: &mut Steps<L>,
    ) -> Result<(), NoMemory>
        requires { 4 ≤ length frame.now }
        ensures service { self.new.service ≡ self.old.service }
        ensures gives { OnOk result (FlightGivesBody (S.meaning self.old.service) (S.stands self.old.service) owner frame.now self.old.flight self.new.flight steps.old steps.new) }
        ensures outside { SameOutside self.old.flight self.new.flight }
        ensures wanting { OnErr result (below self.old.flight.causes.cut owner.request ≡ true) }
    {
        let request = owner.request;
        if !self.flight.causes.is_below_cut(request) {
            return Ok(());
        }
        match self.read_body(owner.before, frame)? {
            Err(cause) => {
                self.flight.causes.cut_at(request, cause.at(request));
                Ok(())
            }
            Ok(answer) => self.give(request, Given::Answer(answer), steps),
        }
    }

    /// The body of an answer, or why it can't be read.
    fn read_body(
        &self,
        before: [u8; 4],
        frame: &Bytes,
    ) -> Result<Result<S::Answer, Cause>, NoMemory>
        requires { 4 ≤ length frame.now }
        ensures { IfOk result (λ read. IsRead (S.meaning self.now.service) (S.read_from self.now.service) before (drop 4 frame.now) read) }
    {
        let body = frame.slice(4..frame.len())?;
        self.service.read(before, body)
    }

    /// The request is given what it waits for. If it can act then, all requests settle.
    fn give<L>(
        &mut self,
        request: u64,
        given: Given<S::Answer>,
        steps: &mut Steps<L>,
    ) -> Result<(), NoMemory>
        ensures service { self.new.service ≡ self.old.service }
        ensures gives { OnOk result (FlightGives (S.meaning self.old.service) (S.stands self.old.service) request (outside_of (S.read_from self.old.service) given) self.old.flight self.new.flight steps.old steps.new) }
        ensures outside { SameOutside self.old.flight self.new.flight }
    {
        // a request that is no more in flight is never given anything
        let Some(place) = request.checked_sub(self.flight.first()) else {
            return Err(NoMemory);
        };
        let place = place as usize;
        give(&self.service, &mut self.flight, place, given, steps)?;
        if self.flight.rests_at(place) {
            return Ok(());
        }
        settle(&self.service, &mut self.flight, 0, true, steps)
    }

    /// What the rules say of a fault.
    fn fail(&mut self, fault: Fault)
        ensures service { self.new.service ≡ self.old.service }
        ensures fails { self.new.flight ≡ flight_faulted fault self.old.flight }
    {
        let requests = self.flight.requests;
        match fault {
            Fault::ClientRead => self.flight.causes.cut_at(requests, End::ClientReadFault),
            Fault::ClientWrite => self.flight.causes.halt(End::ClientWriteFault),
            Fault::BrokerRead => self.flight.causes.die(End::BrokerReadFault),
            Fault::BrokerWrite => self.flight.causes.die(End::BrokerWriteFault),
            Fault::ClientBadSize { at, size } => {
                self.flight
                    .causes
                    .cut_at(requests, End::BadSize { at, size })
            }
            Fault::BrokerBadSize { at, size } => {
                self.flight.causes.die(End::BrokerBadSize { at, size })
            }
            Fault::Authority { request } => {
                if self.flight.hold_at(request).is_some() {
                    self.flight
                        .causes
                        .cut_at(request, End::AuthorityFault { request });
                }
            }
            Fault::Thread => self.flight.causes.halt(End::ThreadRefused),
            Fault::NoMemory => self.flight.causes.halt(End::NoMemory),
        }
    }

    /// The silent requests at the front that are done are passed over.
    fn pass_silent(&mut self)
        ensures service { self.new.service ≡ self.old.service }
        ensures passes { (limit : ℕ) → PassesAll (limited limit (S.meaning self.old.service)) (S.stands self.old.service) self.old.flight self.new.flight }
        ensures stuck { IsStuck self.new.flight }
    {
        'silent: while self.flight.pass_silent() {}
    }

    /// The client's writer is told this end.
    fn tell(&mut self, why: End) -> Emit
        ensures over { result ≡ Emit.Over why }
        ensures service { self.new.service ≡ self.old.service }
        ensures told { self.new.flight ≡ told_flight why self.old.flight }
    {
        self.flight.causes.tell(why);
        Emit::Over(why)
    }
}

impl<S: Service> Connection for Serving<S> {
    ghost meaning = { λ v. limited v.flight.limit (S.meaning v.service) };

    ghost stands = { λ v s. Stands (limited v.flight.limit (S.meaning v.service)) (S.stands v.service) v.flight s };

    fn take<L>(&mut self, frame: Bytes, steps: &mut Steps<L>) -> Result<(), TakeFault> {
        if self.flight.causes.are_ending() {
            return Err(TakeFault::Ending(frame));
        }
        if !self.flight.has_room(frame.len() as u64) {
            let count = self.flight.count;
            let held = self.flight.held;
            return Err(TakeFault::Full { count, held, frame });
        }
        match self.accept(&frame, steps) {
            Ok(()) => Ok(()),
            Err(NoMemory) => {
                self.flight.causes.halt(End::NoMemory);
                Err(TakeFault::NoMemory)
            }
        }
    }

    fn answer<L>(&mut self, frame: Bytes, steps: &mut Steps<L>) -> Result<(), AnswerFault> {
        if self.flight.causes.are_dead() {
            return Err(AnswerFault::Dead(frame));
        }
        let owner = match self.flight.sends.answer(response_id(frame.as_slice())) {
            Ok(owner) => owner,
            Err(refusal) => {
                self.flight.causes.die(refused(refusal));
                return Ok(());
            }
        };
        match self.give_body(owner, &frame, steps) {
            Ok(()) => Ok(()),
            Err(NoMemory) => {
                self.flight.causes.halt(End::NoMemory);
                Err(AnswerFault::NoMemory)
            }
        }
    }

    fn complete<L>(
        &mut self,
        request: u64,
        index: u32,
        verdict: Blob,
        steps: &mut Steps<L>,
    ) -> Result<(), CompleteFault> {
        if self.flight.causes.are_still() || !self.flight.awaits(request, index) {
            return Err(CompleteFault::NotWaiting(verdict));
        }
        match self.give(request, Given::Verdict(verdict), steps) {
            Ok(()) => Ok(()),
            Err(NoMemory) => {
                self.flight.causes.halt(End::NoMemory);
                Err(CompleteFault::NoMemory)
            }
        }
    }

    fn client_end(&mut self, rest: u64) {
        if self.flight.causes.over.is_none() {
            let requests = self.flight.requests;
            self.flight.causes.end_client(requests, rest);
        }
    }

    fn broker_end(&mut self, rest: u64) {
        if self.flight.causes.over.is_none() {
            let waiting = self.flight.sends.waiting();
            self.flight.causes.end_broker(rest, waiting);
        }
    }

    fn fault(&mut self, fault: Fault) {
        if self.flight.causes.over.is_none() {
            self.fail(fault);
        }
    }

    fn send(&mut self) -> Option<Bytes> {
        if self.flight.causes.death.is_some() || self.flight.causes.halt.is_some() {
            return None;
        }
        self.flight.sends.take()
    }

    fn emit(&mut self) -> Emit
        ensures follows { Follows ⟦<Serving<S> as Connection>⟧.meaning ⟦<Serving<S> as Connection>⟧.stands self.old Event.Emit (Reply.Emit result) self.new }
        ensures whole { (response : List ℕ) → result ≡ Emit.Bytes response → IsWhole response }
    {
        if let Some(why) = self.flight.causes.over {
            return Emit::Over(why);
        }
        if let Some(why) = self.flight.causes.halt {
            return self.tell(why);
        }
        self.pass_silent();
        let first = self.flight.first();
        if let Some(why) = self.flight.causes.cut_cause(first) {
            return self.tell(why);
        }
        if let Some(response) = self.flight.pass_ready() {
            return Emit::Bytes(response.bytes);
        }
        match self.flight.causes.death {
            Some(why) => self.tell(why),
            None => Emit::Later,
        }
    }

    fn pick(&mut self) -> Option<Ticket> {
        if self.flight.causes.are_still() {
            return None;
        }
        self.flight.pick_first()
    }

    fn look(&self) -> Look {
        Look {
            over: self.flight.causes.over.is_some(),
            dead: self.flight.causes.death.is_some() || self.flight.causes.halt.is_some(),
            in_flight: self.flight.count,
            held: self.flight.held,
        }
    }
}

/// Why the connection dies of a broker's frame that belongs to no send.
fn refused(refusal: AnswerRefusal) -> End
    ensures { result ≡ refusal_end refusal }
{
    match refusal {
        AnswerRefusal::Unasked { found } => End::Unasked { found },
        AnswerRefusal::Mismatch { expected, found } => End::Mismatch { expected, found },
    }
}

/// The correlation id that a broker's frame begins with.
fn response_id(frame: &[u8]) -> i32
    requires { 4 ≤ length frame.now }
    ensures { result ≡ response_id frame.now }
{
    i32::from_be_bytes([frame[0], frame[1], frame[2], frame[3]])
}
