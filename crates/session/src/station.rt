ghost use Rattle.std.specs.Prelude.{◌≡◌, List, Result};
ghost use Rattle.conn_rules.specs.declared.event.Event.TheVariants as event;
ghost use Rattle.conn_rules.specs.declared.event.Reply.TheVariants as reply;
ghost use Rattle.conn_rules.specs.History.{Entry};
ghost use Rattle.conn_rules.specs.Connections.{Follows, Brings, CountsWork};
ghost use Rattle.session.specs.Streams.{fresh_stream};
ghost use Rattle.session.specs.Pushes.{IsPush};
ghost use Rattle.session.specs.Calls.{IsPiece, IsEnd, IsToldOf};
ghost use Rattle.session.specs.Counting.{BringsCounted};

use crate::peer::Peer;
use crate::side::Side;
use crate::told::Told;
use bytes::Bytes;
use conn_rules::{CompleteFault, Connection, Emit, Fault, Ticket};
use kp_edge::{Blob, NoMemory, Steps};
use std::alloc::Global;
use std::marker::Model;

/// A connection with its two streams. Contracts see the connection, and of each stream what wasn't handed on to it.
///
/// Each call tells what it did as entries of a history: the connection went from the value that it was to the value
/// that it is by these events and replies. Want of memory is among them. It is the connection's own answer, or is told to
/// it as a fault, and in both cases the connection halts.
///
/// A call counts in `steps` what the connection counts at the frames and verdicts that it is handed. As long as the
/// connection finds memory, these are the steps by which the work of its requests grows. The end of a stream counts none.
#[derive(Drop)]
pub struct Station<C> {
    connection: C,
    client: Side,
    broker: Side,
}

impl<C> Model for Station<C> {
    ghost use Rattle.session.specs.Calls.{Link};
    ghost use Rattle.session.specs.Sides.{stream_of};

    ghost Value = { Link C };

    ghost view = { λ s. record { connection = s.connection; client = stream_of s.client; broker = stream_of s.broker } };
}

impl<C: Connection> Station<C> {
    /// The connection, before anything came of its streams. It takes no memory.
    pub fn new(alloc: Global, connection: C) -> Station<C>
        ensures { result ≡ record { connection = connection; client = fresh_stream Peer.Client; broker = fresh_stream Peer.Broker } }
    {
        Station {
            connection,
            client: Side::new(alloc, Peer::Client),
            broker: Side::new(alloc, Peer::Broker),
        }
    }

    /// A piece of the client's stream comes. Frames of 8 to 104,857,600 bytes are handed on.
    pub fn client<L>(&mut self, piece: &[u8], steps: &mut Steps<L>) -> Result<Told, NoMemory>
        ensures piece { (hs : List Entry) × BringsCounted C.meaning C.stands self.old.connection hs self.new.connection steps.old steps.new
            × IsPiece self.old.client piece.now hs result self.new.client }
        ensures broker { self.new.broker ≡ self.old.broker }
    {
        self.client.piece(piece, &mut self.connection, steps)
    }

    /// A piece of the broker's stream comes. Frames of 4 to 134,217,728 bytes are handed on.
    pub fn broker<L>(&mut self, piece: &[u8], steps: &mut Steps<L>) -> Result<Told, NoMemory>
        ensures piece { (hs : List Entry) × BringsCounted C.meaning C.stands self.old.connection hs self.new.connection steps.old steps.new
            × IsPiece self.old.broker piece.now hs result self.new.broker }
        ensures client { self.new.client ≡ self.old.client }
    {
        self.broker.piece(piece, &mut self.connection, steps)
    }

    /// The client's stream ends.
    pub fn client_end<L>(&mut self, _steps: &mut Steps<L>) -> Result<Told, NoMemory>
        ensures end { (hs : List Entry) × Brings C.meaning C.stands self.old.connection hs self.new.connection
            × IsEnd self.old.client hs result self.new.client }
        ensures uncounted { _steps.new ≡ _steps.old }
        ensures broker { self.new.broker ≡ self.old.broker }
    {
        self.client.end(&mut self.connection)
    }

    /// The broker's stream ends.
    pub fn broker_end<L>(&mut self, _steps: &mut Steps<L>) -> Result<Told, NoMemory>
        ensures end { (hs : List Entry) × Brings C.meaning C.stands self.old.connection hs self.new.connection
            × IsEnd self.old.broker hs result self.new.broker }
        ensures uncounted { _steps.new ≡ _steps.old }
        ensures client { self.new.client ≡ self.old.client }
    {
        self.broker.end(&mut self.connection)
    }

    /// Tries a client's frame again that found no room, and those behind it.
    pub fn retake<L>(&mut self, steps: &mut Steps<L>) -> Result<Told, NoMemory>
        ensures push { (hs : List Entry) × BringsCounted C.meaning C.stands self.old.connection hs self.new.connection steps.old steps.new
            × IsPush self.old.client hs result self.new.client }
        ensures broker { self.new.broker ≡ self.old.broker }
    {
        self.client.push(&mut self.connection, steps)
    }

    /// An authority's verdict on the hold that request `request` waits for with ask number `index`.
    pub fn done<L>(
        &mut self,
        request: u64,
        index: u32,
        verdict: Blob,
        steps: &mut Steps<L>,
    ) -> Result<Told, NoMemory>
        ensures done { (r : Result (Unit {0}) CompleteFault) × Follows C.meaning C.stands self.old.connection (event.Complete request index verdict) (reply.Complete r) self.new.connection
            × CountsWork C.meaning C.stands self.old.connection (event.Complete request index verdict) (reply.Complete r) steps.old steps.new × IsToldOf r result }
        ensures client { self.new.client ≡ self.old.client }
        ensures broker { self.new.broker ≡ self.old.broker }
    {
        match self.connection.complete(request, index, verdict, steps) {
            Ok(()) => Ok(Told::Fine),
            Err(CompleteFault::NotWaiting(_)) => Ok(Told::NotWaiting),
            Err(CompleteFault::NoMemory) => Err(NoMemory),
        }
    }

    /// The next frame for the broker, with its size.
    pub fn send(&mut self) -> Option<Bytes>
        ensures send { Follows C.meaning C.stands self.old.connection event.Send (reply.Send result) self.new.connection }
        ensures client { self.new.client ≡ self.old.client }
        ensures broker { self.new.broker ≡ self.old.broker }
    {
        self.connection.send()
    }

    /// The next response for the client, with its size. It makes room, which a `retake` behind it uses.
    pub fn emit(&mut self) -> Emit
        ensures emit { Follows C.meaning C.stands self.old.connection event.Emit (reply.Emit result) self.new.connection }
        ensures client { self.new.client ≡ self.old.client }
        ensures broker { self.new.broker ≡ self.old.broker }
    {
        self.connection.emit()
    }

    /// The next hold for an authority.
    pub fn pick(&mut self) -> Option<Ticket>
        ensures pick { Follows C.meaning C.stands self.old.connection event.Pick (reply.Pick result) self.new.connection }
        ensures client { self.new.client ≡ self.old.client }
        ensures broker { self.new.broker ≡ self.old.broker }
    {
        self.connection.pick()
    }

    /// Something outside of the station failed.
    pub fn fault(&mut self, fault: Fault)
        ensures fault { Follows C.meaning C.stands self.old.connection (event.Fault fault) reply.Noted self.new.connection }
        ensures client { self.new.client ≡ self.old.client }
        ensures broker { self.new.broker ≡ self.old.broker }
    {
        self.connection.fault(fault);
    }
}
