ghost use Rattle.std.specs.Prelude.{◌≡◌, ℕ, ◌≤◌, ◌||◌, is_some, ◌++◌, ◌∷◌, [], length, map, List, None, Some, true, IsOk, IsTrue, MatchBool, OnOk, OnErr, if◌then◌else◌};
ghost use Rattle.std.specs.Option.{ForSome};
ghost use Rattle.framing.specs.Frames.{IsFrame, BeginsFrame, IsTail};
ghost use Rattle.conn_rules.specs.History.{Entry};
ghost use Rattle.conn_rules.specs.declared.event.Event.TheVariants as event;
ghost use Rattle.conn_rules.specs.declared.event.Reply.TheVariants as reply;
ghost use Rattle.conn_rules.specs.Connections.{Brings, Follows};
ghost use Rattle.session.specs.Peers.{least_size, most_size, bad_size_fault, end_event};
ghost use Rattle.session.specs.Streams.{fresh_stream, with_piece, tail_fault, bad_size_events, end_events, tail_told};
ghost use Rattle.session.specs.Pushes.{noted_entry, IsPush};
ghost use Rattle.session.specs.Calls.{IsPiece, TakesPiece, IsEnd, Ends};
ghost use Rattle.session.specs.Counting.{BringsCounted};

use crate::hand_on::hand_on;
use crate::peer::Peer;
use crate::receipt::Receipt;
use crate::told::Told;
use bytes::Bytes;
use conn_rules::{Connection, Fault};
use framing::{Framer, Next};
use kp_edge::{NoMemory, Steps};
use std::alloc::Global;

// The sizes of a client's frames, and of a broker's, in bytes.
const CLIENT_LEAST: u32 = 8;

const CLIENT_MOST: u32 = 104_857_600;

const BROKER_LEAST: u32 = 4;

const BROKER_MOST: u32 = 134_217_728;

// One stream of a connection: its framer, and what of it was told.
#[derive(Drop)]
pub(crate) struct Side {
    pub(crate) peer: Peer,
    pub(crate) framer: Framer,
    // The frame that found no room.
    pub(crate) kept: Option<Bytes>,
    pub(crate) bad_told: bool,
    pub(crate) ended: bool,
    pub(crate) end_told: bool,
    ghost least: { framer.least ≡ least_size peer },
    ghost most: { framer.most ≡ most_size peer },
    ghost kept_is: { ForSome kept (IsFrame (least_size peer) (most_size peer)) },
}

impl Side {
    ghost use Rattle.session.specs.Sides.{stream_of, NextIs};

    pub(crate) fn new(alloc: Global, peer: Peer) -> Side
        ensures { stream_of result ≡ fresh_stream peer }
    {
        let framer = match peer {
            Peer::Client => Framer::new(alloc, CLIENT_LEAST, CLIENT_MOST),
            Peer::Broker => Framer::new(alloc, BROKER_LEAST, BROKER_MOST),
        };
        Side {
            peer,
            framer,
            kept: None,
            bad_told: false,
            ended: false,
            end_told: false,
        }
    }

    // A piece comes, unless the stream has ended.
    pub(crate) fn piece<C: Connection, L>(
        &mut self,
        piece: &[u8],
        connection: &mut C,
        steps: &mut Steps<L>,
    ) -> Result<Told, NoMemory>
        ensures { (hs : List Entry) × BringsCounted C.meaning C.stands connection.old hs connection.new steps.old steps.new
            × IsPiece (stream_of self.old) piece.now hs result (stream_of self.new) }
    {
        if self.ended {
            return Ok(Told::Closed);
        }
        match self.framer.feed(piece) {
            Ok(()) => self.push(connection, steps),
            Err(_) => Err(out_of_memory(connection)),
        }
    }

    // Hands on what wasn't handed on yet, as far as there is room, and tells what stands behind it.
    pub(crate) fn push<C: Connection, L>(
        &mut self,
        connection: &mut C,
        steps: &mut Steps<L>,
    ) -> Result<Told, NoMemory>
        ensures { (hs : List Entry) × BringsCounted C.meaning C.stands connection.old hs connection.new steps.old steps.new
            × IsPush (stream_of self.old) hs result (stream_of self.new) }
    {
        let mut refused = false;
        loop {
            match self.next() {
                Ok(Next::Frame(frame)) => match hand_on(self.peer, frame, connection, steps) {
                    Receipt::Accepted => {}
                    Receipt::Refused => refused = true,
                    Receipt::Full(frame) => {
                        self.kept = Some(frame);
                        return Ok(Told::Full);
                    }
                    Receipt::NoMemory => return Err(NoMemory),
                },
                Ok(Next::Wait) => {
                    self.tell_tail(None, connection);
                    return Ok(piece_told(refused));
                }
                Ok(Next::BadSize { at, size }) => {
                    let bad = self.bad_size(at, size);
                    self.tell_tail(Some(bad), connection);
                    return Ok(piece_told(refused));
                }
                Err(_) => return Err(out_of_memory(connection)),
            }
        }
    }

    // The frame that was kept, or what the framer gives next.
    fn next(&mut self) -> Result<Next, wire_types::NoMemory>
        ensures next { NextIs (stream_of self.old) result (stream_of self.new) }
        ensures none { self.new.kept ≡ None }
        ensures peer { self.new.peer ≡ self.old.peer }
    {
        match self.kept.take() {
            Some(frame) => Ok(Next::Frame(frame)),
            None => self.framer.next(),
        }
    }

    fn bad_size(&self, at: u64, size: i32) -> Fault
        ensures { result ≡ bad_size_fault self.now.peer at size }
    {
        match self.peer {
            Peer::Client => Fault::ClientBadSize { at, size },
            Peer::Broker => Fault::BrokerBadSize { at, size },
        }
    }

    // No whole frame is left. A bad size at the front and the end of the stream are each told once.
    fn tell_tail<C: Connection>(&mut self, bad: Option<Fault>, connection: &mut C)
        requires none { self.old.kept ≡ None }
        requires bad { bad ≡ tail_fault (stream_of self.old) }
        ensures told { Brings C.meaning C.stands connection.old (map noted_entry (bad_size_events (stream_of self.old) ++ end_events (stream_of self.old))) connection.new }
        ensures after { stream_of self.new ≡ tail_told (stream_of self.old) }
    {
        self.tell_bad_size(bad, connection);
        self.tell_end_once(connection);
    }

    fn tell_bad_size<C: Connection>(&mut self, bad: Option<Fault>, connection: &mut C)
        requires { bad ≡ tail_fault (stream_of self.old) }
        ensures told { Brings C.meaning C.stands connection.old (map noted_entry (bad_size_events (stream_of self.old))) connection.new }
        ensures after { self.new ≡ record self.old { bad_told = self.old.bad_told || is_some bad } }
    {
        if self.bad_told {
            return;
        }
        if let Some(fault) = bad {
            connection.fault(fault);
            self.bad_told = true;
        }
    }

    fn tell_end_once<C: Connection>(&mut self, connection: &mut C)
        requires { self.old.kept ≡ None }
        ensures told { Brings C.meaning C.stands connection.old (map noted_entry (end_events (stream_of self.old))) connection.new }
        ensures after { self.new ≡ record self.old { end_told = self.old.end_told || self.old.ended } }
    {
        if self.ended && !self.end_told {
            self.tell_end(connection);
        }
    }

    fn tell_end<C: Connection>(&mut self, connection: &mut C)
        requires { self.old.kept ≡ None }
        ensures told { Brings C.meaning C.stands connection.old (noted_entry (end_event self.old.peer (length self.old.framer.rest)) ∷ []) connection.new }
        ensures after { self.new ≡ record self.old { end_told = true } }
    {
        match self.peer {
            Peer::Client => connection.client_end(self.framer.rest()),
            Peer::Broker => connection.broker_end(self.framer.rest()),
        }
        self.end_told = true;
    }

    // The stream ends, unless it has ended before.
    pub(crate) fn end<C: Connection>(&mut self, connection: &mut C) -> Result<Told, NoMemory>
        ensures { (hs : List Entry) × Brings C.meaning C.stands connection.old hs connection.new
            × IsEnd (stream_of self.old) hs result (stream_of self.new) }
    {
        if self.ended {
            return Ok(Told::Closed);
        }
        self.ended = true;
        if !self.has_frame() {
            self.tell_end(connection);
        }
        Ok(Told::Fine)
    }

    // Whether a whole frame is left.
    fn has_frame(&self) -> bool
        ensures { MatchBool result (BeginsFrame (least_size self.now.peer) (most_size self.now.peer) (stream_of self.now).rest)
            ((self.now.kept ≡ None) × IsTail (least_size self.now.peer) (most_size self.now.peer) (stream_of self.now).rest) }
    {
        match &self.kept {
            Some(_) => true,
            None => self.framer.has_frame(),
        }
    }
}

fn piece_told(refused: bool) -> Told
    ensures { result ≡ (if refused then Told.Closed else Told.Fine) }
{
    if refused { Told::Closed } else { Told::Fine }
}

// Memory was wanting outside of the connection, which is told so.
fn out_of_memory<C: Connection>(connection: &mut C) -> NoMemory
    ensures { Follows C.meaning C.stands connection.old (event.Fault Fault.NoMemory) reply.Noted connection.new }
{
    connection.fault(Fault::NoMemory);
    NoMemory
}
