// What a line asks of a station.
ghost use Rattle.std.specs.Prelude.{◌≡◌, ℕ, List, Some, IfOk};
ghost use Rattle.conn_rules.specs.declared.event.Event.TheVariants as event;
ghost use Rattle.conn_rules.specs.State.{State};
ghost use Rattle.conn_rules.specs.History.{Entry};
ghost use Rattle.session.specs.Counting.{BringsCounted};
ghost use Rattle.proxy_main.specs.Played.{IsPlayed, IsPieceLine, IsEndLine, IsEventLine, IsEmitLine, at_state, told_answer};

use conn_rules::{Connection, Emit, Fault};
use kp_edge::{NoMemory, Steps};
use session::{Station, Told};
use transcript::{Answer, Line};

// Plays a line on the station, and gives the line's answer. It counts what the station's calls count.
pub(crate) fn perform<C: Connection, L>(
    station: &mut Station<C>,
    line: Line,
    steps: &mut Steps<L>,
) -> Result<Answer, NoMemory>
    ensures { IfOk result (λ answer. (hs : List Entry) × BringsCounted C.meaning C.stands station.old.connection hs station.new.connection steps.old steps.new
        × ((s t : State) → IsPlayed (at_state station.old s) line answer hs (at_state station.new t))) }
{
    match line {
        Line::Client(piece) => Ok(answer_to(station.client(piece.as_slice(), steps)?)),
        Line::Broker(piece) => Ok(answer_to(station.broker(piece.as_slice(), steps)?)),
        Line::ClientEnd => Ok(answer_to(station.client_end(steps)?)),
        Line::BrokerEnd => Ok(answer_to(station.broker_end(steps)?)),
        Line::Send => Ok(send(station)),
        Line::Emit => {
            let answer = emit(station);
            station.retake(steps)?;
            Ok(answer)
        }
        Line::Pick => Ok(pick(station)),
        Line::Done {
            request,
            index,
            verdict,
        } => Ok(answer_to(station.done(request, index, verdict, steps)?)),
        Line::FaultClientRead => Ok(fault(station, Fault::ClientRead)),
        Line::FaultClientWrite => Ok(fault(station, Fault::ClientWrite)),
        Line::FaultBrokerRead => Ok(fault(station, Fault::BrokerRead)),
        Line::FaultBrokerWrite => Ok(fault(station, Fault::BrokerWrite)),
        Line::FaultAuthority { request } => Ok(fault(station, Fault::Authority { request })),
    }
}

fn answer_to(told: Told) -> Answer
    ensures { result ≡ told_answer told }
{
    match told {
        Told::Fine => Answer::Fine,
        Told::Full => Answer::Full,
        Told::Closed => Answer::Closed,
        Told::NotWaiting => Answer::NotWaiting,
    }
}

fn send<C: Connection>(station: &mut Station<C>) -> Answer
    ensures send { (hs : List Entry) × ((n : ℕ) → BringsCounted C.meaning C.stands station.old.connection hs station.new.connection n n) × IsEventLine event.Send result hs }
    ensures client { station.new.client ≡ station.old.client }
    ensures broker { station.new.broker ≡ station.old.broker }
{
    match station.send() {
        Some(frame) => Answer::ToBroker(frame),
        None => Answer::Nothing,
    }
}

fn emit<C: Connection>(station: &mut Station<C>) -> Answer
    ensures emit { (hs : List Entry) × ((n : ℕ) → BringsCounted C.meaning C.stands station.old.connection hs station.new.connection n n) × IsEventLine event.Emit result hs }
    ensures client { station.new.client ≡ station.old.client }
    ensures broker { station.new.broker ≡ station.old.broker }
{
    match station.emit() {
        Emit::Bytes(response) => Answer::ToClient(response),
        Emit::Later => Answer::Later,
        Emit::Over(end) => Answer::Over(end),
    }
}

fn pick<C: Connection>(station: &mut Station<C>) -> Answer
    ensures pick { (hs : List Entry) × ((n : ℕ) → BringsCounted C.meaning C.stands station.old.connection hs station.new.connection n n) × IsEventLine event.Pick result hs }
    ensures client { station.new.client ≡ station.old.client }
    ensures broker { station.new.broker ≡ station.old.broker }
{
    match station.pick() {
        Some(ticket) => Answer::Ticket {
            request: ticket.request,
            index: ticket.index,
            key: ticket.key,
        },
        None => Answer::Nothing,
    }
}

fn fault<C: Connection>(station: &mut Station<C>, fault: Fault) -> Answer
    ensures fault { (hs : List Entry) × ((n : ℕ) → BringsCounted C.meaning C.stands station.old.connection hs station.new.connection n n) × IsEventLine (event.Fault fault) result hs }
    ensures client { station.new.client ≡ station.old.client }
    ensures broker { station.new.broker ≡ station.old.broker }
{
    station.fault(fault);
    Answer::Fine
}
