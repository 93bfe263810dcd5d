ghost use Rattle.std.specs.Prelude.{◌≡◌, [], Some, None, IfOk};
ghost use Rattle.filter_core.specs.Decision.{Makes};
ghost use Rattle.filter_probes.specs.Probes.{altered, probe_asking, how_often, is_message, on_request_of};
ghost use Rattle.filter_probes.specs.Heeding.{first_byte, by_verdict, probe_heeding, HeedingIsWaiting};
ghost use Rattle.filter_probes.specs.ProbeTurns.{AskingNow, last_turn};

use crate::habit::Habit;
use crate::messages::{heartbeat, heartbeat_error, is_message, metadata};
use filter_core::{Filter, Input, Move, Reason};
use kp_edge::{Blob, NoMemory};
use std::alloc::Global;
use std::sync::atomic::{AtomicU64, Ordering};
use tree_codec::Body;

/// What a probe keeps: the request, if it is still to be forwarded, and how often it asks before.
#[derive(Drop)]
pub struct Waits {
    request: Option<Body>,
    left: u8,
}

/// A filter that counts its turns. It asks some questions and then forwards the request, or it has two turns, or it
/// heeds the verdict on a Heartbeat.
#[derive(Drop)]
pub struct Probe {
    habit: Habit,
    calls: AtomicU64,
}

impl Probe {
    ghost use Rattle.filter_probes.specs.ProbeTurns.{probe_turn};

    /// It asks so often, three times at most, and then forwards the request. 0 asks a Heartbeat aside, 1 asks Metadata
    /// aside, and another number holds.
    pub fn asking(what: u8, times: u8) -> Probe
        ensures { ⟦<Probe as Filter>⟧.turn result ≡ probe_turn (Habit.Asking what times) }
    {
        Probe::with_habit(Habit::Asking { what, times })
    }

    /// 0 changes what comes back for a Heartbeat of version 0 to error 77. 1 answers such a Heartbeat at once with error
    /// 55. 2 shuts with code 7. Another number shuts at Metadata of version 4 with code 3. What isn't named here passes.
    pub fn two_turns(what: u8) -> Probe
        ensures { ⟦<Probe as Filter>⟧.turn result ≡ probe_turn (Habit.TwoTurns what) }
    {
        Probe::with_habit(Habit::TwoTurns { what })
    }

    /// It holds a Heartbeat of version 0. The first byte of the verdict is the error with which it answers at once. After
    /// an empty verdict it forwards the request and hands back what comes. What else comes passes as it came.
    pub fn heeding() -> Probe
        ensures { ⟦<Probe as Filter>⟧.turn result ≡ probe_turn Habit.Heeding }
    {
        Probe::with_habit(Habit::Heeding)
    }

    fn with_habit(habit: Habit) -> Probe
        ensures { result.habit ≡ habit }
    {
        Probe {
            habit,
            calls: AtomicU64::new(0),
        }
    }

    /// How many turns it had.
    pub fn calls(&self) -> u64 {
        self.calls.load(Ordering::SeqCst)
    }
}

impl Filter for Probe {
    ghost use Rattle.filter_probes.specs.ProbeTurns.{probe_turn, ProbeIsWaiting, probe_forwards_once, probe_ends, probe_forwards_same, probe_answered, probe_returns};

    type Pending = Waits;

    ghost turn = { λ f. probe_turn f.habit };

    ghost stands = { λ f p request inputs. ProbeIsWaiting f.habit p.request p.left request inputs };

    fn start(&self, alloc: Global, request: Body) -> Result<Move<Waits>, NoMemory> {
        let _ = self.calls.fetch_add(1, Ordering::SeqCst);
        match self.habit {
            Habit::Asking { what, times } => {
                ask(alloc, what, request, if times < 4 { times } else { 3 })
            }
            Habit::TwoTurns { what } => first(alloc, what, request),
            Habit::Heeding => hold(alloc, request),
        }
    }

    fn resume(&self, alloc: Global, pending: Waits, input: Input) -> Result<Move<Waits>, NoMemory> {
        let _ = self.calls.fetch_add(1, Ordering::SeqCst);
        let Waits { request, left } = pending;
        let Some(request) = request else {
            return hand_back(alloc, self.habit, input);
        };
        match self.habit {
            Habit::Asking { what, .. } => ask(alloc, what, request, left),
            // it keeps no request
            Habit::TwoTurns { .. } => Ok(Move::Return(None)),
            Habit::Heeding => heed(alloc, request, &input),
        }
    }

    ghost forwards_once = { λ f. probe_forwards_once f.habit };

    ghost ends_after_six = { λ f. probe_ends f.habit };

    ghost forwards_the_same = { λ f. probe_forwards_same f.habit };

    ghost questions_are_answered = { λ f. probe_answered f.habit };

    ghost returns_an_answer = { λ f. probe_returns f.habit };
}

fn ask(alloc: Global, what: u8, request: Body, left: u8) -> Result<Move<Waits>, NoMemory>
    ensures { IfOk result (λ made. Makes (λ (p : _). AskingNow left request p.request p.left) (probe_asking what left request []) made) }
{
    let Some(left) = left.checked_sub(1) else {
        return Ok(Move::Forward(request, Waits::nothing()));
    };
    let waits = Waits {
        request: Some(request),
        left,
    };
    match what {
        0 => Ok(Move::Side(heartbeat(alloc)?, waits)),
        1 => Ok(Move::Side(metadata(alloc)?, waits)),
        _ => Ok(Move::Hold(Blob::copy(alloc, b"k")?, waits)),
    }
}

fn first(alloc: Global, what: u8, request: Body) -> Result<Move<Waits>, NoMemory>
    ensures { IfOk result (λ made. Makes (λ (p : _). p.request ≡ None) (on_request_of what request) made) }
{
    let waits = Waits::nothing();
    match what {
        0 => Ok(Move::Forward(request, waits)),
        1 if is_message(&request, 12, 0) => Ok(Move::Return(Some(heartbeat_error(alloc, 55)?))),
        1 => Ok(Move::Forward(request, waits)),
        2 => Ok(Move::Shut(Reason::Code(7))),
        _ if is_message(&request, 3, 4) => Ok(Move::Shut(Reason::Code(3))),
        _ => Ok(Move::Forward(request, waits)),
    }
}

// A Heartbeat is held.
fn hold(alloc: Global, request: Body) -> Result<Move<Waits>, NoMemory>
    ensures { IfOk result (λ made. Makes (λ (p : _). HeedingIsWaiting p.request request []) (probe_heeding request []) made) }
{
    if is_message(&request, 12, 0) {
        let waits = Waits {
            request: Some(request),
            left: 0,
        };
        Ok(Move::Hold(Blob::copy(alloc, b"k")?, waits))
    } else {
        Ok(Move::Forward(request, Waits::nothing()))
    }
}

// The verdict on a Heartbeat came.
fn heed(alloc: Global, request: Body, input: &Input) -> Result<Move<Waits>, NoMemory>
    ensures { IfOk result (λ made. Makes (λ (p : _). (p.request ≡ None) × (first_byte input.now ≡ None)) (by_verdict (first_byte input.now) request []) made) }
{
    match first_byte(input) {
        Some(byte) => Ok(Move::Return(Some(heartbeat_error(alloc, i16::from(byte))?))),
        None => Ok(Move::Forward(request, Waits::nothing())),
    }
}

// Of a verdict that has one.
fn first_byte(input: &Input) -> Option<u8>
    ensures { result ≡ first_byte input.now }
{
    match input {
        Input::Verdict(verdict) => verdict.as_slice().first().copied(),
        Input::Response(_) | Input::NoResponse => None,
    }
}

// What came back for a request that was forwarded.
fn hand_back(alloc: Global, habit: Habit, input: Input) -> Result<Move<Waits>, NoMemory>
    ensures { IfOk result (λ made. Makes (λ (p : _). ⊥) (last_turn habit input) made) }
{
    let response = input.into_response();
    match (habit, response) {
        (Habit::TwoTurns { what: 0 }, Some(response)) => {
            Ok(Move::Return(Some(alter(alloc, response)?)))
        }
        (_, response) => Ok(Move::Return(response)),
    }
}

fn alter(alloc: Global, response: Body) -> Result<Body, NoMemory>
    ensures { IfOk result (λ new. new ≡ altered response) }
{
    if is_message(&response, 12, 0) {
        heartbeat_error(alloc, 77)
    } else {
        Ok(response)
    }
}

impl Waits {
    // The request is forwarded.
    fn nothing() -> Waits
        ensures { result.request ≡ None }
    {
        Waits {
            request: None,
            left: 0,
        }
    }
}
