// A small service. The first three bytes of a frame are the codes of its asks, in order:
//
//   m  the main send                  h  a hold on the body
//   q  the main send, no response     v  the main send after a verdict 1, a failure after another
//   a  a send aside, without body     f  a failure
//
// Another code ends the list: the request is done, and its response is what it was given last. The fourth byte is `-`
// where the request is silent. A frame that begins with `x` is no request. A body that begins with `!` can't be read.
ghost use Rattle.std.specs.Prelude.{◌≡◌, ◌==◌, ◌≤◌, ◌<◌, ◌-◌, ◌^◌, ◌++◌, ◌∷◌, [], ℕ, List, length, take, drop, get_or, IfOk, OnOk, true, false, Option};
ghost use Rattle.conn_rules.specs.Meaning.{Meaning, ToBroker, Waits};
ghost use Rattle.conn_rules.specs.State.{Outside};
ghost use Rattle.serving.specs.Services.{Begins, IsProgress, IsDone, CountsOn, awaits_answer_to, outside_of, IsRead, progress_remaining};
ghost use Rattle.serving.specs.Trials.{trial, trial_main, trial_done, last_given, outside_bytes};

use crate::{Begun, Cause, Given, Message, Progress, Service, WholeFrame};
use bytes::Bytes;
use kp_edge::{Blob, NoMemory, Steps};
use std::alloc::Global;

#[derive(Drop)]
pub(crate) struct Trial {
    pub(crate) alloc: Global,
}

// A request that was given so much.
#[derive(Drop)]
pub(crate) struct TrialRun {
    frame: Bytes,
    asks: usize,
    ghost long: { 8 ≤ length frame },
}

impl Service for Trial {
    type Run = TrialRun;

    // The body itself.
    type Answer = Bytes;

    ghost meaning = { λ _. trial };

    ghost stands = { λ _ run frame given. (run.frame ≡ frame) × (run.asks ≡ length given) };

    ghost read_from = { λ _ answer. answer };

    ghost remaining = { λ _ run. 3 - run.asks };

    fn begin<L>(&self, frame: &Bytes, steps: &mut Steps<L>) -> Result<Begun<TrialRun>, NoMemory> {
        if is_first(frame.as_slice(), b'x') {
            return Ok(Begun::NoRequest(Cause::BadHead));
        }
        let silent = is_silent(frame.as_slice());
        steps.tick();
        let progress = first_ask(self.alloc, frame)?;
        Ok(Begun::Request { silent, progress })
    }

    fn go_on<L>(
        &self,
        run: TrialRun,
        given: Given<Bytes>,
        steps: &mut Steps<L>,
    ) -> Result<Progress<TrialRun>, NoMemory>
        ensures right { IfOk result (λ progress. (frame : List ℕ) (before : List Outside) → (run.frame ≡ frame) × (run.asks ≡ length before) → IsProgress trial (λ other own more. (other.frame ≡ own) × (other.asks ≡ length more)) frame (before ++ outside_of (λ (answer : List ℕ). answer) given ∷ []) progress) }
        ensures counted { OnOk result (CountsOn trial (λ other own more. (other.frame ≡ own) × (other.asks ≡ length more)) run (outside_of (λ (answer : List ℕ). answer) given) steps.old steps.new) }
        ensures fewer { IfOk result (λ progress. progress_remaining (λ other. 3 - other.asks) progress ≤ 3 - run.asks) }
    {
        steps.tick();
        match given {
            Given::Answer(body) => ask_on(self.alloc, run, body.as_slice()),
            Given::NoResponse => ask_on(self.alloc, run, &[]),
            Given::Verdict(verdict) => ask_on(self.alloc, run, verdict.as_slice()),
        }
    }

    fn read(&self, _before: [u8; 4], body: Bytes) -> Result<Result<Bytes, Cause>, NoMemory> {
        if is_first(body.as_slice(), b'!') {
            Ok(Err(Cause::BrokerBadBody { key: 7, version: 2 }))
        } else {
            Ok(Ok(body))
        }
    }
}

fn is_silent(frame: &[u8]) -> bool
    requires { 8 ≤ length frame.now }
    ensures { result ≡ (get_or frame.now 3 0 == 45) }
{
    frame[3] == b'-'
}

fn is_first(bytes: &[u8], first: u8) -> bool
    requires { 1 ≤ first }
    ensures { result ≡ (get_or bytes.now 0 0 == first) }
{
    !bytes.is_empty() && bytes[0] == first
}

fn first_ask(alloc: Global, frame: &Bytes) -> Result<Progress<TrialRun>, NoMemory>
    requires { 8 ≤ length frame.now }
    ensures { IfOk result (λ progress. IsProgress trial (λ other own more. (other.frame ≡ own) × (other.asks ≡ length more)) frame.now [] progress) }
{
    let run = TrialRun {
        frame: frame.clone()?,
        asks: 0,
    };
    next_ask(alloc, run, &[])
}

// What the run does with the next bytes that it is given.
fn ask_on(alloc: Global, run: TrialRun, last: &[u8]) -> Result<Progress<TrialRun>, NoMemory>
    ensures right { IfOk result (λ progress. (frame : List ℕ) (before : List Outside) (x : Outside) → outside_bytes x ≡ last.now → (run.frame ≡ frame) × (run.asks ≡ length before) → IsProgress trial (λ other own more. (other.frame ≡ own) × (other.asks ≡ length more)) frame (before ++ x ∷ []) progress) }
    ensures fewer { IfOk result (λ progress. progress_remaining (λ other. 3 - other.asks) progress ≤ 3 - run.asks) }
{
    let Some(asks) = run.asks.checked_add(1) else {
        return Err(NoMemory);
    };
    let run = TrialRun {
        frame: run.frame,
        asks,
    };
    next_ask(alloc, run, last)
}

// What the run does with the last bytes that it was given.
fn next_ask(alloc: Global, run: TrialRun, last: &[u8]) -> Result<Progress<TrialRun>, NoMemory>
    ensures right { IfOk result (λ progress. (given : List Outside) → length given ≡ run.asks → last_given given ≡ last.now → IsProgress trial (λ other frame more. (other.frame ≡ frame) × (other.asks ≡ length more)) run.frame given progress) }
    ensures fewer { IfOk result (λ progress. progress_remaining (λ other. 3 - other.asks) progress ≤ 4 - run.asks) }
{
    if run.asks >= 3 {
        return done(alloc, &run.frame, last);
    }
    let code = run.frame.as_slice()[run.asks];
    match code {
        b'm' => main_send(alloc, run, true),
        b'q' => main_send(alloc, run, false),
        b'a' => Ok(Progress::Sends(aside(alloc, &run.frame)?, run)),
        b'h' => {
            let key = Blob::copy(alloc, run.frame.as_slice().split_at(8).1)?;
            Ok(Progress::Holds(key, run))
        }
        b'v' => {
            if is_first(last, 1) {
                main_send(alloc, run, true)
            } else {
                Ok(Progress::Failed(Cause::FilterShut { filter: 3, code: 9 }))
            }
        }
        b'f' => Ok(Progress::Failed(Cause::AskBudget)),
        _ => done(alloc, &run.frame, last),
    }
}

fn before(frame: &[u8]) -> [u8; 4]
    requires { 8 ≤ length frame.now }
    ensures { result ≡ take 4 frame.now }
{
    [frame[0], frame[1], frame[2], frame[3]]
}

// The draft of a message that says these bytes itself.
fn draft(alloc: Global, behind: &[u8]) -> Result<Vec<u8>, NoMemory>
    requires { length behind.now < 2 ^ 63 }
    ensures { IfOk result (λ draft. (12 ≤ length draft.items) × (drop 12 draft.items ≡ behind.now)) }
{
    let mut draft = Vec::with_capacity(alloc, 12 + behind.len())?;
    draft.extend_from_slice(&[0; 12])?;
    draft.extend_from_slice(behind)?;
    Ok(draft)
}

fn main_send(alloc: Global, run: TrialRun, responds: bool) -> Result<Progress<TrialRun>, NoMemory>
    ensures { IfOk result (λ progress. (message : Message) × (progress ≡ Progress.Sends message run) × (awaits_answer_to message ≡ trial_main run.frame responds)) }
{
    let message = main_message(alloc, &run.frame, responds)?;
    Ok(Progress::Sends(message, run))
}

fn main_message(alloc: Global, frame: &Bytes, responds: bool) -> Result<Message, NoMemory>
    requires { 8 ≤ length frame.now }
    ensures { IfOk result (λ message. awaits_answer_to message ≡ trial_main frame.now responds) }
{
    Ok(Message {
        before: before(frame.as_slice()),
        draft: draft(alloc, frame.as_slice().split_at(8).1)?,
        main: true,
        responds,
    })
}

fn aside(alloc: Global, frame: &Bytes) -> Result<Message, NoMemory>
    requires { 8 ≤ length frame.now }
    ensures { IfOk result (λ message. awaits_answer_to message ≡ Waits (ToBroker (take 4 frame.now) [] false true)) }
{
    Ok(Message {
        before: before(frame.as_slice()),
        draft: draft(alloc, &[])?,
        main: false,
        responds: true,
    })
}

fn done(alloc: Global, frame: &Bytes, last: &[u8]) -> Result<Progress<TrialRun>, NoMemory>
    requires { 8 ≤ length frame.now }
    ensures { IfOk result (λ progress. (response : Option WholeFrame) × (progress ≡ Progress.Done response) × IsDone (get_or frame.now 3 0 == 45) (trial_done frame.now last.now) response) }
{
    let bytes = frame.as_slice();
    if is_silent(bytes) {
        return Ok(Progress::Done(None));
    }
    let own_id = [bytes[4], bytes[5], bytes[6], bytes[7]];
    let response = WholeFrame::of_parts(alloc, &[], own_id, last)?;
    Ok(Progress::Done(Some(response)))
}
