// What is kept of a request in flight.
ghost use Rattle.std.specs.Prelude.{◌≡◌, ◌≤◌, IfSome, IsNone, OnOk, true, false};
ghost use Rattle.serving.specs.Services.{CountsOn, outside_of};
ghost use Rattle.serving.specs.Slots.{fresh_slot, stage_of, holds_none_back, rests, may_list, GoesOn, waiting_run, slot_remaining, PicksHold};

use crate::cause::Cause;
use crate::frame::WholeFrame;
use crate::given::Given;
use crate::message::Message;
use crate::progress::Progress;
use crate::service::Service;
use kp_edge::{Blob, NoMemory, Steps};
use std::mem::replace;

/// A request that no emit step has passed.
#[derive(Drop)]
pub(crate) struct Slot<R: Drop> {
    /// How many bytes its frame has, the four of the size not counted.
    pub(crate) size: u64,
    /// It gets no response.
    pub(crate) silent: bool,
    /// How much it was given from outside, which is the number of its next ask.
    pub(crate) given: u32,
    /// Its main send is listed.
    pub(crate) main_listed: bool,
    pub(crate) stage: Stage<R>,
}

/// How far a request has come.
#[derive(Drop)]
pub(crate) enum Stage<R: Drop> {
    /// Its message isn't among the sends.
    Unlisted(Message, R),
    /// Its send waits for the broker's response.
    Listed(R),
    /// Its hold wasn't picked.
    Held(Blob, R),
    /// Its hold was picked, and waits for a verdict.
    Picked(R),
    /// It is done, with its response. A silent one has none.
    Ready(Option<WholeFrame>),
    /// It ends the connection.
    Failed(Cause),
    /// Its run is at work. It stays so only where memory was wanting.
    AtWork,
}

pub(crate) fn stage_of<R: Drop>(progress: Progress<R>) -> Stage<R>
    ensures { result ≡ stage_of progress }
{
    match progress {
        Progress::Sends(message, run) => Stage::Unlisted(message, run),
        Progress::Holds(key, run) => Stage::Held(key, run),
        Progress::Done(response) => Stage::Ready(response),
        Progress::Failed(cause) => Stage::Failed(cause),
    }
}

impl<R: Drop> Slot<R> {
    /// A request that was just taken.
    pub(crate) fn begun(size: u64, silent: bool, progress: Progress<R>) -> Slot<R>
        ensures { result ≡ fresh_slot size silent progress }
    {
        Slot {
            size,
            silent,
            given: 0,
            main_listed: false,
            stage: stage_of(progress),
        }
    }

    /// It holds back no later main send: its own is listed, or it is done.
    pub(crate) fn holds_none_back(&self) -> bool
        ensures { result ≡ holds_none_back self.now }
    {
        match self.stage {
            Stage::Ready(_) => true,
            _ => self.main_listed,
        }
    }

    /// It was just given something, and nothing is left to do for it. It holds back later main sends as it did while it
    /// waited.
    pub(crate) fn rests(&self) -> bool
        ensures { result ≡ rests self.now }
    {
        match self.stage {
            Stage::Listed(_) => true,
            Stage::Held(_, _) => true,
            Stage::Picked(_) => true,
            Stage::Ready(_) => self.main_listed,
            _ => false,
        }
    }

    /// The message that it waits to have listed, and its run. A main one is listed only where no earlier request holds
    /// it back.
    pub(crate) fn unlisted(&mut self, free: bool) -> Option<(Message, R)>
        ensures some { IfSome result (λ taken. (self.old.stage ≡ Stage.Unlisted taken.0 taken.1) × (may_list free self.old ≡ true) × (self.new ≡ record self.old { stage = Stage.AtWork })) }
        ensures none { IsNone result → (self.new ≡ self.old) × (may_list free self.old ≡ false) }
    {
        if !matches!(self.stage, Stage::Unlisted(_, _)) {
            return None;
        }
        match replace(&mut self.stage, Stage::AtWork) {
            Stage::Unlisted(message, run) => {
                if free || !message.main {
                    Some((message, run))
                } else {
                    self.stage = Stage::Unlisted(message, run);
                    None
                }
            }
            other => {
                self.stage = other;
                None
            }
        }
    }

    /// The run of a request that waits for the broker's response or for a verdict.
    pub(crate) fn waiting_run(&mut self) -> Option<R>
        ensures run { result ≡ waiting_run self.old.stage }
        ensures rest { IfSome result (λ run. self.new ≡ record self.old { stage = Stage.AtWork }) }
    {
        match replace(&mut self.stage, Stage::AtWork) {
            Stage::Listed(run) => Some(run),
            Stage::Held(_, run) => Some(run),
            Stage::Picked(run) => Some(run),
            other => {
                self.stage = other;
                None
            }
        }
    }

    /// The key of its hold, which is picked now.
    pub(crate) fn pick(&mut self) -> Option<Blob>
        ensures { PicksHold self.old result self.new }
    {
        match replace(&mut self.stage, Stage::AtWork) {
            Stage::Held(key, run) => {
                self.stage = Stage::Picked(run);
                Some(key)
            }
            other => {
                self.stage = other;
                None
            }
        }
    }
}

/// The request's run goes on with what it was given. Memory is wanting too where that is more than 32 bits can count.
pub(crate) fn go_on<S: Service, L>(
    service: &S,
    slot: &mut Slot<S::Run>,
    run: S::Run,
    given: Given<S::Answer>,
    steps: &mut Steps<L>,
) -> Result<(), NoMemory>
    ensures right { OnOk result (GoesOn (S.meaning service.now) (S.stands service.now) run (outside_of (S.read_from service.now) given) slot.old slot.new) }
    ensures counted { OnOk result (CountsOn (S.meaning service.now) (S.stands service.now) run (outside_of (S.read_from service.now) given) steps.old steps.new) }
    ensures fewer { OnOk result (slot_remaining (S.remaining service.now) slot.new ≤ S.remaining service.now run) }
{
    let Some(count) = slot.given.checked_add(1) else {
        return Err(NoMemory);
    };
    slot.stage = stage_of(service.go_on(run, given, steps)?);
    slot.given = count;
    Ok(())
}
