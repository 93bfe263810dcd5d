// What requests do by themselves: list a send for the broker, or fail. After each event the connection settles: the
// oldest request that can do either does it, until none can.
ghost use Rattle.std.specs.Prelude.{◌≡◌, ◌<◌, ◌≤◌, ℕ, IfOk, OnOk, true, false, Some};
ghost use Rattle.conn_rules.specs.Room.{limited};
ghost use Rattle.conn_rules.specs.State.{Outside};
ghost use Rattle.correlation.specs.WindowOf.{window_of};
ghost use Rattle.serving.specs.Services.{outside_of};
ghost use Rattle.serving.specs.Slots.{may_list, slot_remaining};
ghost use Rattle.serving.specs.Listing.{window_with, ListsNext, CountsNext, Advances, SettlesAt, FlightSettlesFrom, SameOutside, GivesAt, CountsAt};

use crate::flight::Flight;
use crate::frame::WholeFrame;
use crate::given::Given;
use crate::message::Message;
use crate::service::Service;
use crate::slot::{Slot, Stage, go_on};
use conn_rules::Causes;
use correlation::{Owner, Sends};
use kp_edge::{NoMemory, Steps};

/// The message of this request is a send, behind the others.
fn list(sends: &mut Sends, request: u64, message: Message) -> Result<(), NoMemory>
    ensures { OnOk result (window_of sends.new ≡ window_with request message (window_of sends.old)) }
{
    let id = sends.next_id().to_be_bytes();
    let before = message.before;
    let frame = WholeFrame::of_draft(before, id, message.draft)?;
    let owner = Owner {
        request,
        main: message.main,
        silent: !message.responds,
        before,
    };
    sends.push(owner, frame.bytes)?;
    Ok(())
}

/// The request's message is listed, if it may be. One that gets no response counts as answered without one at once.
fn list_next<S: Service, L>(
    service: &S,
    sends: &mut Sends,
    request: u64,
    free: bool,
    slot: &mut Slot<S::Run>,
    steps: &mut Steps<L>,
) -> Result<bool, NoMemory>
    ensures lists { IfOk result (λ listed. ListsNext (S.meaning service.now) (S.stands service.now) request free slot.old (window_of sends.old) listed slot.new (window_of sends.new)) }
    ensures counted { IfOk result (λ listed. CountsNext (S.meaning service.now) (S.stands service.now) listed slot.old steps.old steps.new) }
    ensures fewer { result ≡ Ok true → slot_remaining (S.remaining service.now) slot.new < slot_remaining (S.remaining service.now) slot.old }
{
    let Some((message, run)) = slot.unlisted(free) else {
        return Ok(false);
    };
    slot.main_listed = slot.main_listed || message.main;
    let responds = message.responds;
    list(sends, request, message)?;
    if responds {
        slot.stage = Stage::Listed(run);
    } else {
        go_on(service, slot, run, Given::NoResponse, steps)?;
    }
    Ok(true)
}

/// The request lists what it can.
fn list_all<S: Service, L>(
    service: &S,
    sends: &mut Sends,
    request: u64,
    free: bool,
    slot: &mut Slot<S::Run>,
    steps: &mut Steps<L>,
) -> Result<(), NoMemory>
    ensures advances { OnOk result ((limit : ℕ) → Advances (limited limit (S.meaning service.now)) (S.stands service.now) request free slot.old (window_of sends.old) slot.new (window_of sends.new) steps.old steps.new) }
    ensures done { OnOk result (may_list free slot.new ≡ false) }
{
    'asks: while list_next(service, sends, request, free, slot, steps)? {}
    Ok(())
}

/// This request settles, and tells whether main sends behind it may be listed. `None` where nothing behind it does
/// anything any more.
fn settle_at<S: Service, L>(
    service: &S,
    causes: &mut Causes,
    sends: &mut Sends,
    request: u64,
    free: bool,
    slot: &mut Slot<S::Run>,
    steps: &mut Steps<L>,
) -> Result<Option<bool>, NoMemory>
    ensures settles { IfOk result (λ free_behind. (limit : ℕ) → SettlesAt (limited limit (S.meaning service.now)) (S.stands service.now) request free causes.old slot.old (window_of sends.old) free_behind causes.new slot.new (window_of sends.new) steps.old steps.new) }
    ensures halt { causes.new.halt ≡ causes.old.halt }
    ensures over { causes.new.over ≡ causes.old.over }
{
    if !causes.is_below_cut(request) {
        return Ok(None);
    }
    list_all(service, sends, request, free, slot, steps)?;
    if let Stage::Failed(cause) = slot.stage {
        causes.cut_at(request, cause.at(request));
        return Ok(None);
    }
    Ok(Some(free && slot.holds_none_back()))
}

/// The requests from this place on settle, where those before it have nothing to do. `free` says that none of them holds
/// back later main sends.
pub(crate) fn settle<S: Service, L>(
    service: &S,
    flight: &mut Flight<S::Run>,
    from: usize,
    free: bool,
    steps: &mut Steps<L>,
) -> Result<(), NoMemory>
    ensures settles { OnOk result ((limit : ℕ) → FlightSettlesFrom (limited limit (S.meaning service.now)) (S.stands service.now) from free flight.old flight.new steps.old steps.new) }
    ensures outside { SameOutside flight.old flight.new }
{
    let first = flight.first();
    let mut free = free;
    for place in from..flight.slots.len() {
        let request = first.saturating_add(place as u64);
        let Some(slot) = flight.slots.get_mut(place) else {
            return Err(NoMemory);
        };
        let causes = &mut flight.causes;
        let sends = &mut flight.sends;
        match settle_at(service, causes, sends, request, free, slot, steps)? {
            Some(free_behind) => free = free_behind,
            None => return Ok(()),
        }
    }
    flight.free = free;
    Ok(())
}

/// The request at this place is given what it waits for.
pub(crate) fn give<S: Service, L>(
    service: &S,
    flight: &mut Flight<S::Run>,
    place: usize,
    given: Given<S::Answer>,
    steps: &mut Steps<L>,
) -> Result<(), NoMemory>
    ensures gives { OnOk result (GivesAt (S.meaning service.now) (S.stands service.now) place (outside_of (S.read_from service.now) given) flight.old flight.new) }
    ensures counted { OnOk result (CountsAt (S.meaning service.now) (S.stands service.now) place (outside_of (S.read_from service.now) given) flight.old steps.old steps.new) }
    ensures outside { SameOutside flight.old flight.new }
{
    // a slot that isn't there, or that waits for nothing, is never given anything
    let Some(slot) = flight.slots.get_mut(place) else {
        return Err(NoMemory);
    };
    let Some(run) = slot.waiting_run() else {
        return Err(NoMemory);
    };
    go_on(service, slot, run, given, steps)
}
