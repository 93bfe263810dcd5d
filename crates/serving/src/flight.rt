// The requests in flight, the sends, and why the connection ends.
ghost use Rattle.serving.specs.Slots.{rests_in};
ghost use Rattle.std.specs.Prelude.{slice_get, ◌≡◌, ◌<◌, ◌^◌};

use crate::frame::WholeFrame;
use crate::slot::{Slot, Stage};
use conn_rules::{Causes, Ticket};
use correlation::Sends;
use std::alloc::Global;
use std::collections::VecDeque;

/// The most bytes that client frames in flight have together. One frame finds room where none is held.
const MOST_HELD: u64 = 209_715_200;

/// What a connection keeps.
#[derive(Drop)]
pub(crate) struct Flight<R: Drop> {
    /// How many requests may be in flight.
    pub(crate) limit: u32,
    /// How many requests are in flight.
    pub(crate) count: u32,
    /// How many bytes their frames have.
    pub(crate) held: u64,
    /// How many requests there were.
    pub(crate) requests: u64,
    pub(crate) causes: Causes,
    /// The requests that no emit step has passed, the oldest first.
    pub(crate) slots: VecDeque<Slot<R>>,
    /// None of them holds back later main sends. It says so only while no cut stands.
    pub(crate) free: bool,
    pub(crate) sends: Sends,
}

impl<R: Drop> Flight<R> {
    ghost use Rattle.conn_rules.specs.Room.{has_room};
    ghost use Rattle.serving.specs.Flights.{IsFresh, first_of, hold_at, is_number, PicksAt, PicksFirst, PassesFront, PassesSilent, PassesReady};

    /// Nothing came yet.
    pub(crate) fn new(alloc: Global, limit: u32) -> Flight<R>
        ensures { IsFresh limit result }
    {
        Flight {
            limit,
            count: 0,
            held: 0,
            requests: 0,
            causes: Causes::new(),
            slots: VecDeque::new(alloc),
            free: true,
            sends: Sends::new(alloc),
        }
    }

    /// The number of the oldest request in flight, which is how many emit steps have passed.
    pub(crate) fn first(&self) -> u64
        ensures first { result ≡ first_of self.now }
        ensures small { self.now.requests < 2 ^ 64 }
    {
        self.requests.saturating_sub(self.count as u64)
    }

    /// A frame of this size finds room.
    pub(crate) fn has_room(&self, size: u64) -> bool
        ensures { result ≡ has_room self.now.limit self.now.count self.now.held size }
    {
        self.count < self.limit && (self.held == 0 || self.held.saturating_add(size) <= MOST_HELD)
    }

    /// The ask number of the hold that this request waits for.
    pub(crate) fn hold_at(&self, request: u64) -> Option<u32>
        ensures { result ≡ hold_at self.now request }
    {
        if !self.causes.is_below_cut(request) {
            return None;
        }
        let place = request.checked_sub(self.first())?;
        let slot = self.slots.get(place as usize)?;
        match slot.stage {
            Stage::Held(_, _) => Some(slot.given),
            Stage::Picked(_) => Some(slot.given),
            _ => None,
        }
    }

    /// This request waits for a hold with this ask number.
    pub(crate) fn awaits(&self, request: u64, index: u32) -> bool
        ensures { result ≡ is_number index (hold_at self.now request) }
    {
        match self.hold_at(request) {
            Some(hold) => hold == index,
            None => false,
        }
    }

    /// The request at this place, which was just given something, leaves nothing to do.
    pub(crate) fn rests_at(&self, place: usize) -> bool
        ensures { result ≡ rests_in (slice_get self.now.slots.items place) }
    {
        match self.slots.get(place) {
            Some(slot) => slot.rests(),
            None => false,
        }
    }

    /// The hold of the oldest request that waits for one and whose hold wasn't picked.
    pub(crate) fn pick_first(&mut self) -> Option<Ticket>
        ensures picks { PicksFirst self.old result self.new }
        ensures small { self.old.requests < 2 ^ 64 }
    {
        let first = self.first();
        for place in 0..self.slots.len() {
            let request = first.saturating_add(place as u64);
            if self.causes.is_below_cut(request) {
                if let Some(ticket) = self.pick_at(place, request) {
                    return Some(ticket);
                }
            }
        }
        None
    }

    fn pick_at(&mut self, place: usize, request: u64) -> Option<Ticket>
        ensures { PicksAt place request self.old result self.new }
    {
        match self.slots.get_mut(place) {
            Some(slot) => match slot.pick() {
                Some(key) => Some(Ticket {
                    request,
                    index: slot.given,
                    key,
                }),
                None => None,
            },
            None => None,
        }
    }

    /// The oldest request is passed over, if it is silent, done and below the cut.
    pub(crate) fn pass_silent(&mut self) -> bool
        ensures { PassesSilent self.old result self.new }
    {
        let first = self.first();
        let is_passed = match self.slots.front() {
            Some(slot) => {
                self.causes.is_below_cut(first)
                    && slot.silent
                    && matches!(slot.stage, Stage::Ready(_))
            }
            None => false,
        };
        is_passed && self.pass_front().is_some()
    }

    /// The oldest request's response, if it is there. The request goes with it.
    pub(crate) fn pass_ready(&mut self) -> Option<WholeFrame>
        ensures { PassesReady self.old result self.new }
    {
        let is_ready = match self.slots.front() {
            Some(slot) => matches!(slot.stage, Stage::Ready(Some(_))),
            None => false,
        };
        if !is_ready {
            return None;
        }
        match self.pass_front() {
            Some(slot) => match slot.stage {
                Stage::Ready(response) => response,
                _ => None,
            },
            None => None,
        }
    }

    /// The oldest request is no more in flight.
    fn pass_front(&mut self) -> Option<Slot<R>>
        ensures { PassesFront self.old result self.new }
    {
        match self.slots.pop_front() {
            Some(slot) => {
                self.count = self.count.saturating_sub(1);
                self.held = self.held.saturating_sub(slot.size);
                Some(slot)
            }
            None => None,
        }
    }
}
