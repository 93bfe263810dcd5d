// A connection as lists, after docs/CONNECTION.md. Each event works out anew how each request stands.
use crate::samples::Sample;
use kp_edge::End;
use plain_chain::{Came, Message, ProbeKind};
use std::alloc::Global;

#[derive(Drop)]
pub struct Request {
    pub sample: Sample,
    pub own_id: [u8; 4],
    // What came for it, and the bodies of the answers among it. What is no answer has an empty body.
    pub came: Vec<Came>,
    pub bodies: Vec<Vec<u8>>,
    pub was_held: bool,
    // While it was held, a later request, which never was, had to wait with its main send.
    pub held_another_back: bool,
}

#[derive(Drop)]
pub struct ListedSend {
    pub request: usize,
    pub ask: usize,
    pub message: Message,
    pub main: bool,
    pub responds: bool,
}

#[derive(Drop)]
pub struct Plain {
    pub alloc: Global,
    pub chain: Vec<ProbeKind>,
    pub in_flight: usize,
    pub requests: Vec<Request>,
    pub sends: Vec<ListedSend>,
    pub taken: usize,
    pub answered: usize,
    pub passed: usize,
    pub cut: Option<(usize, End)>,
    pub death: Option<End>,
    pub halt: Option<End>,
    pub over: Option<End>,
    pub picked: Vec<(usize, usize)>,
}

impl Plain {
    pub fn new(alloc: Global, chain: Vec<ProbeKind>, in_flight: usize) -> Plain {
        Plain {
            alloc,
            chain,
            in_flight,
            requests: Vec::new(alloc),
            sends: Vec::new(alloc),
            taken: 0,
            answered: 0,
            passed: 0,
            cut: None,
            death: None,
            halt: None,
            over: None,
            picked: Vec::new(alloc),
        }
    }

    pub fn is_below_cut(&self, request: usize) -> bool {
        match self.cut {
            None => true,
            Some((cut, _)) => request < cut,
        }
    }

    pub fn cut_at(&mut self, request: usize, why: End) {
        if self.is_below_cut(request) {
            self.cut = Some((request, why));
        }
    }

    pub fn die(&mut self, why: End) {
        self.death = Some(self.death.unwrap_or(why));
    }

    pub fn halt(&mut self, why: End) {
        self.halt = Some(self.halt.unwrap_or(why));
    }

    pub fn is_still(&self) -> bool {
        self.halt.is_some() || self.over.is_some()
    }

    pub fn is_dead(&self) -> bool {
        self.death.is_some() || self.is_still()
    }

    pub fn is_ending(&self) -> bool {
        self.cut.is_some() || self.is_dead()
    }

    // The number of the first send that the broker was given, that gets a response, and that has none yet.
    pub fn due(&self) -> Option<usize> {
        let mut before = 0usize;
        for (number, send) in self.sends.iter().enumerate() {
            if number < self.taken && send.responds {
                if before == self.answered {
                    return Some(number);
                }
                before = before.saturating_add(1);
            }
        }
        None
    }

    // How many of them have none yet.
    pub fn waiting(&self) -> u64 {
        let mut given = 0usize;
        for (number, send) in self.sends.iter().enumerate() {
            if number < self.taken && send.responds {
                given = given.saturating_add(1);
            }
        }
        given.saturating_sub(self.answered) as u64
    }

    // How many requests are in flight, and the bytes of their frames.
    pub fn load(&self) -> (usize, usize) {
        let (mut count, mut held) = (0usize, 0usize);
        for (number, request) in self.requests.iter().enumerate() {
            if number >= self.passed {
                count = count.saturating_add(1);
                held = held.saturating_add(request.sample.size());
            }
        }
        (count, held)
    }
}
