// What the histories came to: how many requests, sends and the like there were, and how many told each end.
use crate::plain::Plain;
use kp_edge::End;
use std::alloc::{AllocError, Global};

#[derive(Drop)]
pub struct Counts {
    counts: Vec<(&'static str, u64)>,
}

impl Counts {
    pub fn new(alloc: Global) -> Counts {
        Counts {
            counts: Vec::new(alloc),
        }
    }

    // A history that ended so.
    pub fn add(&mut self, history: &Plain) -> Result<(), AllocError> {
        self.raise("requests", history.requests.len())?;
        self.raise("sends taken", history.taken)?;
        self.raise("answers that found their send", history.answered)?;
        self.raise("requests passed", history.passed)?;
        self.raise("holds picked", history.picked.len())?;
        let (mut held, mut held_back) = (0usize, 0usize);
        for request in &history.requests {
            held = held.saturating_add(usize::from(request.was_held));
            held_back = held_back.saturating_add(usize::from(request.held_another_back));
        }
        self.raise("requests held", held)?;
        self.raise(
            "requests held while one behind, never held, waited",
            held_back,
        )?;
        match history.over {
            Some(end) => self.raise(name_of(end), 1),
            None => self.raise("no end told", 1),
        }
    }

    fn raise(&mut self, name: &'static str, by: usize) -> Result<(), AllocError> {
        for (counted, times) in self.counts.iter_mut() {
            if *counted == name {
                *times = times.saturating_add(by as u64);
                return Ok(());
            }
        }
        self.counts.push((name, by as u64))?;
        Ok(())
    }

    // The names and their counts, as they came first.
    pub fn counts(&self) -> &[(&'static str, u64)] {
        self.counts.as_slice()
    }
}

fn name_of(end: End) -> &'static str {
    match end {
        End::Ended => "ended",
        End::ClientTorn { .. } => "client-torn",
        End::BadSize { .. } => "bad-size",
        End::BadHead { .. } => "bad-head",
        End::UnsupportedApi { .. } => "unsupported",
        End::BadBody { .. } => "bad-body",
        End::ClientReadFault => "client-read-fault",
        End::FilterShut { .. } => "filter-shut",
        End::BrokerBadBody { .. } => "broker-bad-body",
        End::AuthorityFault { .. } => "authority-fault",
        End::BrokerEnd { .. } => "broker-end",
        End::BrokerTorn { .. } => "broker-torn",
        End::BrokerBadSize { .. } => "broker-bad-size",
        End::Unasked { .. } => "unasked",
        End::Mismatch { .. } => "mismatch",
        End::BrokerReadFault => "broker-read-fault",
        End::BrokerWriteFault => "broker-write-fault",
        End::ClientWriteFault => "client-write-fault",
        End::ThreadRefused => "thread-refused",
        End::NoMemory => "no-memory",
        _ => "another",
    }
}
