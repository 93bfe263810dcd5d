// A connection that notes what it is told.
ghost use Rattle.std.specs.Prelude.{◌≡◌};
ghost use Rattle.conn_rules.specs.Worked.{worked_meaning};

use bytes::Bytes;
use conn_rules::{AnswerFault, CompleteFault, Connection, Emit, Fault, Look, TakeFault, Ticket};
use kp_edge::{Blob, Steps};
use std::alloc::{AllocError, Global};

// The last byte of a frame says what becomes of it: `+` is accepted, `-` comes too late, `=` finds no room until an emit
// step has made some, and for `!` there is no memory. A verdict is accepted for request 0, request 1 waits for none, and for
// each other there is no memory.
#[derive(Drop)]
pub(super) struct Noting {
    alloc: Global,
    notes: String,
    room: bool,
}

impl Noting {
    pub(super) fn new(alloc: Global) -> Noting {
        Noting {
            alloc,
            notes: String::new(alloc),
            room: false,
        }
    }

    // What was noted is lost where no memory is found, and then a test fails.
    fn note(&mut self, text: Result<String, AllocError>) {
        if let Ok(text) = text {
            let _ = self.notes.push_str(text.as_str());
        }
    }

    fn note_frame(&mut self, call: &str, frame: &Bytes) -> u8 {
        let bytes = frame.as_slice();
        let text = match std::str::from_utf8(bytes) {
            Ok(text) => format!(in self.alloc; "{call} {text}; "),
            Err(_) => format!(in self.alloc; "{call} {} other bytes; ", bytes.len()),
        };
        self.note(text);
        bytes.last().copied().unwrap_or(0)
    }
}

impl Connection for Noting {
    ghost meaning = { λ _. worked_meaning };

    // It stands for no state of the machine, so that its answers are free.
    ghost stands = { λ _ _. ⊥ };

    fn take<L>(&mut self, frame: Bytes, _steps: &mut Steps<L>) -> Result<(), TakeFault> {
        match self.note_frame("take", &frame) {
            b'-' => Err(TakeFault::Ending(frame)),
            b'=' if !self.room => Err(TakeFault::Full {
                count: 1,
                held: 8,
                frame,
            }),
            b'!' => Err(TakeFault::NoMemory),
            _ => Ok(()),
        }
    }

    fn answer<L>(&mut self, frame: Bytes, _steps: &mut Steps<L>) -> Result<(), AnswerFault> {
        match self.note_frame("answer", &frame) {
            b'-' => Err(AnswerFault::Dead(frame)),
            b'!' => Err(AnswerFault::NoMemory),
            _ => Ok(()),
        }
    }

    fn complete<L>(
        &mut self,
        request: u64,
        index: u32,
        verdict: Blob,
        _steps: &mut Steps<L>,
    ) -> Result<(), CompleteFault> {
        let bytes = verdict.as_slice();
        self.note(match std::str::from_utf8(bytes) {
            Ok(text) => format!(in self.alloc; "complete {request} {index} with {text}; "),
            Err(_) => {
                format!(in self.alloc;
                    "complete {request} {index} with {} other bytes; ",
                    bytes.len()
                )
            }
        });
        match request {
            0 => Ok(()),
            1 => Err(CompleteFault::NotWaiting(verdict)),
            _ => Err(CompleteFault::NoMemory),
        }
    }

    fn client_end(&mut self, rest: u64) {
        self.note(format!(in self.alloc; "client end {rest}; "));
    }

    fn broker_end(&mut self, rest: u64) {
        self.note(format!(in self.alloc; "broker end {rest}; "));
    }

    fn fault(&mut self, fault: Fault) {
        let text = match fault {
            Fault::ClientBadSize { at, size } => {
                format!(in self.alloc; "client bad size {size} at {at}; ")
            }
            Fault::BrokerBadSize { at, size } => {
                format!(in self.alloc; "broker bad size {size} at {at}; ")
            }
            Fault::NoMemory => format!(in self.alloc; "no memory; "),
            _ => format!(in self.alloc; "fault; "),
        };
        self.note(text);
    }

    // All that was noted.
    fn send(&mut self) -> Option<Bytes> {
        Bytes::copy_from_slice(self.alloc, self.notes.as_bytes()).ok()
    }

    fn emit(&mut self) -> Emit {
        self.room = true;
        Emit::Later
    }

    fn pick(&mut self) -> Option<Ticket> {
        None
    }

    fn look(&self) -> Look {
        Look {
            over: false,
            dead: false,
            in_flight: 0,
            held: 0,
        }
    }
}
