ghost use Rattle.std.specs.Prelude.{◌≡◌, ◌+◌, ◌≤◌, length, pos, IfOk, OnOk, OnErr};
ghost use Rattle.conn_rules.specs.State.{upstream_id};
ghost use Rattle.correlation.specs.Windows.{fresh_window, with_listed, first_frame, with_taken, due_owner, owner_of_frame, with_answered};
ghost use Rattle.correlation.specs.Counting.{responding_count};

use crate::owner::{AnswerRefusal, Numbered, Owner};
use bytes::Bytes;
use kp_edge::NoMemory;
use std::alloc::Global;
use std::collections::VecDeque;

// A send that the broker's writer hasn't taken.
#[derive(Drop)]
pub(crate) struct Unsent {
    pub(crate) silent: bool,
    // With its size.
    pub(crate) frame: Bytes,
}

/// The sends of a connection, as far as they are still wanted.
#[derive(Drop)]
pub struct Sends {
    // How many were listed.
    pub(crate) next: u64,
    // How many the writer took, of those that get a response and have none yet.
    pub(crate) waiting: u64,
    // The owners of the sends that are still to get a response, in the list's order.
    pub(crate) owners: VecDeque<Numbered>,
    pub(crate) unsent: VecDeque<Unsent>,
    ghost counted: { waiting + responding_count unsent.items ≡ length owners.items },
}

impl Sends {
    ghost use Rattle.correlation.specs.WindowOf.{window_of};

    /// No send was listed yet.
    pub fn new(alloc: Global) -> Sends
        ensures { window_of result ≡ fresh_window }
    {
        Sends {
            next: 0,
            waiting: 0,
            owners: VecDeque::new(alloc),
            unsent: VecDeque::new(alloc),
        }
    }

    #[tactic(auto, using(crate::proofs::Lists::count_silent, crate::proofs::Lists::count_responding))]
    /// Lists a send behind the others, and gives its number. Its frame stands with its size, and with the correlation
    /// id that `next_id` tells. Want of memory is answered too where the number would pass 64 bits.
    pub fn push(&mut self, owner: Owner, frame: Bytes) -> Result<u64, NoMemory>
        ensures number { IfOk result (λ number. number ≡ (window_of self.old).next) }
        ensures listed { OnOk result (window_of self.new ≡ with_listed owner frame (window_of self.old)) }
        ensures err { OnErr result (window_of self.new ≡ window_of self.old) }
    {
        let number = self.next;
        let Some(next) = number.checked_add(1) else {
            return Err(NoMemory);
        };
        self.unsent.reserve(1)?;
        if !owner.silent {
            self.owners.push_back(Numbered { number, owner })?;
        }
        self.unsent.push_back_reserved(Unsent {
            silent: owner.silent,
            frame,
        });
        self.next = next;
        Ok(number)
    }

    /// The correlation id of the send that is listed next.
    pub fn next_id(&self) -> i32
        ensures { result ≡ pos (upstream_id (window_of self.now).next) }
    {
        upstream_id(self.next)
    }

    /// The next frame for the broker, with its size.
    pub fn take(&mut self) -> Option<Bytes>
        ensures frame { result ≡ first_frame (window_of self.old).unsent }
        ensures taken { window_of self.new ≡ with_taken (window_of self.old) }
    {
        let unsent = self.unsent.pop_front()?;
        if !unsent.silent {
            self.waiting += 1;
        }
        Some(unsent.frame)
    }

    /// The owner of the broker's next frame, by its correlation id. A refusal changes nothing.
    pub fn answer(&mut self, id: i32) -> Result<Owner, AnswerRefusal>
        ensures owner { result ≡ owner_of_frame id (due_owner (window_of self.old)) }
        ensures answered { window_of self.new ≡ with_answered (owner_of_frame id (due_owner (window_of self.old))) (window_of self.old) }
    {
        let Some(due) = self.due() else {
            return Err(AnswerRefusal::Unasked { found: id });
        };
        let expected = upstream_id(due.number);
        if id != expected {
            return Err(AnswerRefusal::Mismatch {
                expected,
                found: id,
            });
        }
        self.owners.pop_front();
        self.waiting -= 1;
        Ok(due.owner)
    }

    /// How many sends the broker was given that get a response and have none yet.
    pub fn waiting(&self) -> u64
        ensures { result ≡ (window_of self.now).waiting }
    {
        self.waiting
    }

    // The send that the broker's next frame answers.
    fn due(&self) -> Option<Numbered>
        ensures { result ≡ due_owner (window_of self.now) }
    {
        if self.waiting == 0 {
            return None;
        }
        self.owners.front().copied()
    }
}

// The correlation id of a send, by its number.
fn upstream_id(number: u64) -> i32
    ensures { result ≡ pos (upstream_id number) }
{
    (number % 0x8000_0000) as i32
}
