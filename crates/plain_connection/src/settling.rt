// What requests do by themselves after an event: the least that can act does so, until none can.
use crate::plain::{ListedSend, Plain};
use crate::status::Status;
use kp_edge::End;
use plain_chain::{Came, Message};
use std::alloc::AllocError;

#[derive(Drop)]
enum Act {
    CutAt(usize, End),
    Lists(ListedSend),
}

impl Plain {
    pub fn settle(&mut self) -> Result<(), AllocError> {
        for _ in 0..10_000u32 {
            match self.next_act()? {
                None => return self.note_holds(),
                Some(Act::CutAt(request, why)) => self.cut_at(request, why),
                Some(Act::Lists(send)) => self.list(send)?,
            }
        }
        Err(AllocError)
    }

    fn next_act(&self) -> Result<Option<Act>, AllocError> {
        let mut free = true;
        for (number, request) in self.requests.iter().enumerate() {
            // what was passed is done, so it does nothing and holds nothing back
            if number < self.passed {
                continue;
            }
            if !self.is_below_cut(number) {
                return Ok(None);
            }
            let Some(status) = self.status(number)? else {
                return Ok(None);
            };
            match status {
                Status::Fails(why) => return Ok(Some(Act::CutAt(number, why))),
                Status::Sends { message, main } => {
                    let ask = request.came.len();
                    if !self.is_listed(number, ask) && (free || !main) {
                        let responds = !(message_is_own(message) && request.sample.is_silent());
                        return Ok(Some(Act::Lists(ListedSend {
                            request: number,
                            ask,
                            message,
                            main,
                            responds,
                        })));
                    }
                }
                Status::Holds | Status::Done(_) | Status::ToldVersions => {}
            }
            free = free && (status.is_done() || self.has_main_listed(number));
        }
        Ok(None)
    }

    // Which requests are held, for the counts.
    fn note_holds(&mut self) -> Result<(), AllocError> {
        for number in self.passed..self.requests.len() {
            if self.hold_of(number)?.is_some() {
                let holds_back = self.holds_back_one(number)?;
                if let Some(request) = self.requests.get_mut(number) {
                    request.was_held = true;
                    request.held_another_back = request.held_another_back || holds_back;
                }
            }
        }
        Ok(())
    }

    // Whether a request behind this one, which was never held, waits with its main send.
    fn holds_back_one(&self, held: usize) -> Result<bool, AllocError> {
        for (number, request) in self.requests.iter().enumerate() {
            if number > held && !request.was_held && self.is_below_cut(number) {
                match self.status(number)? {
                    Some(Status::Sends { main: true, .. }) => {
                        if !self.is_listed(number, request.came.len()) {
                            return Ok(true);
                        }
                    }
                    _ => {}
                }
            }
        }
        Ok(false)
    }

    // A send that gets no response counts as answered at once.
    fn list(&mut self, send: ListedSend) -> Result<(), AllocError> {
        if !send.responds {
            self.give(send.request, Came::NoResponse, Vec::new(self.alloc))?;
        }
        self.sends.push(send)?;
        Ok(())
    }

    pub fn give(&mut self, number: usize, came: Came, body: Vec<u8>) -> Result<(), AllocError> {
        if let Some(request) = self.requests.get_mut(number) {
            request.came.push(came)?;
            request.bodies.push(body)?;
        }
        Ok(())
    }

    fn is_listed(&self, request: usize, ask: usize) -> bool {
        self.sends
            .iter()
            .any(|send| send.request == request && send.ask == ask)
    }

    fn has_main_listed(&self, request: usize) -> bool {
        self.sends
            .iter()
            .any(|send| send.request == request && send.main)
    }
}

fn message_is_own(message: Message) -> bool {
    match message {
        Message::Own { .. } => true,
        _ => false,
    }
}
