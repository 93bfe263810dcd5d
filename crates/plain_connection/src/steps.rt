// What the plain connection answers to an event.
use crate::event::{Event, Reply};
use crate::frames::sized;
use crate::plain::{Plain, Request};
use crate::samples::{FrameKind, Sample};
use crate::status::Status;
use conn_core::{Fault, Look};
use kp_edge::End;
use plain_chain::{Came, Message};
use std::alloc::AllocError;

const MOST_HELD: usize = 209_715_200;

impl Plain {
    pub fn answer_to(&mut self, event: &Event) -> Result<Reply, AllocError> {
        match event {
            Event::Take(sample, own_id) => self.take(*sample, *own_id),
            Event::Answer { id, body, whole } => self.answer(*id, body.as_slice(), *whole),
            Event::Complete {
                request,
                index,
                verdict,
            } => self.complete(*request as usize, *index as usize, verdict.first().copied()),
            Event::ClientEnd(rest) => Ok(self.client_end(*rest)),
            Event::BrokerEnd(rest) => Ok(self.broker_end(*rest)),
            Event::Fails(fault) => self.fails(*fault),
            Event::Send => self.send(),
            Event::Emit => self.emit(),
            Event::Pick => self.pick(),
            Event::Look => Ok(self.look()),
        }
    }

    fn take(&mut self, sample: Sample, own_id: [u8; 4]) -> Result<Reply, AllocError> {
        if self.is_ending() {
            return Ok(Reply::Back);
        }
        let (count, held) = self.load();
        let has_room = held == 0 || held.saturating_add(sample.size()) <= MOST_HELD;
        if count >= self.in_flight || !has_room {
            return Ok(Reply::Full(small(count), held as u64));
        }
        let number = self.requests.len();
        match no_request(sample, number as u64) {
            Some(why) => self.cut_at(number, why),
            None => {
                let came = Vec::new(self.alloc);
                let bodies = Vec::new(self.alloc);
                self.requests.push(Request {
                    sample,
                    own_id,
                    came,
                    bodies,
                    was_held: false,
                    held_another_back: false,
                })?;
                self.settle()?;
            }
        }
        Ok(Reply::Fine)
    }

    fn answer(&mut self, id: u32, body: &[u8], whole: bool) -> Result<Reply, AllocError> {
        if self.is_dead() {
            return Ok(Reply::Back);
        }
        let found = signed(id);
        let Some(number) = self.due() else {
            self.die(End::Unasked { found });
            return Ok(Reply::Fine);
        };
        let expected = signed(upstream_id(number));
        if expected != found {
            self.die(End::Mismatch { expected, found });
            return Ok(Reply::Fine);
        }
        self.answered = self.answered.saturating_add(1);
        let Some(send) = self.sends.get(number) else {
            return Ok(Reply::Fine);
        };
        let request = send.request;
        let (key, version) = send.message.api();
        if !self.is_below_cut(request) {
            return Ok(Reply::Fine);
        }
        if whole {
            let body = Vec::from_slice(self.alloc, body)?;
            self.give(request, Came::Answer { key, version }, body)?;
        } else {
            self.cut_at(
                request,
                End::BrokerBadBody {
                    request: request as u64,
                    key,
                    version,
                },
            );
        }
        self.settle()?;
        Ok(Reply::Fine)
    }

    // Of the verdict only the first byte is looked at, if it has one.
    fn complete(
        &mut self,
        request: usize,
        index: usize,
        said: Option<u8>,
    ) -> Result<Reply, AllocError> {
        if self.is_still() || self.hold_of(request)? != Some(index) {
            return Ok(Reply::Back);
        }
        self.give(request, Came::Verdict(said), Vec::new(self.alloc))?;
        self.settle()?;
        Ok(Reply::Fine)
    }

    // The number of the ask, where this request is below the cut and waits for a hold.
    pub fn hold_of(&self, number: usize) -> Result<Option<usize>, AllocError> {
        let Some(request) = self.requests.get(number) else {
            return Ok(None);
        };
        Ok(match self.status(number)? {
            Some(Status::Holds) if self.is_below_cut(number) => Some(request.came.len()),
            _ => None,
        })
    }

    fn client_end(&mut self, rest: u64) -> Reply {
        if self.over.is_none() && self.death.is_none() {
            let why = match rest {
                0 => End::Ended,
                _ => End::ClientTorn { rest },
            };
            let behind_last = self.requests.len();
            self.cut_at(behind_last, why);
        }
        Reply::Fine
    }

    fn broker_end(&mut self, rest: u64) -> Reply {
        if self.over.is_none() {
            let why = match rest {
                0 => End::BrokerEnd {
                    waiting: self.waiting(),
                },
                _ => End::BrokerTorn { rest },
            };
            self.die(why);
        }
        Reply::Fine
    }

    fn fails(&mut self, fault: Fault) -> Result<Reply, AllocError> {
        if self.over.is_some() {
            return Ok(Reply::Fine);
        }
        let behind_last = self.requests.len();
        match fault {
            Fault::ClientRead => self.cut_at(behind_last, End::ClientReadFault),
            Fault::ClientBadSize { at, size } => {
                self.cut_at(behind_last, End::BadSize { at, size });
            }
            Fault::Authority { request } => {
                if self.hold_of(request as usize)?.is_some() {
                    self.cut_at(request as usize, End::AuthorityFault { request });
                }
            }
            Fault::BrokerRead => self.die(End::BrokerReadFault),
            Fault::BrokerWrite => self.die(End::BrokerWriteFault),
            Fault::BrokerBadSize { at, size } => self.die(End::BrokerBadSize { at, size }),
            Fault::ClientWrite => self.halt(End::ClientWriteFault),
            Fault::Thread => self.halt(End::ThreadRefused),
            Fault::NoMemory => self.halt(End::NoMemory),
        }
        Ok(Reply::Fine)
    }

    fn send(&mut self) -> Result<Reply, AllocError> {
        if self.death.is_some() || self.halt.is_some() {
            return Ok(Reply::Nothing);
        }
        let Some(send) = self.sends.get(self.taken) else {
            return Ok(Reply::Nothing);
        };
        let Some(request) = self.requests.get(send.request) else {
            return Ok(Reply::Nothing);
        };
        let (key, version) = send.message.api();
        let body = match send.message {
            Message::Own { .. } => request.sample.body,
            Message::Heartbeat => b"\0\x01g\0\0\0\x01\0\x01m",
            Message::Metadata => b"\xff\xff\xff\xff\0",
        };
        let frame = sized(
            self.alloc,
            &[
                &key.to_be_bytes(),
                &version.to_be_bytes(),
                &upstream_id(self.taken).to_be_bytes(),
                request.sample.client_id,
                body,
            ],
        )?;
        self.taken = self.taken.saturating_add(1);
        Ok(Reply::Bytes(frame))
    }

    fn pick(&mut self) -> Result<Reply, AllocError> {
        if self.is_still() {
            return Ok(Reply::Nothing);
        }
        for number in self.passed..self.requests.len() {
            if let Some(index) = self.hold_of(number)? {
                if !self.picked.iter().any(|hold| *hold == (number, index)) {
                    self.picked.push((number, index))?;
                    return Ok(Reply::Ticket(number as u64, small(index)));
                }
            }
        }
        Ok(Reply::Nothing)
    }

    fn look(&self) -> Reply {
        let (count, held) = self.load();
        Reply::Looks(Look {
            over: self.over.is_some(),
            dead: self.death.is_some() || self.halt.is_some(),
            in_flight: small(count),
            held: held as u64,
        })
    }

    fn emit(&mut self) -> Result<Reply, AllocError> {
        if let Some(why) = self.over {
            return Ok(Reply::Over(why));
        }
        if let Some(why) = self.halt {
            return Ok(self.tell(why));
        }
        self.pass_silent()?;
        match self.cut {
            Some((cut, why)) if cut == self.passed => return Ok(self.tell(why)),
            _ => {}
        }
        let status = self.status(self.passed)?;
        if let (Some(status), Some(request)) = (status, self.requests.get(self.passed)) {
            if status.is_done() {
                let response = request.response(self.alloc, status)?;
                self.passed = self.passed.saturating_add(1);
                return Ok(Reply::Bytes(response));
            }
        }
        Ok(match self.death {
            Some(why) => self.tell(why),
            None => Reply::Later,
        })
    }

    fn tell(&mut self, why: End) -> Reply {
        self.over = Some(why);
        Reply::Over(why)
    }

    // Silent requests that are done and below the cut are passed.
    fn pass_silent(&mut self) -> Result<(), AllocError> {
        for number in self.passed..self.requests.len() {
            let is_silent = match self.requests.get(number) {
                Some(request) => request.sample.is_silent(),
                None => false,
            };
            let is_done = match self.status(number)? {
                Some(status) => status.is_done(),
                None => false,
            };
            if !(is_silent && is_done && self.is_below_cut(number)) {
                break;
            }
            self.passed = number.saturating_add(1);
        }
        Ok(())
    }
}

pub fn upstream_id(number: usize) -> u32 {
    small(number % 2_147_483_648)
}

fn small(count: usize) -> u32 {
    u32::try_from(count).unwrap_or(u32::MAX)
}

fn signed(id: u32) -> i32 {
    i32::from_be_bytes(id.to_be_bytes())
}

fn no_request(sample: Sample, request: u64) -> Option<End> {
    let (key, version) = (sample.key, sample.version);
    match sample.kind {
        FrameKind::Request { .. } | FrameKind::ToldVersions => None,
        FrameKind::Unsupported => Some(End::UnsupportedApi {
            request,
            key,
            version,
        }),
        FrameKind::BadHead => Some(End::BadHead { request }),
        FrameKind::BadBody { at } => Some(End::BadBody {
            request,
            key,
            version,
            at,
        }),
    }
}
