// How a request stands with all that came for it.
use crate::frames::sized;
use crate::plain::{Plain, Request};
use crate::samples::FrameKind;
use kp_edge::End;
use plain_chain::{Message, Outcome, Response, ResponseBody, course_of};
use std::alloc::{AllocError, Global};

#[derive(Clone, Copy)]
pub enum Status {
    Sends { message: Message, main: bool },
    Holds,
    Done(Option<Response>),
    // Done: the client is told the known versions.
    ToldVersions,
    Fails(End),
}

// ApiVersions of version 0: error 35, and ApiVersions is known in the versions 0 to 2.
const VERSIONS: &[u8] = b"\0\x23\0\0\0\x01\0\x12\0\0\0\x02";

impl Status {
    pub fn is_done(self) -> bool {
        match self {
            Status::Done(_) | Status::ToldVersions => true,
            _ => false,
        }
    }
}

impl Plain {
    // Of the request with this number.
    pub fn status(&self, number: usize) -> Result<Option<Status>, AllocError> {
        let Some(request) = self.requests.get(number) else {
            return Ok(None);
        };
        if let FrameKind::ToldVersions = request.sample.kind {
            return Ok(Some(Status::ToldVersions));
        }
        let (key, version) = (request.sample.key, request.sample.version);
        let own = Message::Own { key, version };
        let chain = self.chain.as_slice();
        let course = course_of(self.alloc, chain, own, request.came.as_slice())?;
        Ok(Some(match course.outcome {
            Outcome::Sends { message, main } => Status::Sends { message, main },
            Outcome::Holds { .. } => Status::Holds,
            Outcome::Done(response) => Status::Done(response),
            Outcome::Shut { filter, code } => Status::Fails(End::FilterShut {
                request: number as u64,
                filter,
                code,
            }),
            Outcome::AskBudget => Status::Fails(End::AskBudget {
                request: number as u64,
            }),
            Outcome::NeverEnds => Status::Fails(End::NoMemory),
        }))
    }
}

impl Request {
    // The whole frame for the client, of a request that gets one.
    pub fn response(&self, alloc: Global, status: Status) -> Result<Vec<u8>, AllocError> {
        match status {
            Status::ToldVersions => sized(alloc, &[&self.own_id, VERSIONS]),
            Status::Done(Some(response)) => match response.body {
                ResponseBody::Error(error) => sized(alloc, &[&self.own_id, &error.to_be_bytes()]),
                ResponseBody::Came(place) => match self.bodies.get(place) {
                    Some(body) => sized(alloc, &[&self.own_id, body.as_slice()]),
                    None => Ok(Vec::new(alloc)),
                },
            },
            _ => sized(alloc, &[&self.own_id]),
        }
    }
}
