use crate::message::{Message, Response};

/// What a probe does.
#[derive(Clone, Copy, Debug, PartialEq, Eq)]
pub enum ProbeKind {
    /// It asks a Heartbeat aside so often, three times at most, and then forwards the request.
    AsksHeartbeat(u8),
    /// The same with Metadata.
    AsksMetadata(u8),
    /// It holds so often, three times at most, and then forwards the request.
    Holds(u8),
    /// It changes what comes back for a Heartbeat of version 0 to error 77.
    Changes,
    /// It answers a Heartbeat of version 0 at once with error 55.
    Answers,
    /// It shuts with code 7.
    Shuts,
    /// It shuts at Metadata of version 4 with code 3.
    ShutsMetadata,
    /// It holds a Heartbeat of version 0. The first byte of the verdict is the error with which it answers. Without one it
    /// forwards the request.
    Heeds,
}

/// What a probe is given after its move.
#[derive(Clone, Copy, Debug, PartialEq, Eq)]
pub(crate) enum Given {
    /// What came back for its message: a response, or that there is none.
    Back(Option<Response>),
    /// The verdict on its hold: its first byte, if it has one.
    Verdict(Option<u8>),
}

impl Given {
    // A verdict is no response.
    fn response(self) -> Option<Response> {
        match self {
            Given::Back(response) => response,
            Given::Verdict(_) => None,
        }
    }

    // What came in place of a verdict says nothing.
    fn said(self) -> Option<u8> {
        match self {
            Given::Back(_) => None,
            Given::Verdict(said) => said,
        }
    }
}

/// What a probe decides.
#[derive(Clone, Copy, Debug, PartialEq, Eq)]
pub(crate) enum Decision {
    Forward(Message),
    Side(Message),
    Hold,
    Return(Option<Response>),
    Shut(u16),
}

impl ProbeKind {
    /// What it decides on a request, with all that it was given since.
    pub(crate) fn decides(self, request: Message, given: &[Given]) -> Decision {
        match self {
            ProbeKind::AsksHeartbeat(times) => {
                asking(times, Decision::Side(Message::Heartbeat), request, given)
            }
            ProbeKind::AsksMetadata(times) => {
                asking(times, Decision::Side(Message::Metadata), request, given)
            }
            ProbeKind::Holds(times) => asking(times, Decision::Hold, request, given),
            ProbeKind::Changes => match given {
                [] => Decision::Forward(request),
                [came, ..] => Decision::Return(came.response().map(changed)),
            },
            ProbeKind::Answers if request.is_heartbeat() => {
                Decision::Return(Some(Response::with_error(55)))
            }
            ProbeKind::Shuts => Decision::Shut(7),
            ProbeKind::ShutsMetadata if request.is_metadata() => Decision::Shut(3),
            ProbeKind::Heeds if request.is_heartbeat() => heeding(request, given),
            ProbeKind::Answers | ProbeKind::ShutsMetadata | ProbeKind::Heeds => {
                passing(request, given)
            }
        }
    }
}

// It forwards the request, and returns what comes back.
fn passing(request: Message, given: &[Given]) -> Decision {
    match given {
        [] => Decision::Forward(request),
        [came, ..] => Decision::Return(came.response()),
    }
}

// It holds, answers with the first byte of the verdict, and passes the request where there is none.
fn heeding(request: Message, given: &[Given]) -> Decision {
    let Some((verdict, behind)) = given.split_first() else {
        return Decision::Hold;
    };
    match verdict.said() {
        Some(byte) => Decision::Return(Some(Response::with_error(i16::from(byte)))),
        None => passing(request, behind),
    }
}

// It asks so often, forwards the request, and returns what comes back.
fn asking(times: u8, question: Decision, request: Message, given: &[Given]) -> Decision {
    let times = usize::from(times);
    if given.len() < times {
        return question;
    }
    match given.get(times) {
        None => Decision::Forward(request),
        Some(came) => Decision::Return(came.response()),
    }
}

fn changed(came: Response) -> Response {
    if came.is_heartbeat() {
        Response::with_error(77)
    } else {
        came
    }
}
