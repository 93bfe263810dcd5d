const HEARTBEAT: (i16, i16) = (12, 0);

const METADATA: (i16, i16) = (3, 4);

/// A message for the broker, as far as probes tell one from another.
#[derive(Clone, Copy, Debug, PartialEq, Eq)]
pub enum Message {
    /// The client's own, of this key and version.
    Own { key: i16, version: i16 },
    /// The Heartbeat of version 0 that probes ask aside.
    Heartbeat,
    /// The Metadata request of version 4 that probes ask aside.
    Metadata,
}

impl Message {
    /// The API key and version.
    pub fn api(self) -> (i16, i16) {
        match self {
            Message::Own { key, version } => (key, version),
            Message::Heartbeat => HEARTBEAT,
            Message::Metadata => METADATA,
        }
    }

    pub(crate) fn is_heartbeat(self) -> bool {
        self.api() == HEARTBEAT
    }

    pub(crate) fn is_metadata(self) -> bool {
        self.api() == METADATA
    }
}

/// What came for a request from outside.
#[derive(Clone, Copy, Debug, PartialEq, Eq)]
pub enum Came {
    /// A response of this key and version.
    Answer { key: i16, version: i16 },
    /// The message gets no response, as a Produce with acks 0.
    NoResponse,
    /// The verdict on a hold: its first byte, if it has one.
    Verdict(Option<u8>),
}

/// A response on its way to the client.
#[derive(Clone, Copy, Debug, PartialEq, Eq)]
pub struct Response {
    pub key: i16,
    pub version: i16,
    pub body: ResponseBody,
}

impl Response {
    pub(crate) fn is_heartbeat(self) -> bool {
        (self.key, self.version) == HEARTBEAT
    }

    /// A Heartbeat's, which a probe made.
    pub(crate) fn with_error(error: i16) -> Response {
        Response {
            key: 12,
            version: 0,
            body: ResponseBody::Error(error),
        }
    }
}

/// Where a response's body is from.
#[derive(Clone, Copy, Debug, PartialEq, Eq)]
pub enum ResponseBody {
    /// It came: its place among all that came for the request.
    Came(usize),
    /// A probe made it: a Heartbeat's error.
    Error(i16),
}
