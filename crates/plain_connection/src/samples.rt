// Client frames, and what each of them is.

// What a frame is to the proxy.
#[derive(Clone, Copy)]
pub enum FrameKind {
    // A request for the chain. A silent one gets no response.
    Request { silent: bool },
    // The client is told at once which versions are known.
    ToldVersions,
    // No request, and why not.
    Unsupported,
    BadHead,
    BadBody { at: u64 },
}

// A frame without its correlation id.
#[derive(Clone, Copy)]
pub struct Sample {
    pub key: i16,
    pub version: i16,
    // as it is spelled, a STRING
    pub client_id: &'static [u8],
    pub body: &'static [u8],
    pub kind: FrameKind,
}

const NO_ID: &[u8] = b"\xff\xff";

const REQUEST: FrameKind = FrameKind::Request { silent: false };

// Heartbeat, Metadata, ListGroups, Produce with acks 0 and 1, by the protocol guide; then ApiVersions in a version that
// isn't known.
pub const REQUESTS: [Sample; 7] = [
    Sample {
        key: 12,
        version: 0,
        client_id: NO_ID,
        body: b"\0\x01g\0\0\0\x01\0\x01m",
        kind: REQUEST,
    },
    Sample {
        key: 12,
        version: 0,
        client_id: b"\0\x01c",
        body: b"\0\x02hh\0\0\0\x02\0\x01n",
        kind: REQUEST,
    },
    Sample {
        key: 3,
        version: 4,
        client_id: NO_ID,
        body: b"\xff\xff\xff\xff\0",
        kind: REQUEST,
    },
    Sample {
        key: 16,
        version: 0,
        client_id: b"\0\0",
        body: b"",
        kind: REQUEST,
    },
    Sample {
        key: 0,
        version: 3,
        client_id: NO_ID,
        body: b"\xff\xff\0\0\0\0\0\x01\0\0\0\0",
        kind: FrameKind::Request { silent: true },
    },
    Sample {
        key: 0,
        version: 3,
        client_id: NO_ID,
        body: b"\xff\xff\0\x01\0\0\0\x01\0\0\0\0",
        kind: REQUEST,
    },
    Sample {
        key: 18,
        version: 3,
        client_id: b"\0\x01c",
        body: b"\0\x03kc\x021\0",
        kind: FrameKind::ToldVersions,
    },
];

// An API that isn't in the table, a client id that is cut short, a Heartbeat that is cut short, and one with a byte too
// many.
pub const NO_REQUESTS: [Sample; 4] = [
    Sample {
        key: 99,
        version: 0,
        client_id: NO_ID,
        body: b"",
        kind: FrameKind::Unsupported,
    },
    Sample {
        key: 12,
        version: 0,
        client_id: b"\0\x05c",
        body: b"",
        kind: FrameKind::BadHead,
    },
    Sample {
        key: 12,
        version: 0,
        client_id: NO_ID,
        body: b"\0\x01g\0\0\0\x01",
        kind: FrameKind::BadBody { at: 7 },
    },
    Sample {
        key: 12,
        version: 0,
        client_id: NO_ID,
        body: b"\0\x01g\0\0\0\x01\0\x01mm",
        kind: FrameKind::BadBody { at: 10 },
    },
];

impl Sample {
    // Of its frame, with the correlation id.
    pub fn size(&self) -> usize {
        self.client_id
            .len()
            .saturating_add(self.body.len())
            .saturating_add(8)
    }

    pub fn is_silent(&self) -> bool {
        match self.kind {
            FrameKind::Request { silent } => silent,
            _ => false,
        }
    }
}
