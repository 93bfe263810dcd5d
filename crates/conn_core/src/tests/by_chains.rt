// Requests under chains of filters. The filters are those of `filter_probes`.
use super::Filters::{Asks, Turns};
use super::*;

pub(crate) type Script = (&'static str, &'static [Filters], &'static [(Line, Want)]);

// Metadata, version 4, for all topics: as a client asks it, as a filter asks it aside, and an answer to it
const M7: &[u8] = b"\0\x03\0\x04\0\0\0\x07\xff\xff\xff\xff\xff\xff\0";

const M0_SIZED: &[u8] = b"\0\0\0\x0f\0\x03\0\x04\0\0\0\0\xff\xff\xff\xff\xff\xff\0";

const M1_SIZED: &[u8] = b"\0\0\0\x0f\0\x03\0\x04\0\0\0\x01\xff\xff\xff\xff\xff\xff\0";

const ANSWER_M0: &[u8] = b"\0\0\0\0\0\0\0\0\0\0\0\0\xff\xff\0\0\0\0\0\0\0\0";

const ANSWER_M1: &[u8] = b"\0\0\0\x01\0\0\0\0\0\0\0\0\xff\xff\0\0\0\0\0\0\0\0";

// Heartbeats as they are sent with the numbers 2 and 3
const H2_SIZED: &[u8] = b"\0\0\0\x14\0\x0c\0\0\0\0\0\x02\xff\xff\0\x01g\0\0\0\x01\0\x01m";

const H3_SIZED: &[u8] = b"\0\0\0\x14\0\x0c\0\0\0\0\0\x03\xff\xff\0\x01g\0\0\0\x01\0\x01m";

// ListGroups, version 0, as a client asks it, as it is sent first, an answer, and the response
const L7: &[u8] = b"\0\x10\0\0\0\0\0\x07\xff\xff";

const L0_SIZED: &[u8] = b"\0\0\0\x0a\0\x10\0\0\0\0\0\0\xff\xff";

const ANSWER_L0: &[u8] = b"\0\0\0\0\0\0\0\0\0\0";

const L7_ANSWERED: &[u8] = b"\0\0\0\x0a\0\0\0\x07\0\0\0\0\0\0";

pub(crate) const CHANGED: &[Script] = &[
    (
        "a response is changed",
        &[Turns(0)],
        &[
            (Line::Client(H7), Told::Fine),
            (Line::Send, Told::Bytes(H0_SIZED)),
            (Line::Broker(A0), Told::Fine),
            (Line::Emit, Told::Bytes(b"\0\0\0\x06\0\0\0\x07\0\x4d")),
        ],
    ),
    (
        "answered at once",
        &[Turns(1)],
        &[
            (Line::Client(H7), Told::Fine),
            (Line::Send, Told::Nothing),
            (Line::Emit, Told::Bytes(b"\0\0\0\x06\0\0\0\x07\0\x37")),
            (Line::Emit, Told::Later),
        ],
    ),
    (
        "what is answered at once passes the filters nearer the client",
        &[Turns(0), Turns(1)],
        &[
            (Line::Client(H7), Told::Fine),
            (Line::Send, Told::Nothing),
            (Line::Emit, Told::Bytes(b"\0\0\0\x06\0\0\0\x07\0\x4d")),
        ],
    ),
    (
        "a response that is there waits for its turn",
        &[Turns(1)],
        &[
            (Line::Client(L7), Told::Fine),
            (Line::Client(H8), Told::Fine),
            (Line::Send, Told::Bytes(L0_SIZED)),
            (Line::Send, Told::Nothing),
            (Line::Emit, Told::Later),
            (Line::Broker(ANSWER_L0), Told::Fine),
            (Line::Emit, Told::Bytes(L7_ANSWERED)),
            (Line::Emit, Told::Bytes(b"\0\0\0\x06\0\0\0\x08\0\x37")),
        ],
    ),
];

pub(crate) const SHUT: &[Script] = &[
    (
        "at once",
        &[Turns(2)],
        &[
            (Line::Client(H7), Told::Fine),
            (Line::Client(H8), Told::Back(H8)),
            (Line::Send, Told::Nothing),
            (
                Line::Emit,
                Told::Over(End::FilterShut {
                    request: 0,
                    filter: 0,
                    code: 7,
                }),
            ),
            (
                Line::Emit,
                Told::Over(End::FilterShut {
                    request: 0,
                    filter: 0,
                    code: 7,
                }),
            ),
        ],
    ),
    (
        "behind a request that is still answered",
        &[Turns(3)],
        &[
            (Line::Client(H7), Told::Fine),
            (Line::Client(M7), Told::Fine),
            (Line::Client(H8), Told::Back(H8)),
            (Line::Send, Told::Bytes(H0_SIZED)),
            (Line::Send, Told::Nothing),
            (Line::Emit, Told::Later),
            (Line::Broker(A0), Told::Fine),
            (Line::Emit, Told::Bytes(A7_SIZED)),
            (
                Line::Emit,
                Told::Over(End::FilterShut {
                    request: 1,
                    filter: 0,
                    code: 3,
                }),
            ),
        ],
    ),
    (
        "after a message that was asked aside",
        &[Asks(1, 1), Turns(2)],
        &[
            (Line::Client(H7), Told::Fine),
            (Line::Send, Told::Nothing),
            (
                Line::Emit,
                Told::Over(End::FilterShut {
                    request: 0,
                    filter: 1,
                    code: 7,
                }),
            ),
        ],
    ),
    (
        "a message that is asked aside passes the filters nearer the broker",
        &[Asks(1, 1), Turns(3)],
        &[
            (Line::Client(H7), Told::Fine),
            (Line::Send, Told::Nothing),
            (
                Line::Emit,
                Told::Over(End::FilterShut {
                    request: 0,
                    filter: 1,
                    code: 3,
                }),
            ),
        ],
    ),
    (
        "and not those nearer the client",
        &[Turns(3), Asks(1, 1)],
        &[
            (Line::Client(H7), Told::Fine),
            (Line::Send, Told::Bytes(M0_SIZED)),
            (Line::Broker(ANSWER_M0), Told::Fine),
            (Line::Send, Told::Bytes(H1_SIZED)),
        ],
    ),
];

pub(crate) const ASKED_ASIDE: &[Script] = &[
    (
        "once, and then the request itself",
        &[Asks(0, 1)],
        &[
            (Line::Client(H7), Told::Fine),
            (Line::Send, Told::Bytes(H0_SIZED)),
            (Line::Send, Told::Nothing),
            (Line::Emit, Told::Later),
            (Line::Broker(A0), Told::Fine),
            (Line::Send, Told::Bytes(H1_SIZED)),
            (Line::Emit, Told::Later),
            (Line::Broker(b"\0\0\0\x01\0\x10"), Told::Fine),
            (Line::Emit, Told::Bytes(b"\0\0\0\x06\0\0\0\x07\0\x10")),
        ],
    ),
    (
        "twice, by two filters",
        &[Asks(1, 1), Asks(0, 1)],
        &[
            (Line::Client(H7), Told::Fine),
            // the second filter asks before it forwards what the first asks aside
            (Line::Send, Told::Bytes(H0_SIZED)),
            (Line::Broker(A0), Told::Fine),
            (Line::Send, Told::Bytes(M1_SIZED)),
            (Line::Broker(ANSWER_M1), Told::Fine),
            (Line::Send, Told::Bytes(H2_SIZED)),
            (Line::Broker(b"\0\0\0\x02\0\0"), Told::Fine),
            (Line::Send, Told::Bytes(H3_SIZED)),
            (Line::Broker(b"\0\0\0\x03\0\x10"), Told::Fine),
            (Line::Emit, Told::Bytes(b"\0\0\0\x06\0\0\0\x07\0\x10")),
        ],
    ),
    (
        "a message asked aside goes before the main one of an earlier request",
        &[Asks(0, 1)],
        &[
            (Line::Client(H7), Told::Fine),
            (Line::Client(H8), Told::Fine),
            (Line::Send, Told::Bytes(H0_SIZED)),
            (Line::Send, Told::Bytes(H1_SIZED)),
            (Line::Send, Told::Nothing),
            (Line::Broker(A0), Told::Fine),
            (Line::Broker(A1), Told::Fine),
            (Line::Send, Told::Bytes(H2_SIZED)),
            (Line::Send, Told::Bytes(H3_SIZED)),
            (Line::Broker(b"\0\0\0\x02\0\x10"), Told::Fine),
            (Line::Broker(b"\0\0\0\x03\0\x20"), Told::Fine),
            (Line::Emit, Told::Bytes(b"\0\0\0\x06\0\0\0\x07\0\x10")),
            (Line::Emit, Told::Bytes(b"\0\0\0\x06\0\0\0\x08\0\x20")),
        ],
    ),
    (
        "an answer that can't be read, with a request before and one behind",
        &[Asks(1, 1)],
        &[
            (Line::Client(H7), Told::Fine),
            (Line::Client(H8), Told::Fine),
            (Line::Client(H7), Told::Fine),
            (Line::Send, Told::Bytes(M0_SIZED)),
            (Line::Send, Told::Bytes(M1_SIZED)),
            (Line::Broker(ANSWER_M0), Told::Fine),
            (Line::Broker(b"\0\0\0\x01\0"), Told::Fine),
            (
                Line::Send,
                Told::Bytes(b"\0\0\0\x0f\0\x03\0\x04\0\0\0\x02\xff\xff\xff\xff\xff\xff\0"),
            ),
            (Line::Send, Told::Bytes(H3_SIZED)),
            (Line::Send, Told::Nothing),
            // what comes for the request behind the cut isn't read
            (Line::Broker(b"\0\0\0\x02!"), Told::Fine),
            (Line::Broker(b"\0\0\0\x03\0\x10"), Told::Fine),
            (Line::Emit, Told::Bytes(b"\0\0\0\x06\0\0\0\x07\0\x10")),
            (
                Line::Emit,
                Told::Over(End::BrokerBadBody {
                    request: 1,
                    key: 3,
                    version: 4,
                }),
            ),
        ],
    ),
];
