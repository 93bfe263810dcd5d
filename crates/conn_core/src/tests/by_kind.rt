// One exchange for each thing that a frame may mean: requests and what is none, answers that can't be read, silent requests, a
// hold, and how many bytes are held.
use super::Filters::Asks;
use super::by_chains::Script;
use super::*;

// Produce, version 3, without a topic: acks 0, and the same as it is sent with the numbers 0 and 1
const P7: &[u8] = b"\0\0\0\x03\0\0\0\x07\xff\xff\xff\xff\0\0\0\0\0\x01\0\0\0\0";

const P0_SIZED: &[u8] = b"\0\0\0\x16\0\0\0\x03\0\0\0\0\xff\xff\xff\xff\0\0\0\0\0\x01\0\0\0\0";

const P1_SIZED: &[u8] = b"\0\0\0\x16\0\0\0\x03\0\0\0\x01\xff\xff\xff\xff\0\0\0\0\0\x01\0\0\0\0";

// a Heartbeat that is sent with the number 2
const H2_SIZED: &[u8] = b"\0\0\0\x14\0\x0c\0\0\0\0\0\x02\xff\xff\0\x01g\0\0\0\x01\0\x01m";

// How a connection looks.
const FOUR: Want = Told::Looks(Look {
    over: false,
    dead: false,
    in_flight: 4,
    held: 32810,
});

const EMPTY: Want = Told::Looks(Look {
    over: false,
    dead: false,
    in_flight: 0,
    held: 0,
});

const TWO: Want = Told::Looks(Look {
    over: false,
    dead: false,
    in_flight: 2,
    held: 38,
});

const ONE: Want = Told::Looks(Look {
    over: false,
    dead: false,
    in_flight: 1,
    held: 18,
});

pub(crate) const KINDS: &[Script] = &[
    (
        "one exchange",
        &[],
        &[
            (Line::Client(H7), Told::Fine),
            (Line::Send, Told::Bytes(H0_SIZED)),
            (Line::Send, Told::Nothing),
            (Line::Emit, Told::Later),
            (Line::Broker(A0), Told::Fine),
            (Line::Emit, Told::Bytes(A7_SIZED)),
            (Line::ClientEnd(0), Told::Fine),
            (Line::Emit, Told::Over(End::Ended)),
            (Line::Emit, Told::Over(End::Ended)),
            (Line::Send, Told::Nothing),
            (Line::Client(H8), Told::Back(H8)),
            (Line::Broker(A1), Told::Back(A1)),
        ],
    ),
    (
        "told the known versions, in its turn",
        &[],
        &[
            (Line::Client(H7), Told::Fine),
            (Line::Client(V1), Told::Fine),
            (Line::Emit, Told::Later),
            (Line::Send, Told::Bytes(H0_SIZED)),
            (Line::Send, Told::Nothing),
            (Line::Broker(A0), Told::Fine),
            (Line::Emit, Told::Bytes(A7_SIZED)),
            (Line::Emit, Told::Bytes(V1_TOLD)),
        ],
    ),
    (
        "unsupported: the version is looked at before the client id",
        &[],
        &[
            (Line::Client(b"\0\x0c\0\x04\0\0\0\x07"), Told::Fine),
            (Line::Client(H8), Told::Back(H8)),
            (Line::Send, Told::Nothing),
            (
                Line::Emit,
                Told::Over(End::UnsupportedApi {
                    request: 0,
                    key: 12,
                    version: 4,
                }),
            ),
        ],
    ),
    (
        "no client id: the longest, a byte short",
        &[],
        &[
            (Line::ClientId(32767, 32766), Told::Fine),
            (Line::Emit, Told::Over(End::BadHead { request: 0 })),
        ],
    ),
    (
        "client ids that are spelled",
        &[],
        &[
            (Line::ClientId(-1, 0), Told::Fine),
            (Line::ClientId(0, 0), Told::Fine),
            (Line::ClientId(3, 3), Told::Fine),
            (Line::ClientId(32767, 32767), Told::Fine),
            (Line::Emit, Told::Later),
            (Line::Look, FOUR),
        ],
    ),
    (
        "a body that is no spelling: the place counts from the body",
        &[],
        &[
            (
                Line::Client(b"\0\x0c\0\0\0\0\0\x07\0\x03abc\0\x01g\0\0\0\x01\0\x02m"),
                Told::Fine,
            ),
            (
                Line::Emit,
                Told::Over(End::BadBody {
                    request: 0,
                    key: 12,
                    version: 0,
                    at: 7,
                }),
            ),
        ],
    ),
    (
        "an array with an entry too many",
        &[],
        &[
            (
                Line::Client(b"\0\x03\0\x01\0\0\0\x07\xff\xff\0\x80\0\x01"),
                Told::Fine,
            ),
            (
                Line::Emit,
                Told::Over(End::TooManyEntries { request: 0, at: 0 }),
            ),
        ],
    ),
    (
        "an answer that is no spelling, and one behind it that is dropped unread",
        &[],
        &[
            (Line::Client(H7), Told::Fine),
            (Line::Client(H8), Told::Fine),
            (Line::Send, Told::Bytes(H0_SIZED)),
            (Line::Send, Told::Bytes(H1_SIZED)),
            (Line::Broker(b"\0\0\0\0\0"), Told::Fine),
            (Line::Broker(b"\0\0\0\x01"), Told::Fine),
            (
                Line::Emit,
                Told::Over(End::BrokerBadBody {
                    request: 0,
                    key: 12,
                    version: 0,
                }),
            ),
        ],
    ),
    (
        "two silent requests before a Heartbeat",
        &[],
        &[
            (Line::Client(P7), Told::Fine),
            (Line::Client(P7), Told::Fine),
            (Line::Client(H7), Told::Fine),
            (Line::Send, Told::Bytes(P0_SIZED)),
            (Line::Send, Told::Bytes(P1_SIZED)),
            (Line::Send, Told::Bytes(H2_SIZED)),
            (Line::Emit, Told::Later),
            // the broker's first response is that to the Heartbeat
            (Line::Broker(b"\0\0\0\x02\0\0"), Told::Fine),
            (Line::Emit, Told::Bytes(A7_SIZED)),
        ],
    ),
    (
        "acks 0 behind a transactional id",
        &[],
        &[
            (
                Line::Client(b"\0\0\0\x03\0\0\0\x07\xff\xff\0\x02\0\x01\0\0\0\0\0\x01\0\0\0\0"),
                Told::Fine,
            ),
            (
                Line::Send,
                Told::Bytes(
                    b"\0\0\0\x18\0\0\0\x03\0\0\0\0\xff\xff\0\x02\0\x01\0\0\0\0\0\x01\0\0\0\0",
                ),
            ),
            (Line::ClientEnd(0), Told::Fine),
            (Line::Emit, Told::Over(End::Ended)),
        ],
    ),
    (
        "held twice, with the number of the ask",
        &[Asks(2, 2)],
        &[
            (Line::Client(H7), Told::Fine),
            (Line::Pick, Told::Ticket(0, 0, b"k")),
            (Line::Verdict(0, 1, b"too soon"), Told::Back(b"too soon")),
            (Line::Verdict(1, 0, b"no such"), Told::Back(b"no such")),
            (Line::Verdict(0, 0, b"yes"), Told::Fine),
            (Line::Send, Told::Nothing),
            (Line::Verdict(0, 0, b"again"), Told::Back(b"again")),
            (Line::Pick, Told::Ticket(0, 1, b"k")),
            (Line::Verdict(0, 1, b"yes"), Told::Fine),
            (Line::Send, Told::Bytes(H0_SIZED)),
        ],
    ),
    (
        "requests come and go",
        &[],
        &[
            (Line::Look, EMPTY),
            (Line::Client(H7), Told::Fine),
            (Line::Client(V1), Told::Fine),
            (Line::Look, TWO),
            (Line::Send, Told::Bytes(H0_SIZED)),
            (Line::Broker(A0), Told::Fine),
            (Line::Look, TWO),
            (Line::Emit, Told::Bytes(A7_SIZED)),
            (Line::Look, ONE),
            (Line::Emit, Told::Bytes(V1_TOLD)),
            (Line::Look, EMPTY),
        ],
    ),
];

pub(crate) const AT_ONE: &[Script] = &[(
    "room again behind the response",
    &[],
    &[
        (Line::Client(H7), Told::Fine),
        (Line::Client(H8), Told::Full(1, 20, H8)),
        (Line::Send, Told::Bytes(H0_SIZED)),
        (Line::Broker(A0), Told::Fine),
        (Line::Client(H8), Told::Full(1, 20, H8)),
        (Line::Emit, Told::Bytes(A7_SIZED)),
        (Line::Client(H8), Told::Fine),
        (Line::Send, Told::Bytes(H1_SIZED)),
        (Line::Broker(A1), Told::Fine),
        (Line::Emit, Told::Bytes(A8_SIZED)),
    ],
)];
