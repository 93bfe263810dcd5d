// One exchange for each rule of docs/CONNECTION.md, and for what the histories of `plain_connection` don't reach: asks behind
// the main send, a request that fails behind its answer, and sixty-four in flight.
use super::*;

// Frames of a client, and an answer of the broker.
const P: &[u8] = b"m...\0\0\0\x07p";

const Q: &[u8] = b"m...\0\0\0\x08q";

const R: &[u8] = b"m...\0\0\0\x09r";

const X: &[u8] = b"x...\0\0\0\x09r";

const Y: &[u8] = b"\0\0\0\x01y";

const UNREADABLE: End = End::BrokerBadBody {
    request: 1,
    key: 7,
    version: 2,
};

const NOT_DUE: End = End::Mismatch {
    expected: 1,
    found: 0,
};

// How a connection looks.
const OVER_DEAD_0: Want = Told::Looks(Look {
    over: true,
    dead: true,
    in_flight: 0,
    held: 0,
});

const EMPTY: Want = Told::Looks(Look {
    over: false,
    dead: false,
    in_flight: 0,
    held: 0,
});

const TWO: Want = Told::Looks(Look {
    over: false,
    dead: false,
    in_flight: 2,
    held: 18,
});

const ONE: Want = Told::Looks(Look {
    over: false,
    dead: false,
    in_flight: 1,
    held: 9,
});

pub(crate) const RULES: Scripts = &[
    // Main sends go in the client's order, and responses too.
    (
        "each response has its request's own correlation id",
        &[
            (Line::Client(P), Told::Fine),
            (Line::Client(b"m...\0\0\0\x07q"), Told::Fine),
            (Line::Send, Told::Bytes(b"\0\0\0\x09m...\0\0\0\0p")),
            (Line::Send, Told::Bytes(b"\0\0\0\x09m...\0\0\0\x01q")),
            (Line::Send, Told::Nothing),
            (Line::Broker(b"\0\0\0\0x"), Told::Fine),
            (Line::Broker(Y), Told::Fine),
            (Line::Emit, Told::Bytes(b"\0\0\0\x05\0\0\0\x07x")),
            (Line::Emit, Told::Bytes(b"\0\0\0\x05\0\0\0\x07y")),
            (Line::Emit, Told::Later),
        ],
    ),
    (
        "a later request asks aside while an earlier one holds",
        &[
            (Line::Client(b"hv..\0\0\0\x07k"), Told::Fine),
            (Line::Client(b"am..\0\0\0\x08q"), Told::Fine),
            (Line::Client(R), Told::Fine),
            (Line::Send, Told::Bytes(b"\0\0\0\x08am..\0\0\0\0")),
            (Line::Send, Told::Nothing),
            (Line::Broker(b"\0\0\0\0x"), Told::Fine),
            (Line::Send, Told::Nothing),
            (Line::Verdict(0, 0, b"\x01"), Told::Fine),
            (Line::Send, Told::Bytes(b"\0\0\0\x09hv..\0\0\0\x01k")),
            (Line::Send, Told::Bytes(b"\0\0\0\x09am..\0\0\0\x02q")),
            (Line::Send, Told::Bytes(b"\0\0\0\x09m...\0\0\0\x03r")),
            (Line::Send, Told::Nothing),
            (Line::Broker(b"\0\0\0\x01a"), Told::Fine),
            (Line::Broker(b"\0\0\0\x02b"), Told::Fine),
            (Line::Broker(b"\0\0\0\x03c"), Told::Fine),
            (Line::Emit, Told::Bytes(b"\0\0\0\x05\0\0\0\x07a")),
            (Line::Emit, Told::Bytes(b"\0\0\0\x05\0\0\0\x08b")),
            (Line::Emit, Told::Bytes(b"\0\0\0\x05\0\0\0\x09c")),
            (Line::Emit, Told::Later),
        ],
    ),
    (
        "a send aside behind the main send keeps nothing back",
        &[
            (Line::Client(b"ma..\0\0\0\x07p"), Told::Fine),
            (Line::Client(Q), Told::Fine),
            (Line::Send, Told::Bytes(b"\0\0\0\x09ma..\0\0\0\0p")),
            (Line::Send, Told::Bytes(b"\0\0\0\x09m...\0\0\0\x01q")),
            (Line::Broker(b"\0\0\0\0x"), Told::Fine),
            (Line::Send, Told::Bytes(b"\0\0\0\x08ma..\0\0\0\x02")),
            (Line::Broker(Y), Told::Fine),
            (Line::Emit, Told::Later),
            (Line::Broker(b"\0\0\0\x02z"), Told::Fine),
            (Line::Emit, Told::Bytes(b"\0\0\0\x05\0\0\0\x07z")),
            (Line::Emit, Told::Bytes(b"\0\0\0\x05\0\0\0\x08y")),
            (Line::Emit, Told::Later),
        ],
    ),
    // Holds and verdicts.
    (
        "a verdict is given once",
        &[
            (Line::Client(b"hv..\0\0\0\x07k"), Told::Fine),
            (Line::Pick, Told::Ticket(0, 0, b"k")),
            (Line::Verdict(0, 0, b"\x01"), Told::Fine),
            (Line::Verdict(0, 0, b"\x01"), Told::Back(b"\x01")),
            (Line::Send, Told::Bytes(b"\0\0\0\x09hv..\0\0\0\0k")),
            (Line::Send, Told::Nothing),
            (Line::Broker(b"\0\0\0\0x"), Told::Fine),
            (Line::Verdict(0, 0, b"\x01"), Told::Back(b"\x01")),
            (Line::Emit, Told::Bytes(b"\0\0\0\x05\0\0\0\x07x")),
            (Line::Verdict(0, 0, b"\x01"), Told::Back(b"\x01")),
            (Line::Emit, Told::Later),
        ],
    ),
    (
        "a hold behind the main send",
        &[
            (Line::Client(b"mh..\0\0\0\x07k"), Told::Fine),
            (Line::Client(Q), Told::Fine),
            (Line::Send, Told::Bytes(b"\0\0\0\x09mh..\0\0\0\0k")),
            (Line::Send, Told::Bytes(b"\0\0\0\x09m...\0\0\0\x01q")),
            (Line::Pick, Told::Nothing),
            (Line::Broker(b"\0\0\0\0x"), Told::Fine),
            (Line::Broker(Y), Told::Fine),
            (Line::Emit, Told::Later),
            (Line::Pick, Told::Ticket(0, 1, b"k")),
            (Line::Verdict(0, 1, b"v"), Told::Fine),
            (Line::Emit, Told::Bytes(b"\0\0\0\x05\0\0\0\x07v")),
            (Line::Emit, Told::Bytes(b"\0\0\0\x05\0\0\0\x08y")),
            (Line::Emit, Told::Later),
        ],
    ),
    (
        "a failed authority cuts at its request, and no verdict is given there",
        &[
            (Line::Client(b"h...\0\0\0\x07k"), Told::Fine),
            (Line::Client(b"h...\0\0\0\x08j"), Told::Fine),
            (Line::Client(b"h...\0\0\0\x09i"), Told::Fine),
            (Line::Pick, Told::Ticket(0, 0, b"k")),
            (Line::Fails(Fault::Authority { request: 1 }), Told::Fine),
            (Line::Pick, Told::Nothing),
            (Line::Verdict(1, 0, b"no"), Told::Back(b"no")),
            (Line::Verdict(2, 0, b"no"), Told::Back(b"no")),
            (Line::Verdict(0, 0, b"yes"), Told::Fine),
            (Line::Emit, Told::Bytes(b"\0\0\0\x07\0\0\0\x07yes")),
            (Line::Emit, Told::Over(End::AuthorityFault { request: 1 })),
        ],
    ),
    // What fails cuts at itself, and the least cut stays.
    (
        "the later one fails, and then the earlier",
        &[
            (Line::Client(b"mf..\0\0\0\x07p"), Told::Fine),
            (Line::Client(b"mf..\0\0\0\x08q"), Told::Fine),
            (Line::Client(b"hv..\0\0\0\x09k"), Told::Fine),
            (Line::Send, Told::Bytes(b"\0\0\0\x09mf..\0\0\0\0p")),
            (Line::Send, Told::Bytes(b"\0\0\0\x09mf..\0\0\0\x01q")),
            (Line::Verdict(2, 0, b"\0"), Told::Fine),
            (Line::Emit, Told::Later),
            (Line::Broker(b"\0\0\0\0x"), Told::Fine),
            (Line::Emit, Told::Over(End::AskBudget { request: 0 })),
        ],
    ),
    (
        "no request, behind an open one",
        &[
            (Line::Client(P), Told::Fine),
            (Line::Client(b"x...\0\0\0\x08q"), Told::Fine),
            (Line::Client(X), Told::Back(X)),
            (Line::Send, Told::Bytes(b"\0\0\0\x09m...\0\0\0\0p")),
            (Line::Send, Told::Nothing),
            (Line::Emit, Told::Later),
            (Line::Broker(b"\0\0\0\0x"), Told::Fine),
            (Line::Emit, Told::Bytes(b"\0\0\0\x05\0\0\0\x07x")),
            (Line::Emit, Told::Over(End::BadHead { request: 1 })),
        ],
    ),
    (
        "a side answer that can't be read",
        &[
            (Line::Client(P), Told::Fine),
            (Line::Client(b"am..\0\0\0\x08q"), Told::Fine),
            (Line::Client(R), Told::Fine),
            (Line::Send, Told::Bytes(b"\0\0\0\x09m...\0\0\0\0p")),
            (Line::Send, Told::Bytes(b"\0\0\0\x08am..\0\0\0\x01")),
            (Line::Send, Told::Nothing),
            (Line::Broker(b"\0\0\0\0x"), Told::Fine),
            (Line::Broker(b"\0\0\0\x01!y"), Told::Fine),
            (Line::Send, Told::Nothing),
            (Line::Emit, Told::Bytes(b"\0\0\0\x05\0\0\0\x07x")),
            (Line::Emit, Told::Over(UNREADABLE)),
            (Line::Send, Told::Nothing),
        ],
    ),
    (
        "an answer past the cut is counted",
        &[
            (Line::Client(b"mh..\0\0\0\x07p"), Told::Fine),
            (Line::Client(b"mf..\0\0\0\x08q"), Told::Fine),
            (Line::Client(R), Told::Fine),
            (Line::Send, Told::Bytes(b"\0\0\0\x09mh..\0\0\0\0p")),
            (Line::Send, Told::Bytes(b"\0\0\0\x09mf..\0\0\0\x01q")),
            (Line::Send, Told::Bytes(b"\0\0\0\x09m...\0\0\0\x02r")),
            (Line::Broker(b"\0\0\0\0x"), Told::Fine),
            (Line::Broker(Y), Told::Fine),
            (Line::Broker(b"\0\0\0\x02z"), Told::Fine),
            (Line::BrokerEnd(0), Told::Fine),
            (Line::Emit, Told::Over(End::BrokerEnd { waiting: 0 })),
        ],
    ),
    (
        "sends past the cut still go, also after the end was told",
        &[
            (Line::Client(b"mf..\0\0\0\x07p"), Told::Fine),
            (Line::Client(Q), Told::Fine),
            (Line::Client(R), Told::Fine),
            (Line::Send, Told::Bytes(b"\0\0\0\x09mf..\0\0\0\0p")),
            (Line::Broker(b"\0\0\0\0x"), Told::Fine),
            (Line::Send, Told::Bytes(b"\0\0\0\x09m...\0\0\0\x01q")),
            (Line::Emit, Told::Over(End::AskBudget { request: 0 })),
            (Line::Send, Told::Bytes(b"\0\0\0\x09m...\0\0\0\x02r")),
            (Line::Send, Told::Nothing),
        ],
    ),
    // To which send a frame of the broker belongs.
    (
        "none is due: only a silent send was taken",
        &[
            (Line::Client(b"q..-\0\0\0\x07p"), Told::Fine),
            (Line::Send, Told::Bytes(b"\0\0\0\x09q..-\0\0\0\0p")),
            (Line::Broker(b"\0\0\0\0x"), Told::Fine),
            (Line::Emit, Told::Over(End::Unasked { found: 0 })),
            (Line::Look, OVER_DEAD_0),
        ],
    ),
    (
        "another id than that of the due send",
        &[
            (Line::Client(b"q..-\0\0\0\x07p"), Told::Fine),
            (Line::Client(Q), Told::Fine),
            (Line::Send, Told::Bytes(b"\0\0\0\x09q..-\0\0\0\0p")),
            (Line::Send, Told::Bytes(b"\0\0\0\x09m...\0\0\0\x01q")),
            (Line::Broker(b"\0\0\0\0x"), Told::Fine),
            (Line::Emit, Told::Over(NOT_DUE)),
        ],
    ),
    // Ends: of the client, of the broker, and halts.
    (
        "the client's, within a frame",
        &[
            (Line::Client(P), Told::Fine),
            (Line::Send, Told::Bytes(b"\0\0\0\x09m...\0\0\0\0p")),
            (Line::ClientEnd(3), Told::Fine),
            (Line::Client(Q), Told::Back(Q)),
            (Line::Broker(b"\0\0\0\0x"), Told::Fine),
            (Line::Emit, Told::Bytes(b"\0\0\0\x05\0\0\0\x07x")),
            (Line::Emit, Told::Over(End::ClientTorn { rest: 3 })),
        ],
    ),
    (
        "the broker's, with a response ready",
        &[
            (Line::Client(P), Told::Fine),
            (Line::Client(Q), Told::Fine),
            (Line::Send, Told::Bytes(b"\0\0\0\x09m...\0\0\0\0p")),
            (Line::Send, Told::Bytes(b"\0\0\0\x09m...\0\0\0\x01q")),
            (Line::Broker(b"\0\0\0\0x"), Told::Fine),
            (Line::BrokerEnd(0), Told::Fine),
            (Line::Client(R), Told::Back(R)),
            (Line::Broker(Y), Told::Back(Y)),
            (Line::Emit, Told::Bytes(b"\0\0\0\x05\0\0\0\x07x")),
            (Line::Emit, Told::Over(End::BrokerEnd { waiting: 1 })),
            (Line::Emit, Told::Over(End::BrokerEnd { waiting: 1 })),
        ],
    ),
    (
        "a death, and the cut at the front is told",
        &[
            (Line::Client(b"....\0\0\0\x07p"), Told::Fine),
            (Line::Client(b"f...\0\0\0\x08q"), Told::Fine),
            (Line::BrokerEnd(0), Told::Fine),
            (Line::Emit, Told::Bytes(b"\0\0\0\x04\0\0\0\x07")),
            (Line::Emit, Told::Over(End::AskBudget { request: 1 })),
        ],
    ),
    (
        "a halt, whatever is ready",
        &[
            (Line::Client(P), Told::Fine),
            (Line::Send, Told::Bytes(b"\0\0\0\x09m...\0\0\0\0p")),
            (Line::Broker(b"\0\0\0\0x"), Told::Fine),
            (Line::Fails(Fault::ClientWrite), Told::Fine),
            (Line::Client(Q), Told::Back(Q)),
            (Line::Broker(Y), Told::Back(Y)),
            (Line::Send, Told::Nothing),
            (Line::Pick, Told::Nothing),
            (Line::Emit, Told::Over(End::ClientWriteFault)),
            (Line::Emit, Told::Over(End::ClientWriteFault)),
        ],
    ),
    // Silent requests.
    (
        "a silent request between others",
        &[
            (Line::Client(P), Told::Fine),
            (Line::Client(b"q..-\0\0\0\x08q"), Told::Fine),
            (Line::Client(R), Told::Fine),
            (Line::Send, Told::Bytes(b"\0\0\0\x09m...\0\0\0\0p")),
            (Line::Send, Told::Bytes(b"\0\0\0\x09q..-\0\0\0\x01q")),
            (Line::Send, Told::Bytes(b"\0\0\0\x09m...\0\0\0\x02r")),
            (Line::Send, Told::Nothing),
            (Line::Broker(b"\0\0\0\0x"), Told::Fine),
            (Line::Broker(b"\0\0\0\x02y"), Told::Fine),
            (Line::Emit, Told::Bytes(b"\0\0\0\x05\0\0\0\x07x")),
            (Line::Emit, Told::Bytes(b"\0\0\0\x05\0\0\0\x09y")),
            (Line::Emit, Told::Later),
            (Line::Look, EMPTY),
        ],
    ),
    (
        "the broker's answer to it isn't for the client",
        &[
            (Line::Client(b"m..-\0\0\0\x07p"), Told::Fine),
            (Line::Client(Q), Told::Fine),
            (Line::Send, Told::Bytes(b"\0\0\0\x09m..-\0\0\0\0p")),
            (Line::Send, Told::Bytes(b"\0\0\0\x09m...\0\0\0\x01q")),
            (Line::Emit, Told::Later),
            (Line::Look, TWO),
            (Line::Broker(b"\0\0\0\0x"), Told::Fine),
            (Line::Emit, Told::Later),
            (Line::Look, ONE),
            (Line::Broker(Y), Told::Fine),
            (Line::Emit, Told::Bytes(b"\0\0\0\x05\0\0\0\x08y")),
            (Line::Emit, Told::Later),
        ],
    ),
    (
        "a main send without a response, of a request that gets one",
        &[
            (Line::Client(b"q...\0\0\0\x07p"), Told::Fine),
            (Line::Client(Q), Told::Fine),
            (Line::Send, Told::Bytes(b"\0\0\0\x09q...\0\0\0\0p")),
            (Line::Send, Told::Bytes(b"\0\0\0\x09m...\0\0\0\x01q")),
            (Line::Emit, Told::Bytes(b"\0\0\0\x04\0\0\0\x07")),
            (Line::Emit, Told::Later),
            (Line::Broker(b"\0\0\0\x01x"), Told::Fine),
            (Line::Emit, Told::Bytes(b"\0\0\0\x05\0\0\0\x08x")),
        ],
    ),
];

pub(crate) const AT_ONE: Scripts = &[(
    "room again behind the response",
    &[
        (Line::Client(P), Told::Fine),
        (Line::Client(Q), Told::Full(1, 9, Q)),
        (Line::Send, Told::Bytes(b"\0\0\0\x09m...\0\0\0\0p")),
        (Line::Broker(b"\0\0\0\0x"), Told::Fine),
        (Line::Client(Q), Told::Full(1, 9, Q)),
        (Line::Emit, Told::Bytes(b"\0\0\0\x05\0\0\0\x07x")),
        (Line::Client(Q), Told::Fine),
        (Line::Client(R), Told::Full(1, 9, R)),
        (Line::Send, Told::Bytes(b"\0\0\0\x09m...\0\0\0\x01q")),
        (Line::Send, Told::Nothing),
        (Line::Broker(Y), Told::Fine),
        (Line::Emit, Told::Bytes(b"\0\0\0\x05\0\0\0\x08y")),
    ],
)];

pub(crate) const AT_SIXTY_FOUR: Scripts = &[(
    "sixty-four in flight",
    &[
        (Line::Clients(64, P), Told::Fine),
        (Line::Client(Q), Told::Full(64, 576, Q)),
        (Line::Send, Told::Bytes(b"\0\0\0\x09m...\0\0\0\0p")),
        (Line::Broker(b"\0\0\0\0x"), Told::Fine),
        (Line::Client(Q), Told::Full(64, 576, Q)),
        (Line::Emit, Told::Bytes(b"\0\0\0\x05\0\0\0\x07x")),
        (Line::Client(Q), Told::Fine),
        (Line::Client(R), Told::Full(64, 576, R)),
    ],
)];
