// The budget of asks, and the greatest frames that go out.
use super::Filters::Asks;
use super::*;
use filter_probes::{Grows, Growth};
use std::process::Abort;

// Answers each send that comes, from this upstream id on. The number of them.
fn answers_all(alloc: Global, core: &mut Core<Probe>, first_id: u32) -> Result<u32, AllocError> {
    for sends in 0..1000u32 {
        if core.send().is_none() {
            return Ok(sends);
        }
        let mut answer = Vec::new(alloc);
        answer.extend_from_slice(&first_id.saturating_add(sends).to_be_bytes())?;
        answer.extend_from_slice(b"\0\0")?;
        let answer = Bytes::from_vec(answer)?;
        if answer.len() >= 4 {
            let _ = core.answer(answer, &mut Steps::<Counted>::new());
        }
    }
    Ok(1000)
}

// How a request went whose every ask is answered: the sends, and what was emitted then.
fn all_asked(alloc: Global, chain: &[Filters]) -> Result<(u32, Got), AllocError> {
    let mut core = Core::new(alloc, chain_of(alloc, chain)?, 64);
    let _ = takes(&mut core, Bytes::copy_from_slice(alloc, H7)?);
    let sends = answers_all(alloc, &mut core, 0)?;
    Ok((sends, emitted(core.emit())))
}

#[test]
fn a_request_asks_64_times(rt: HostRuntime) -> Result<(), Fail> {
    let (sends, got) = all_asked(rt.alloc(), &[Asks(0, 3), Asks(0, 3), Asks(0, 3)])?;
    assert_eq!(rt; sends, 64);
    assert!(rt; is_wanted(&got, Told::Bytes(A7_SIZED)), "got {got:?}");
    let (sends, got) = all_asked(
        rt.alloc(),
        &[Asks(0, 3), Asks(0, 3), Asks(0, 3), Asks(0, 3)],
    )?;
    assert_eq!(rt; sends, 64);
    let wanted = Told::Over(End::AskBudget { request: 0 });
    assert!(rt; is_wanted(&got, wanted), "got {got:?}");
    Ok(())
}

// The verdict on this request, which waits for it with its first ask.
fn lets_go(alloc: Global, core: &mut Core<Probe>, request: u64) -> Result<Got, AllocError> {
    reply_to(alloc, core, Line::Verdict(request, 0, b"yes"))
}

// The first of two requests is held while the second one asks as often as it may. The cut stands at the second, and then at
// the first.
#[test]
fn an_earlier_request_is_open_at_the_budget(rt: HostRuntime) -> Result<(), Fail> {
    let alloc = rt.alloc();
    let asks = Asks(0, 3);
    let chain = chain_of(alloc, &[Asks(2, 1), asks, asks, asks, asks])?;
    let mut core = Core::new(alloc, chain, 64);
    for frame in [H7, H8] {
        let got = takes(&mut core, Bytes::copy_from_slice(alloc, frame)?);
        assert!(rt; is_wanted(&got, Told::Fine), "got {got:?}");
    }
    let got = lets_go(alloc, &mut core, 1)?;
    assert!(rt; is_wanted(&got, Told::Fine), "got {got:?}");
    // with the verdict these are 64
    assert_eq!(rt; answers_all(alloc, &mut core, 0)?, 63);
    let got = emitted(core.emit());
    assert!(rt; is_wanted(&got, Told::Later), "got {got:?}");
    let got = takes(&mut core, Bytes::copy_from_slice(alloc, H7)?);
    assert!(rt; is_wanted(&got, Told::Back(H7)), "got {got:?}");
    let got = lets_go(alloc, &mut core, 0)?;
    assert!(rt; is_wanted(&got, Told::Fine), "got {got:?}");
    assert_eq!(rt; answers_all(alloc, &mut core, 63)?, 63);
    let got = emitted(core.emit());
    let wanted = Told::Over(End::AskBudget { request: 0 });
    assert!(rt; is_wanted(&got, wanted), "got {got:?}");
    Ok(())
}

// SyncGroup requests of version 0 without an assignment
const S7: &[u8] = b"\0\x0e\0\0\0\0\0\x07\xff\xff\0\x01g\0\0\0\x01\0\x01m\0\0\0\0";

const S8: &[u8] = b"\0\x0e\0\0\0\0\0\x08\xff\xff\0\x01g\0\0\0\x01\0\x01m\0\0\0\0";

// Answers without an error and with an empty assignment, and the responses
const SYNC_A0: &[u8] = b"\0\0\0\0\0\0\0\0\0\0";

const SYNC_A1: &[u8] = b"\0\0\0\x01\0\0\0\0\0\0";

const SYNC_A7_SIZED: &[u8] = b"\0\0\0\x0a\0\0\0\x07\0\0\0\0\0\0";

const SYNC_A8_SIZED: &[u8] = b"\0\0\0\x0a\0\0\0\x08\0\0\0\0\0\0";

// The greatest payload of a send, which has 30 bytes beside, and of a response, which has 10.
const GREATEST_SENT: usize = 134_217_698;

const GREATEST_RETURNED: usize = 134_217_718;

// How these sends, and responses, begin: their size, what stands before the payload, and its length.
const SENT_0: &[u8] =
    b"\x08\0\0\0\0\x0e\0\0\0\0\0\0\xff\xff\0\x01g\0\0\0\x01\0\x01m\0\0\0\x01\0\0\x07\xff\xff\xe2a";

const SENT_1: &[u8] =
    b"\x08\0\0\0\0\x0e\0\0\0\0\0\x01\xff\xff\0\x01g\0\0\0\x01\0\x01m\0\0\0\x01\0\0\x07\xff\xff\xe2a";

const RETURNED_7: &[u8] = b"\x08\0\0\0\0\0\0\x07\0\0\x07\xff\xff\xf6a";

const RETURNED_8: &[u8] = b"\x08\0\0\0\0\0\0\x08\0\0\x07\xff\xff\xf6a";

// A connection whose filter puts a payload of so many bytes into SyncGroup: an a, zeros and a z.
fn growing(alloc: Global, growth: Growth, bytes: usize) -> Result<Core<Grows>, AllocError> {
    let mut payload = vec![in alloc; 0u8; bytes]?;
    if let Some(first) = payload.first_mut() {
        *first = b'a';
    }
    if let Some(last) = payload.last_mut() {
        *last = b'z';
    }
    let payload = Bytes::from_vec(payload)?;
    let mut chain = Vec::new(alloc);
    if payload.len() <= 2_147_483_647 {
        chain.push(Grows::by(growth, payload))?;
    }
    Ok(Core::new(alloc, chain, 64))
}

// Of a frame: its length, as many bytes of its front, and its last byte.
fn ends_of(frame: &Bytes, front: usize) -> Result<(usize, Bytes, Option<u8>), AllocError> {
    let end = front.min(frame.len());
    Ok((
        frame.len(),
        frame.slice(0..end)?,
        frame.as_slice().last().copied(),
    ))
}

// The frame has 134,217,728 bytes behind its size, begins so, and ends with the payload's last byte.
fn expect_greatest(rt: &impl Abort, name: &str, got: &Got, begin: &[u8]) -> Result<(), Fail> {
    let Told::Bytes(frame) = got else {
        assert!(rt; false, "{name}: wanted a frame, got {got:?}");
        return Ok(());
    };
    let (length, front, last) = ends_of(frame, begin.len())?;
    assert_eq!(rt;
        (length, front.as_slice(), last),
        (134_217_732, begin, Some(b'z')),
        "{name}"
    );
    Ok(())
}

// This core answers these lines as they say.
fn expect_lines<F: Filter + Drop>(
    rt: &impl Abort,
    alloc: Global,
    core: &mut Core<F>,
    name: &str,
    lines: &[(Line, Want)],
) -> Result<(), Fail> {
    if let Some((i, got)) = wrong_reply(alloc, core, lines)? {
        let want = lines.get(i).map(|line| line.1);
        assert!(rt; false, "{name}, line {i}: wanted {want:?}, got {got:?}");
    }
    Ok(())
}

// How the greatest frame goes out.
struct Greatest {
    name: &'static str,
    growth: Growth,
    payload: usize,
    before: &'static [(Line, Want)],
    // the line that it answers, and how it begins
    line: Line,
    begin: &'static [u8],
    behind: &'static [(Line, Want)],
}

const GREATEST: [Greatest; 4] = [
    Greatest {
        name: "a send, alone",
        growth: Growth::Sends,
        payload: GREATEST_SENT,
        before: &[(Line::Client(S7), Told::Fine)],
        line: Line::Send,
        begin: SENT_0,
        behind: &[
            (Line::Send, Told::Nothing),
            (Line::Emit, Told::Later),
            (Line::Broker(SYNC_A0), Told::Fine),
            (Line::Emit, Told::Bytes(SYNC_A7_SIZED)),
        ],
    },
    Greatest {
        name: "a send behind an earlier request",
        growth: Growth::Sends,
        payload: GREATEST_SENT,
        before: &[
            (Line::Client(H7), Told::Fine),
            (Line::Client(S8), Told::Fine),
            (Line::Send, Told::Bytes(H0_SIZED)),
        ],
        line: Line::Send,
        begin: SENT_1,
        behind: &[
            (Line::Emit, Told::Later),
            (Line::Broker(A0), Told::Fine),
            (Line::Broker(SYNC_A1), Told::Fine),
            (Line::Emit, Told::Bytes(A7_SIZED)),
            (Line::Emit, Told::Bytes(SYNC_A8_SIZED)),
        ],
    },
    Greatest {
        name: "a response, alone",
        growth: Growth::Responses,
        payload: GREATEST_RETURNED,
        before: &[(Line::Client(S7), Told::Fine), (Line::Send, Told::Nothing)],
        line: Line::Emit,
        begin: RETURNED_7,
        behind: &[(Line::Emit, Told::Later)],
    },
    Greatest {
        name: "a response behind an earlier request",
        growth: Growth::Responses,
        payload: GREATEST_RETURNED,
        before: &[
            (Line::Client(H7), Told::Fine),
            (Line::Client(S8), Told::Fine),
            (Line::Send, Told::Bytes(H0_SIZED)),
            (Line::Send, Told::Nothing),
            (Line::Emit, Told::Later),
            (Line::Broker(A0), Told::Fine),
            (Line::Emit, Told::Bytes(A7_SIZED)),
        ],
        line: Line::Emit,
        begin: RETURNED_8,
        behind: &[(Line::Emit, Told::Later)],
    },
];

// It goes out whole, and the lines before and behind it are answered as they say.
#[test]
fn the_greatest_frames_go_out_whole(rt: HostRuntime) -> Result<(), Fail> {
    let alloc = rt.alloc();
    for greatest in &GREATEST {
        let name = greatest.name;
        let mut core = growing(alloc, greatest.growth, greatest.payload)?;
        expect_lines(&rt, alloc, &mut core, name, greatest.before)?;
        let got = reply_to(alloc, &mut core, greatest.line)?;
        expect_greatest(&rt, name, &got, greatest.begin)?;
        expect_lines(&rt, alloc, &mut core, name, greatest.behind)?;
    }
    Ok(())
}

const GROWN: End = End::GrownPast {
    request: 0,
    size: 134_217_729,
};

const GROWN_BEHIND: End = End::GrownPast {
    request: 1,
    size: 134_217_729,
};

const ALONE: &[(Line, Want)] = &[
    (Line::Client(S7), Told::Fine),
    (Line::Client(H8), Told::Back(H8)),
    (Line::Send, Told::Nothing),
    (Line::Emit, Told::Over(GROWN)),
    (Line::Emit, Told::Over(GROWN)),
];

// The cut stands at the second request, and the first is served.
const BEHIND: &[(Line, Want)] = &[
    (Line::Client(H7), Told::Fine),
    (Line::Client(S8), Told::Fine),
    (Line::Send, Told::Bytes(H0_SIZED)),
    (Line::Send, Told::Nothing),
    (Line::Emit, Told::Later),
    (Line::Client(H7), Told::Back(H7)),
    (Line::Broker(A0), Told::Fine),
    (Line::Emit, Told::Bytes(A7_SIZED)),
    (Line::Emit, Told::Over(GROWN_BEHIND)),
];

// One byte more than goes out.
struct GrownPast {
    name: &'static str,
    growth: Growth,
    payload: usize,
    lines: &'static [(Line, Want)],
}

const GROWN_PAST: [GrownPast; 4] = [
    GrownPast {
        name: "a send, alone",
        growth: Growth::Sends,
        payload: GREATEST_SENT + 1,
        lines: ALONE,
    },
    GrownPast {
        name: "a send behind an earlier request",
        growth: Growth::Sends,
        payload: GREATEST_SENT + 1,
        lines: BEHIND,
    },
    GrownPast {
        name: "a response, alone",
        growth: Growth::Responses,
        payload: GREATEST_RETURNED + 1,
        lines: ALONE,
    },
    GrownPast {
        name: "a response behind an earlier request",
        growth: Growth::Responses,
        payload: GREATEST_RETURNED + 1,
        lines: BEHIND,
    },
];

#[test]
fn a_frame_past_the_greatest_ends_the_connection(rt: HostRuntime) -> Result<(), Fail> {
    for grown in &GROWN_PAST {
        let mut core = growing(rt.alloc(), grown.growth, grown.payload)?;
        expect_lines(&rt, rt.alloc(), &mut core, grown.name, grown.lines)?;
    }
    Ok(())
}

// The lines behind an accepted verdict: the filter heeds its first byte, which is a v, as the error of a Heartbeat. After an
// empty verdict the request goes on.
const HEEDED: &[(Line, Want)] = &[
    (Line::Send, Told::Nothing),
    (Line::Emit, Told::Bytes(b"\0\0\0\x06\0\0\0\x07\0v")),
    (Line::Emit, Told::Later),
];

const WENT_ON: &[(Line, Want)] = &[
    (Line::Send, Told::Bytes(H0_SIZED)),
    (Line::Broker(A0), Told::Fine),
    (Line::Emit, Told::Bytes(A7_SIZED)),
    (Line::Emit, Told::Later),
];

const ACCEPTED: [(usize, &'static str, &'static [(Line, Want)]); 4] = [
    (0, "an empty verdict", WENT_ON),
    (1, "a verdict of one byte", HEEDED),
    (65_537, "a verdict of 65,537 bytes", HEEDED),
    (1_048_577, "a verdict of 1,048,577 bytes", HEEDED),
];

#[test]
fn verdicts_of_any_size_are_accepted(rt: HostRuntime) -> Result<(), Fail> {
    let alloc = rt.alloc();
    for (size, name, behind) in ACCEPTED {
        let mut chain = Vec::new(alloc);
        chain.push(Probe::heeding())?;
        let mut core = Core::new(alloc, chain, 64);
        let held = [
            (Line::Client(H7), Told::Fine),
            (Line::Pick, Told::Ticket(0, 0, b"k".as_slice())),
        ];
        expect_lines(&rt, alloc, &mut core, name, &held)?;
        let verdict = Blob::from_vec(vec![in alloc; b'v'; size]?);
        let told = core.complete(0, 0, verdict, &mut Steps::<Counted>::new());
        let got = completed(alloc, told)?;
        assert!(rt;
            is_wanted(&got, Told::Fine),
            "{name}: wanted Fine, got {got:?}"
        );
        expect_lines(&rt, alloc, &mut core, name, behind)?;
    }
    Ok(())
}
