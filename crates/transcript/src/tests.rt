use super::*;
use bytes::Bytes;
use kp_edge::{Blob, End};
use std::alloc::Global;
use std::process::Abort;
use wire_types::Writer;

mod ample;

// A line in words of this test's own, so that what was read can be compared.
fn shown(rt: &impl Abort, alloc: Global, read: Result<Line, LineFault>) -> String {
    match read {
        Ok(line) => line_shown(rt, alloc, &line),
        Err(fault) => format!(in alloc; "{fault:?}").expect(rt, "memory"),
    }
}

fn line_shown(rt: &impl Abort, alloc: Global, line: &Line) -> String {
    let text = match line {
        Line::Client(bytes) => format!(in alloc; "client {:?}", bytes.as_slice()),
        Line::Broker(bytes) => format!(in alloc; "broker {:?}", bytes.as_slice()),
        Line::ClientEnd => format!(in alloc; "the client ends"),
        Line::BrokerEnd => format!(in alloc; "the broker ends"),
        Line::Send => format!(in alloc; "send"),
        Line::Emit => format!(in alloc; "emit"),
        Line::Pick => format!(in alloc; "pick"),
        Line::Done {
            request,
            index,
            verdict,
        } => format!(in alloc; "done {request}, {index}, {:?}", verdict.as_slice()),
        Line::FaultClientRead => format!(in alloc; "client's read"),
        Line::FaultClientWrite => format!(in alloc; "client's write"),
        Line::FaultBrokerRead => format!(in alloc; "broker's read"),
        Line::FaultBrokerWrite => format!(in alloc; "broker's write"),
        Line::FaultAuthority { request } => format!(in alloc; "authority, {request}"),
    };
    text.expect(rt, "memory")
}

#[test]
fn lines_of_the_grammar_are_read(rt: HostRuntime) {
    let table = [
        ("client 00ff", "client [0, 255]"),
        ("client -", "client []"),
        ("client 00", "client [0]"),
        ("client aBcD", "client [171, 205]"),
        ("client ABCDEF", "client [171, 205, 239]"),
        (
            "client abcdef0123456789",
            "client [171, 205, 239, 1, 35, 69, 103, 137]",
        ),
        ("broker 01", "broker [1]"),
        ("broker -", "broker []"),
        ("broker Fe", "broker [254]"),
        ("client-end", "the client ends"),
        ("broker-end", "the broker ends"),
        ("send", "send"),
        ("emit", "emit"),
        ("pick", "pick"),
        ("done 0 0 -", "done 0, 0, []"),
        ("done 007 4294967295 0A", "done 7, 4294967295, [10]"),
        ("done 5 00 0001", "done 5, 0, [0, 1]"),
        (
            "done 18446744073709551615 00000000000000000001 ff",
            "done 18446744073709551615, 1, [255]",
        ),
        (
            "done 00000000000000000000 00000000004294967295 -",
            "done 0, 4294967295, []",
        ),
        ("fault client-read", "client's read"),
        ("fault client-write", "client's write"),
        ("fault broker-read", "broker's read"),
        ("fault broker-write", "broker's write"),
        ("fault authority 0", "authority, 0"),
        ("fault authority 3", "authority, 3"),
        ("fault authority 0012", "authority, 12"),
        ("fault authority 00000000000000000009", "authority, 9"),
        ("fault authority 4294967296", "authority, 4294967296"),
        (
            "fault authority 18446744073709551615",
            "authority, 18446744073709551615",
        ),
    ];
    for (text, want) in table {
        let read = read_line(rt.alloc(), text.as_bytes());
        assert_eq!(rt; (text, shown(&rt, rt.alloc(), read).as_str()), (text, want));
    }
}

// `examples/replay/bad.lines` has each other line that is outside the grammar. These two have a byte 10, which no line of a
// script has.
#[test]
fn no_line_has_a_byte_10(rt: HostRuntime) {
    for text in ["send\n", "client\n00"] {
        assert_eq!(rt;
            read_line(rt.alloc(), text.as_bytes()).err(),
            Some(LineFault::BadLine)
        );
    }
}

fn frame(rt: &impl Abort, alloc: Global, bytes: &[u8]) -> Bytes {
    Bytes::copy_from_slice(alloc, bytes).expect(rt, "memory")
}

fn blob(rt: &impl Abort, alloc: Global, bytes: &[u8]) -> Blob {
    Blob::copy(alloc, bytes).expect(rt, "memory")
}

#[test]
fn answers_are_printed(rt: HostRuntime) {
    let alloc = rt.alloc();
    let most = u64::MAX;
    let longest = End::BadBody {
        request: most,
        key: i16::MIN,
        version: i16::MIN,
        at: most,
    };
    let table = [
        (Answer::Fine, "ok"),
        (Answer::Full, "full"),
        (Answer::Closed, "closed"),
        (Answer::NotWaiting, "not-waiting"),
        (
            Answer::ToBroker(frame(&rt, alloc, b"\0\0\0\x02\xab\xcd")),
            "to-broker 00000002abcd",
        ),
        (Answer::ToBroker(frame(&rt, alloc, b"")), "to-broker -"),
        (
            Answer::ToClient(frame(&rt, alloc, b"\0\0\0\x04\0\x0f\xf0\xff")),
            "to-client 00000004000ff0ff",
        ),
        (Answer::ToClient(frame(&rt, alloc, b"")), "to-client -"),
        (Answer::Nothing, "none"),
        (Answer::Later, "later"),
        (Answer::Over(End::Ended), "over ended"),
        (Answer::Over(End::NoMemory), "over no-memory"),
        (
            Answer::Over(longest),
            "over bad-body request=18446744073709551615 key=-32768 version=-32768 at=18446744073709551615",
        ),
        (
            Answer::Ticket {
                request: most,
                index: 4294967295,
                key: blob(&rt, alloc, b"\x0f"),
            },
            "ticket 18446744073709551615 4294967295 0f",
        ),
        (
            Answer::Ticket {
                request: 0,
                index: 0,
                key: blob(&rt, alloc, b""),
            },
            "ticket 0 0 -",
        ),
    ];
    let mut out = Writer::new(alloc);
    for (answer, want) in table {
        out.clear();
        let printed = print(&answer, &mut out);
        assert_eq!(rt;
            (printed, std::str::from_utf8(out.as_slice()).ok()),
            (Ok(()), Some(want)),
            "{answer:?}"
        );
    }
}

// More bytes than are printed at a time, and what is printed is read again.
#[test]
fn a_long_frame_is_printed_behind_what_stands_there(rt: HostRuntime) {
    let mut bytes = Vec::new(rt.alloc());
    for i in 0..2000u32 {
        bytes.push((i % 251) as u8).expect(&rt, "memory");
    }
    let answer = Answer::ToClient(frame(&rt, rt.alloc(), bytes.as_slice()));
    let mut out = Writer::new(rt.alloc());
    out.put_all(b"later\n").expect(&rt, "memory");
    print(&answer, &mut out).expect(&rt, "memory");
    let (front, digits) = out.as_slice().split_at(16);
    assert_eq!(rt; front, b"later\nto-client ".as_slice());
    let mut line = Vec::from_slice(rt.alloc(), b"client ").expect(&rt, "memory");
    line.extend_from_slice(digits).expect(&rt, "memory");
    match read_line(rt.alloc(), line.as_slice()) {
        Ok(Line::Client(again)) => assert_eq!(rt; again.as_slice(), bytes.as_slice()),
        other => assert!(rt; false, "wanted the same bytes, got {other:?}"),
    }
}
