use self::noting::Noting;
use super::*;
use conn_rules::{Emit, Fault};
use kp_edge::{Blob, NoMemory, Steps};
use std::alloc::Global;
use std::test::*;

mod ample;
mod noting;

// A call of a station.
enum Call {
    Client(&'static [u8]),
    Broker(&'static [u8]),
    ClientEnd,
    BrokerEnd,
    Retake,
    Emit,
    Done(u64, u32, &'static [u8]),
    Fault(Fault),
}

// Calls one after another with what is told of each, and what the connection was told in all.
struct Case {
    name: &'static str,
    calls: &'static [(Call, &'static str)],
    notes: &'static str,
}

const CASES: &[Case] = &[
    Case {
        name: "two frames and a half in one piece",
        calls: &[
            (
                Call::Client(b"\0\0\0\x08request+\0\0\0\x09request1+\0\0\0\x08req"),
                "fine",
            ),
            (Call::Client(b"uest+"), "fine"),
        ],
        notes: "take request+; take request1+; take request+; ",
    },
    Case {
        name: "a frame that finds no room is kept, and those behind it wait",
        calls: &[
            (
                Call::Client(b"\0\0\0\x08request=\0\0\0\x09request1+"),
                "full",
            ),
            (Call::Client(b"\0\0\0\x09request2+"), "full"),
            (Call::Retake, "full"),
            (Call::Emit, "later"),
            (Call::Retake, "fine"),
            (Call::Retake, "fine"),
        ],
        notes: "take request=; take request=; take request=; take request=; take request1+; take request2+; ",
    },
    Case {
        name: "a full frame behind a refused one",
        calls: &[(
            Call::Client(b"\0\0\0\x08request-\0\0\0\x08request="),
            "full",
        )],
        notes: "take request-; take request=; ",
    },
    Case {
        name: "the connection finds no memory for a frame, and those behind it stay",
        calls: &[
            (
                Call::Client(b"\0\0\0\x08request!\0\0\0\x08request+\0"),
                "no-memory",
            ),
            (Call::Retake, "fine"),
            (Call::Client(b"\0\0\x08request+"), "fine"),
        ],
        notes: "take request!; take request+; take request+; ",
    },
    Case {
        name: "the client ends while whole frames are left for want of memory",
        calls: &[
            (
                Call::Client(b"\0\0\0\x08request!\0\0\0\x08request+"),
                "no-memory",
            ),
            (Call::ClientEnd, "fine"),
            (Call::Retake, "fine"),
        ],
        notes: "take request!; take request+; client end 0; ",
    },
    Case {
        name: "the client's sizes: one too great",
        calls: &[(Call::Client(b"\x06\x40\0\x01"), "fine")],
        notes: "client bad size 104857601 at 0; ",
    },
    Case {
        name: "a bad size behind a frame that is kept is told later",
        calls: &[
            (Call::Client(b"\0\0\0\x08request=\0\0\0\0"), "full"),
            (Call::Emit, "later"),
            (Call::Retake, "fine"),
            (Call::Retake, "fine"),
        ],
        notes: "take request=; take request=; client bad size 0 at 12; ",
    },
    Case {
        name: "the client ends at once",
        calls: &[
            (Call::ClientEnd, "fine"),
            (Call::ClientEnd, "closed"),
            (Call::Client(b"\0"), "closed"),
            (Call::Retake, "fine"),
        ],
        notes: "client end 0; ",
    },
    Case {
        name: "the client ends while a frame is kept",
        calls: &[
            (Call::Client(b"\0\0\0\x08request=\0\0\0"), "full"),
            (Call::ClientEnd, "fine"),
            (Call::Retake, "full"),
            (Call::Emit, "later"),
            (Call::Retake, "fine"),
            (Call::Retake, "fine"),
        ],
        notes: "take request=; take request=; take request=; client end 3; ",
    },
    Case {
        name: "the broker's frames",
        calls: &[
            (
                Call::Broker(b"\0\0\0\x04res+\0\0\0\x04res-\0\0\0\x05resp+\0"),
                "closed",
            ),
            (Call::Broker(b""), "fine"),
            (Call::BrokerEnd, "fine"),
            (Call::BrokerEnd, "closed"),
            (Call::Broker(b"\0"), "closed"),
        ],
        notes: "answer res+; answer res-; answer resp+; broker end 1; ",
    },
    Case {
        name: "the connection finds no memory for a broker's frame",
        calls: &[
            (Call::Broker(b"\0\0\0\x04res!\0\0\0\x04res+"), "no-memory"),
            (Call::Broker(b""), "fine"),
        ],
        notes: "answer res!; answer res+; ",
    },
    Case {
        name: "the broker's sizes: one too great, behind a frame",
        calls: &[(Call::Broker(b"\0\0\0\x04res+\x08\0\0\x01"), "fine")],
        notes: "answer res+; broker bad size 134217729 at 8; ",
    },
    Case {
        name: "verdicts",
        calls: &[
            (Call::Done(0, 4_294_967_295, b"yes"), "fine"),
            (Call::Done(1, 0, b""), "not-waiting"),
            (Call::Done(18_446_744_073_709_551_615, 0, b""), "no-memory"),
        ],
        notes: "complete 0 4294967295 with yes; complete 1 0 with ; complete 18446744073709551615 0 with ; ",
    },
    Case {
        name: "a fault outside",
        calls: &[(Call::Fault(Fault::Thread), "fine")],
        notes: "fault; ",
    },
];

fn told_text(told: Result<Told, NoMemory>) -> &'static str {
    match told {
        Ok(Told::Fine) => "fine",
        Ok(Told::Full) => "full",
        Ok(Told::Closed) => "closed",
        Ok(Told::NotWaiting) => "not-waiting",
        Err(NoMemory) => "no-memory",
    }
}

fn called(alloc: Global, station: &mut Station<Noting>, call: &Call) -> Result<&'static str, Fail> {
    let mut steps = Steps::<()>::new();
    let told = match call {
        Call::Client(piece) => station.client(piece, &mut steps),
        Call::Broker(piece) => station.broker(piece, &mut steps),
        Call::ClientEnd => station.client_end(&mut steps),
        Call::BrokerEnd => station.broker_end(&mut steps),
        Call::Retake => station.retake(&mut steps),
        Call::Done(request, index, verdict) => {
            let verdict = Blob::copy(alloc, verdict)?;
            station.done(*request, *index, verdict, &mut steps)
        }
        Call::Fault(fault) => {
            station.fault(*fault);
            Ok(Told::Fine)
        }
        Call::Emit => {
            return match station.emit() {
                Emit::Later => Ok("later"),
                _ => Ok("another answer"),
            };
        }
    };
    Ok(told_text(told))
}

#[test]
fn calls_in_turn(rt: HostRuntime) -> Result<(), Fail> {
    for case in CASES {
        let mut station = Station::new(rt.alloc(), Noting::new(rt.alloc()));
        for (at, (call, told)) in case.calls.iter().enumerate() {
            let found = called(rt.alloc(), &mut station, call)?;
            assert_eq!(rt; found, *told, "{}: call {at}", case.name);
        }
        let notes = station.send().ok_or("the notes")?;
        let text = std::str::from_utf8(notes.as_slice()).ok().ok_or("text")?;
        assert_eq!(rt; text, case.notes, "{}", case.name);
        assert!(rt; station.pick().is_none(), "{}", case.name);
    }
    Ok(())
}
