// What no clause says: that memory suffices, and which frame is whose in a connection of three sends.
use crate::{AnswerRefusal, Owner, Sends};
use bytes::Bytes;
use std::alloc::Global;

#[derive(Clone, Copy, Debug)]
enum Call {
    // lists the next of the owners
    Push(usize),
    Take,
    Answer(i32),
}

#[derive(Clone, Copy, Debug, PartialEq, Eq)]
enum Told {
    Number(u64),
    Frame(u8),
    Nothing,
    Whose(u64),
    Refused(AnswerRefusal),
    NoMemory,
}

// Two requests' own sends, one that gets no response, and one that a filter asks aside.
const OWNERS: [Owner; 4] = [
    Owner {
        request: 0,
        main: true,
        silent: false,
        before: [0, 12, 0, 0],
    },
    Owner {
        request: 1,
        main: true,
        silent: true,
        before: [0, 0, 0, 3],
    },
    Owner {
        request: 2,
        main: true,
        silent: false,
        before: [0, 12, 0, 0],
    },
    Owner {
        request: 3,
        main: false,
        silent: false,
        before: [0, 3, 0, 4],
    },
];

// From the first send on: each call, what it tells, how many sends wait for an answer then, and the next id.
const FROM_THE_FIRST: &[(Call, Told, u64, i32)] = &[
    (Call::Take, Told::Nothing, 0, 0),
    (
        Call::Answer(0),
        Told::Refused(AnswerRefusal::Unasked { found: 0 }),
        0,
        0,
    ),
    (Call::Push(0), Told::Number(0), 0, 1),
    (
        Call::Answer(0),
        Told::Refused(AnswerRefusal::Unasked { found: 0 }),
        0,
        1,
    ),
    (Call::Push(1), Told::Number(1), 0, 2),
    (Call::Push(2), Told::Number(2), 0, 3),
    (Call::Take, Told::Frame(0), 1, 3),
    // the silent one waits for nothing
    (Call::Take, Told::Frame(1), 1, 3),
    (Call::Take, Told::Frame(2), 2, 3),
    (
        Call::Answer(2),
        Told::Refused(AnswerRefusal::Mismatch {
            expected: 0,
            found: 2,
        }),
        2,
        3,
    ),
    (Call::Answer(0), Told::Whose(0), 1, 3),
    (
        Call::Answer(1),
        Told::Refused(AnswerRefusal::Mismatch {
            expected: 2,
            found: 1,
        }),
        1,
        3,
    ),
    (Call::Answer(2), Told::Whose(2), 0, 3),
    (Call::Push(3), Told::Number(3), 0, 4),
    (Call::Take, Told::Frame(3), 1, 4),
];

// The ids begin anew behind 2^31 - 1, and go on at 0.
const AT_THE_LAST_ID: &[(Call, Told, u64, i32)] = &[
    (Call::Push(0), Told::Number(2_147_483_647), 0, 0),
    (Call::Push(1), Told::Number(2_147_483_648), 0, 1),
    (Call::Push(2), Told::Number(2_147_483_649), 0, 2),
    (Call::Take, Told::Frame(0), 1, 2),
    (Call::Take, Told::Frame(1), 1, 2),
    (Call::Take, Told::Frame(2), 2, 2),
    (Call::Answer(2_147_483_647), Told::Whose(0), 1, 2),
    (Call::Answer(1), Told::Whose(2), 0, 2),
];

// The last number of all, and none behind it.
const AT_THE_LAST_NUMBER: &[(Call, Told, u64, i32)] = &[
    (Call::Push(0), Told::Number(u64::MAX - 1), 0, i32::MAX),
    (Call::Push(2), Told::NoMemory, 0, i32::MAX),
    (Call::Take, Told::Frame(0), 1, i32::MAX),
    (Call::Answer(i32::MAX - 1), Told::Whose(0), 0, i32::MAX),
];

// The frame of the send with this owner: one byte that says whose it is.
fn frame_of(alloc: Global, owner: usize) -> Option<Bytes> {
    let byte = u8::try_from(owner).ok()?;
    Bytes::copy_from_slice(alloc, &[byte]).ok()
}

fn called(alloc: Global, sends: &mut Sends, call: Call) -> Option<Told> {
    match call {
        Call::Push(owner) => {
            let frame = frame_of(alloc, owner)?;
            match sends.push(*OWNERS.get(owner)?, frame) {
                Ok(number) => Some(Told::Number(number)),
                Err(_) => Some(Told::NoMemory),
            }
        }
        Call::Take => match sends.take() {
            Some(frame) => Some(Told::Frame(*frame.as_slice().get(0)?)),
            None => Some(Told::Nothing),
        },
        Call::Answer(id) => match sends.answer(id) {
            Ok(owner) => {
                let known = OWNERS.get(owner.request as usize)?;
                (*known == owner).then_some(Told::Whose(owner.request))
            }
            Err(refusal) => Some(Told::Refused(refusal)),
        },
    }
}

// The sends of a connection that had so many.
fn with_so_many(alloc: Global, count: u64) -> Sends {
    let mut sends = Sends::new(alloc);
    sends.next = count;
    sends
}

// The first of these calls that tells something else, in a connection that had so many sends.
fn wrong_call(alloc: Global, count: u64, calls: &[(Call, Told, u64, i32)]) -> Option<usize> {
    let mut sends = with_so_many(alloc, count);
    for (at, (call, told, waiting, next)) in calls.iter().enumerate() {
        let got = called(alloc, &mut sends, *call);
        if got != Some(*told) || (sends.waiting(), sends.next_id()) != (*waiting, *next) {
            return Some(at);
        }
    }
    None
}

#[test]
fn sends_and_their_answers(rt: HostRuntime) {
    for (count, calls) in [
        (0, FROM_THE_FIRST),
        (2_147_483_647, AT_THE_LAST_ID),
        (u64::MAX - 1, AT_THE_LAST_NUMBER),
    ] {
        let wrong = wrong_call(rt.alloc(), count, calls);
        assert_eq!(rt; wrong, None, "behind {count} sends");
    }
}

// Whether so many that wait at once are taken and answered in their order.
fn are_in_order(alloc: Global, count: u16) -> bool {
    let mut sends = Sends::new(alloc);
    let mut right = true;
    for number in 0..count {
        let told = called(alloc, &mut sends, Call::Push(0));
        right = right && told == Some(Told::Number(u64::from(number)));
    }
    for _ in 0..count {
        right = right && called(alloc, &mut sends, Call::Take) == Some(Told::Frame(0));
    }
    right = right && sends.waiting() == u64::from(count);
    for id in 0..count {
        let told = called(alloc, &mut sends, Call::Answer(i32::from(id)));
        right = right && told == Some(Told::Whose(0));
    }
    right && sends.waiting() == 0
}

#[test]
fn many_sends(rt: HostRuntime) {
    assert!(rt; are_in_order(rt.alloc(), 10_000));
}
