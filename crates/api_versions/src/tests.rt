use super::*;
use bytes::Bytes;
use kp_schema::Dir;
use std::test::*;
use tree_codec::{decode, encode};

mod ample;

// Correlation ids, and their refusals byte by byte.
const REFUSALS: [(i32, [u8; 20]); 4] = [
    (
        1,
        [
            0, 0, 0, 16, 0, 0, 0, 1, 0, 35, 0, 0, 0, 1, 0, 18, 0, 0, 0, 2,
        ],
    ),
    (
        0,
        [
            0, 0, 0, 16, 0, 0, 0, 0, 0, 35, 0, 0, 0, 1, 0, 18, 0, 0, 0, 2,
        ],
    ),
    (
        -1,
        [
            0, 0, 0, 16, 0xff, 0xff, 0xff, 0xff, 0, 35, 0, 0, 0, 1, 0, 18, 0, 0, 0, 2,
        ],
    ),
    (
        0x0102_0304,
        [
            0, 0, 0, 16, 1, 2, 3, 4, 0, 35, 0, 0, 0, 1, 0, 18, 0, 0, 0, 2,
        ],
    ),
];

#[test]
fn each_refusal_has_its_bytes(rt: HostRuntime) -> Result<(), Fail> {
    for (correlation_id, bytes) in &REFUSALS {
        assert_eq!(rt; refusal(*correlation_id), *bytes);
    }
    Ok(())
}

// A broker's answer, and what passes of it.
const NARROWED: [(&'static str, i16, &'static [u8], &'static [u8]); 4] = [
    (
        "one of three stays",
        0,
        &[
            0, 0, 0, 0, 0, 3, 0, 0, 0, 0, 0, 9, 0, 0x3c, 0, 0, 0, 0, 0, 1, 0, 0x0c, 0, 0x0d,
        ],
        &[0, 0, 0, 0, 0, 1, 0, 0, 0, 3, 0, 8],
    ),
    (
        "null stays null",
        0,
        &[0, 0, 0xff, 0xff, 0xff, 0xff],
        &[0, 0, 0xff, 0xff, 0xff, 0xff],
    ),
    (
        "an entry from 3 to 1 meets nothing, and the throttle time stays",
        1,
        &[
            0, 0, 0, 0, 0, 2, 0, 0x0c, 0, 3, 0, 1, 0, 0x12, 0, 0, 0, 9, 0, 0, 0, 7,
        ],
        &[0, 0, 0, 0, 0, 1, 0, 0x12, 0, 0, 0, 2, 0, 0, 0, 7],
    ),
    (
        "an entry that touches in one version",
        2,
        &[0, 0x23, 0, 0, 0, 1, 0, 1, 0, 0x0b, 0, 0x10, 0, 0, 0, 0],
        &[0, 0x23, 0, 0, 0, 1, 0, 1, 0, 0x0b, 0, 0x0b, 0, 0, 0, 0],
    ),
];

#[test]
fn each_answer_is_narrowed(rt: HostRuntime) -> Result<(), Fail> {
    for (name, version, broker, wanted) in &NARROWED {
        let bytes = Bytes::from_static(*broker);
        let body = decode(rt.alloc(), 18, *version, Dir::Response, bytes);
        let body = narrow(rt.alloc(), body.ok().ok_or(*name)?);
        let spelled = encode(rt.alloc(), &body.ok().ok_or(*name)?, 64);
        let spelled = spelled.ok().ok_or(*name)?;
        assert_eq!(rt; (*name, spelled.as_slice()), (*name, *wanted));
    }
    Ok(())
}
