// Answers with no, few, odd and many entries, with ample memory: the whole narrowed body is compared.
use super::*;
use std::alloc::{AllocError, Global};

const ENTRIES: [u32; 6] = [0, 1, 2, 3, 1_000, 100_003];

// What a broker says by turns of three APIs, and what passes of it.
const SAID: [[u8; 6]; 3] = [[0, 0, 0, 0, 0, 9], [0, 60, 0, 0, 0, 0], [0, 1, 0, 0, 0, 13]];

const PASSED: [[u8; 6]; 3] = [[0, 0, 0, 3, 0, 8], [0; 6], [0, 1, 0, 4, 0, 11]];

// A broker's answer with so many entries, and these bytes behind them.
fn said(alloc: Global, entries: u32, rest: &[u8]) -> Result<Vec<u8>, AllocError> {
    let mut bytes = Vec::from_slice(alloc, &[0, 35])?;
    bytes.extend_from_slice(&entries.to_be_bytes())?;
    for place in 0..entries {
        bytes.extend_from_slice(&SAID[(place % 3) as usize])?;
    }
    bytes.extend_from_slice(rest)?;
    Ok(bytes)
}

// What passes of it: each second of three entries doesn't.
fn passed(alloc: Global, entries: u32, rest: &[u8]) -> Result<Vec<u8>, AllocError> {
    let count = entries - entries / 3 - entries % 3 / 2;
    let mut bytes = Vec::from_slice(alloc, &[0, 35])?;
    bytes.extend_from_slice(&count.to_be_bytes())?;
    for place in 0..entries {
        if place % 3 != 1 {
            bytes.extend_from_slice(&PASSED[(place % 3) as usize])?;
        }
    }
    bytes.extend_from_slice(rest)?;
    Ok(bytes)
}

// The spelling of what is left of this answer.
fn narrowed(alloc: Global, version: i16, broker: Vec<u8>) -> Result<Bytes, Fail> {
    let size = broker.len() as u64;
    let body = decode(alloc, 18, version, Dir::Response, Bytes::from_vec(broker)?)?;
    Ok(encode(alloc, &narrow(alloc, body)?, size)?)
}

// With the throttle time of version 2 and without it.
#[test]
fn answers_of_any_length_are_narrowed(rt: HostRuntime) -> Result<(), Fail> {
    for entries in ENTRIES {
        for (version, rest) in [(0, [].as_slice()), (2, [0, 0, 0, 7].as_slice())] {
            let broker = said(rt.alloc(), entries, rest)?;
            let wanted = passed(rt.alloc(), entries, rest)?;
            let got = narrowed(rt.alloc(), version, broker)?;
            assert!(rt; got.as_slice() == wanted.as_slice(), "{entries}, {version}");
        }
    }
    Ok(())
}
