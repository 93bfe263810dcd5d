// Lines and answers with ample memory, at the least, odd and great lengths: the whole answer is compared.
use crate::{Answer, Line, LineFault, print, read_line};
use bytes::Bytes;
use kp_edge::Blob;
use std::alloc::{AllocError, Global};
use std::test::*;
use wire_types::Writer;

const SIZES: [usize; 6] = [0, 1, 3, 1_000, 65_537, 1_048_577];

const PART: [u8; 16] = *b"\x00\x01\x0f\x10\x7f\x80\xff\xf0\x2d\x0a\x20\xab\xcd\xef\x5a\xa5";

const DIGITS: [u8; 32] = *b"00010f107f80fff02d0a20abcdef5aa5";

// So many bytes.
fn bytes_of(alloc: Global, size: usize) -> Result<Vec<u8>, AllocError> {
    let mut bytes = Vec::new(alloc);
    for _ in 0..size / 16 {
        bytes.extend_from_slice(&PART)?;
    }
    bytes.extend_from_slice(&PART[..size % 16])?;
    Ok(bytes)
}

// These words, and the same bytes as digits behind them.
fn text_of(alloc: Global, words: &[u8], size: usize) -> Result<Vec<u8>, AllocError> {
    let mut text = Vec::from_slice(alloc, words)?;
    if size == 0 {
        text.push(b'-')?;
    }
    for _ in 0..size / 16 {
        text.extend_from_slice(&DIGITS)?;
    }
    text.extend_from_slice(&DIGITS[..2 * (size % 16)])?;
    Ok(text)
}

// The first place where the bytes aren't the wanted ones.
fn differs_at(got: &[u8], wanted: &[u8]) -> Option<usize> {
    if got == wanted {
        return None;
    }
    let place = got.iter().zip(wanted).position(|(a, b)| a != b);
    Some(place.unwrap_or(got.len().min(wanted.len())))
}

// A line by its word, its numbers, how many bytes it has, and where they aren't the wanted ones.
type Read = (&'static str, u64, u32, usize, Option<usize>);

fn with_bytes(word: &'static str, bytes: &Blob, wanted: &[u8]) -> Read {
    let found = bytes.as_slice();
    (word, 0, 0, found.len(), differs_at(found, wanted))
}

fn read_as(read: &Result<Line, LineFault>, wanted: &[u8]) -> Read {
    match read {
        Ok(Line::Client(bytes)) => with_bytes("client", bytes, wanted),
        Ok(Line::Broker(bytes)) => with_bytes("broker", bytes, wanted),
        Ok(
            Line::Done {
                request,
                index,
                verdict,
            },
        ) => {
            let (_, _, _, length, place) = with_bytes("done", verdict, wanted);
            ("done", *request, *index, length, place)
        }
        Ok(_) => ("another line", 0, 0, 0, None),
        Err(LineFault::BadLine) => ("bad line", 0, 0, 0, None),
        Err(LineFault::NoMemory) => ("no memory", 0, 0, 0, None),
    }
}

#[test]
fn pieces_of_any_length_are_read(rt: HostRuntime) -> Result<(), Fail> {
    for size in SIZES {
        let bytes = bytes_of(rt.alloc(), size)?;
        for (words, word) in [
            (b"client ".as_slice(), "client"),
            (b"broker ".as_slice(), "broker"),
        ] {
            let text = text_of(rt.alloc(), words, size)?;
            let read = read_line(rt.alloc(), text.as_slice());
            assert_eq!(rt;
                (size, read_as(&read, bytes.as_slice())),
                (size, (word, 0, 0, size, None))
            );
        }
    }
    Ok(())
}

const BAD: Read = ("bad line", 0, 0, 0, None);

// A verdict has at most 8,388,608 bytes.
#[test]
fn verdicts_up_to_the_greatest_are_read(rt: HostRuntime) -> Result<(), Fail> {
    for (size, fits) in [
        (0, true),
        (1, true),
        (1_000, true),
        (65_537, true),
        (1_048_577, true),
        (8_388_608, true),
        (8_388_609, false),
    ] {
        let bytes = bytes_of(rt.alloc(), size)?;
        let text = text_of(rt.alloc(), b"done 18446744073709551615 4294967295 ", size)?;
        let read = read_line(rt.alloc(), text.as_slice());
        let done = ("done", u64::MAX, u32::MAX, size, None);
        let wanted = if fits { done } else { BAD };
        assert_eq!(rt; (size, read_as(&read, bytes.as_slice())), (size, wanted));
    }
    Ok(())
}

#[test]
fn answers_of_any_length_are_printed(rt: HostRuntime) -> Result<(), Fail> {
    for size in SIZES {
        let bytes = Bytes::from_vec(bytes_of(rt.alloc(), size)?)?;
        let key = Blob::from_vec(bytes_of(rt.alloc(), size)?);
        let ticket = Answer::Ticket {
            request: u64::MAX,
            index: u32::MAX,
            key,
        };
        for (answer, words) in [
            (Answer::ToClient(bytes.clone()?), b"to-client ".as_slice()),
            (Answer::ToBroker(bytes), b"to-broker ".as_slice()),
            (
                ticket,
                b"ticket 18446744073709551615 4294967295 ".as_slice(),
            ),
        ] {
            let wanted = text_of(rt.alloc(), words, size)?;
            let mut out = Writer::new(rt.alloc());
            let printed = print(&answer, &mut out);
            assert_eq!(rt; (size, printed), (size, Ok(())));
            assert_eq!(rt; differs_at(out.as_slice(), wanted.as_slice()), None);
        }
    }
    Ok(())
}
