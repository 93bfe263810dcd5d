//! Lists of the least, odd and great sizes with ample memory: each call's whole answer is compared.
use super::*;
use bytes::Bytes;
use kp_schema::Dir;
use std::alloc::{AllocError, Global};
use std::test::*;
use wire_types::Writer;

const ENTRIES: [u32; 6] = [0, 1, 3, 1_000, 65_537, 100_003];

// How many bytes there are, and the first place where they aren't the wanted ones.
type Found = (usize, Option<usize>);

fn found(got: &[u8], wanted: &[u8]) -> Found {
    if got == wanted {
        return (got.len(), None);
    }
    let place = got.iter().zip(wanted).position(|(a, b)| a != b);
    let place = place.unwrap_or(got.len().min(wanted.len()));
    (got.len(), Some(place))
}

// A body by its items and its size, and by its bytes as `encode` and `append` spell them.
type Spelled = (usize, u64, Found, Found);

fn all_of(items: usize, size: usize) -> Result<Spelled, EncodeFault> {
    Ok((items, size as u64, (size, None), (size, None)))
}

fn spelled_as(alloc: Global, body: &Body, wanted: &[u8]) -> Result<Spelled, EncodeFault> {
    let encoded = encode(alloc, body, wanted.len() as u64)?;
    let encoded = found(encoded.as_slice(), wanted);
    let mut out = Writer::new(alloc);
    let appended = match (out.put_i8(7), append(&mut out, body)) {
        (Ok(()), Ok(())) => &out.as_slice()[1.min(out.len())..],
        _ => return Err(EncodeFault::NoMemory),
    };
    Ok((
        body.items().len(),
        body.size(),
        encoded,
        found(appended, wanted),
    ))
}

// Which entries of a list are meant.
#[derive(Clone, Copy, Debug, PartialEq, Eq)]
enum Which {
    All,
    Even,
    Odd,
}

fn is_meant(which: Which, place: u32) -> bool {
    match which {
        Which::All => true,
        Which::Even => place % 2 == 0,
        Which::Odd => place % 2 == 1,
    }
}

fn count_of(which: Which, entries: u32) -> u32 {
    match which {
        Which::All => entries,
        Which::Even => entries - entries / 2,
        Which::Odd => entries / 2,
    }
}

// The key of an entry tells its place, as far as it can.
fn key_of(place: u32) -> i16 {
    (place % 32_749) as i16
}

// An ApiVersions response with those of so many entries.
fn versions_of(alloc: Global, entries: u32, which: Which) -> Result<Vec<u8>, AllocError> {
    let mut bytes = Vec::from_slice(alloc, &[0, 0])?;
    bytes.extend_from_slice(&count_of(which, entries).to_be_bytes())?;
    for place in 0..entries {
        if is_meant(which, place) {
            bytes.extend_from_slice(&key_of(place).to_be_bytes())?;
            bytes.extend_from_slice(&[0, 1, 0, 2])?;
        }
    }
    Ok(bytes)
}

fn read_versions(alloc: Global, bytes: &[u8]) -> Result<Body, Fail> {
    let bytes = Bytes::copy_from_slice(alloc, bytes)?;
    let body = decode(alloc, 18, 0, Dir::Response, bytes);
    match body {
        Ok(body) => Ok(body),
        Err(fault) => Err(fault)?,
    }
}

#[test]
fn lists_of_any_length_are_read_and_spelled_again(rt: HostRuntime) -> Result<(), Fail> {
    for entries in ENTRIES {
        let bytes = versions_of(rt.alloc(), entries, Which::All)?;
        let body = read_versions(rt.alloc(), bytes.as_slice())?;
        assert_eq!(rt;
            (entries, spelled_as(rt.alloc(), &body, bytes.as_slice())),
            (entries, all_of(2 + 3 * entries as usize, bytes.len()))
        );
    }
    Ok(())
}

#[test]
fn entries_of_lists_of_any_length_are_kept(rt: HostRuntime) -> Result<(), Fail> {
    for entries in ENTRIES {
        let bytes = versions_of(rt.alloc(), entries, Which::All)?;
        for which in [Which::Even, Which::Odd] {
            let mut keep = Vec::new(rt.alloc());
            for place in 0..entries {
                keep.push(is_meant(which, place))?;
            }
            let wanted = versions_of(rt.alloc(), entries, which)?;
            let items = 2 + 3 * count_of(which, entries) as usize;
            let mut body = read_versions(rt.alloc(), bytes.as_slice())?;
            let retained = body.retain(&[1], keep.as_slice());
            assert_eq!(rt; (entries, which, retained), (entries, which, Ok(())));
            assert_eq!(rt;
                (
                    entries,
                    which,
                    spelled_as(rt.alloc(), &body, wanted.as_slice())
                ),
                (entries, which, all_of(items, wanted.len()))
            );
        }
    }
    Ok(())
}

// The last entry is found, and one behind it isn't. A change of it changes its bytes alone.
#[test]
fn the_last_entry_is_found_and_changed(rt: HostRuntime) -> Result<(), Fail> {
    for last in [0u32, 2, 999, 4_096, 20_002] {
        let mut wanted = versions_of(rt.alloc(), last + 1, Which::All)?;
        let mut body = read_versions(rt.alloc(), wanted.as_slice())?;
        assert_eq!(rt;
            (last, body.get(&[1, last, 0])),
            (last, Ok(Some(Item::Number(key_of(last) as i64))))
        );
        assert_eq!(rt; (last, body.get(&[1, last + 1, 0])), (last, Ok(None)));
        let set = body.set(&[1, last, 2], Item::Number(9));
        assert_eq!(rt; (last, set), (last, Ok(())));
        wanted.pop();
        wanted.push(9)?;
        assert_eq!(rt;
            (last, spelled_as(rt.alloc(), &body, wanted.as_slice())),
            (last, all_of(5 + 3 * last as usize, wanted.len()))
        );
    }
    Ok(())
}

#[test]
fn lists_are_built_by_items_of_their_fields(rt: HostRuntime) -> Result<(), Fail> {
    for entries in [0, 1, 3, 1_000, 20_003] {
        let mut builder = Builder::new(rt.alloc(), 18, 0, Dir::Response);
        builder.put(Item::Number(0))?;
        builder.put(Item::Entries(Some(entries)))?;
        for place in 0..entries {
            builder.put(Item::Number(key_of(place) as i64))?;
            builder.put(Item::Number(1))?;
            builder.put(Item::Number(2))?;
        }
        let body = builder.finish()?;
        let wanted = versions_of(rt.alloc(), entries, Which::All)?;
        assert_eq!(rt;
            (entries, spelled_as(rt.alloc(), &body, wanted.as_slice())),
            (entries, all_of(2 + 3 * entries as usize, wanted.len()))
        );
    }
    Ok(())
}

#[test]
fn lists_are_built_by_items_of_the_body(rt: HostRuntime) -> Result<(), Fail> {
    for entries in [0, 1, 3, 1_000, 20_003] {
        let mut builder = Builder::new(rt.alloc(), 18, 0, Dir::Response);
        builder.push(Primitive::Int16(0))?;
        builder.push(Primitive::Count(Some(entries)))?;
        for place in 0..entries {
            builder.push(Primitive::Int16(key_of(place)))?;
            builder.push(Primitive::Int16(1))?;
            builder.push(Primitive::Int16(2))?;
        }
        let body = builder.finish()?;
        let wanted = versions_of(rt.alloc(), entries, Which::All)?;
        assert_eq!(rt;
            (entries, spelled_as(rt.alloc(), &body, wanted.as_slice())),
            (entries, all_of(2 + 3 * entries as usize, wanted.len()))
        );
    }
    Ok(())
}
