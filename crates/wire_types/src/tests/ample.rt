// A writer with ample memory, at the least, odd and great sizes: all its bytes are compared.
use super::*;
use std::alloc::{AllocError, Global};

const SIZES: [usize; 6] = [0, 1, 3, 1_000, 65_537, 3_000_003];

const PART: [u8; 16] = *b"\x00\x01\x0f\x10\x7f\x80\xff\xf0\x2d\x0a\x20\xab\xcd\xef\x5a\xa5";

// These bytes, and so many behind them.
fn behind(alloc: Global, front: &[u8], size: usize) -> Result<Vec<u8>, AllocError> {
    let mut bytes = Vec::from_slice(alloc, front)?;
    for _ in 0..size / 16 {
        bytes.extend_from_slice(&PART)?;
    }
    bytes.extend_from_slice(&PART[..size % 16])?;
    Ok(bytes)
}

// A writer that holds so many bytes, with room for more or not.
fn filled(alloc: Global, size: usize, room: usize) -> Result<Writer, Fail> {
    let bytes = behind(alloc, &[], size)?;
    let mut out = Writer::with_capacity(alloc, room)
        .ok()
        .ok_or("with_capacity")?;
    out.put_all(bytes.as_slice()).ok().ok_or("put_all")?;
    Ok(out)
}

// A writer keeps what it was given behind what stood there, and hands it out whole.
#[test]
fn writers_of_every_size_are_filled(rt: HostRuntime) -> Result<(), Fail> {
    let alloc = rt.alloc();
    for size in SIZES {
        let bytes = behind(alloc, &[], size)?;
        let shared = filled(alloc, size, size)?.finish().ok().ok_or("finish")?;
        assert!(rt; shared.as_slice() == bytes.as_slice(), "finish, {size}");
        let owned = filled(alloc, size, 0)?.into_vec();
        assert!(rt; owned.as_slice() == bytes.as_slice(), "into_vec, {size}");

        let mut out = filled(alloc, 3, 0)?;
        out.clear();
        out.put_i8(7).ok().ok_or("put_i8")?;
        out.put_bytes(Some(bytes.as_slice()))
            .ok()
            .ok_or("put_bytes")?;
        let length = (size as u32).to_be_bytes();
        let mut wanted = vec![in alloc; 7]?;
        wanted.extend_from_slice(&length)?;
        wanted.extend_from_slice(bytes.as_slice())?;
        assert!(rt; out.as_slice() == wanted.as_slice(), "put_bytes, {size}");
        out.truncate(size / 2);
        out.put_all(bytes.as_slice()).ok().ok_or("put_all")?;
        wanted.truncate(size / 2);
        wanted.extend_from_slice(bytes.as_slice())?;
        assert!(rt; out.as_slice() == wanted.as_slice(), "truncate, {size}");
    }
    Ok(())
}

// A text has at most 32,767 bytes. One that is refused leaves what stood there.
#[test]
fn texts_up_to_the_greatest_are_put(rt: HostRuntime) -> Result<(), Fail> {
    let alloc = rt.alloc();
    let long = behind(alloc, &[], 32_768)?;
    for (size, length) in [(0, [0, 0]), (1_000, [3, 0xe8]), (32_767, [0x7f, 0xff])] {
        let text = behind(alloc, &[], size)?;
        let wanted = behind(alloc, &length, size)?;
        let mut out = Writer::new(alloc);
        assert_eq!(rt; out.put_string(Some(text.as_slice())), Ok(()));
        let put = out.put_string(Some(long.as_slice()));
        assert_eq!(rt; put, Err(PutFault::TooLong { length: 32_768 }));
        assert!(rt; out.as_slice() == wanted.as_slice(), "{size}");
    }
    Ok(())
}
