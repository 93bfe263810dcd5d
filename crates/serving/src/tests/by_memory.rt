// With ample memory each call does its work, at the least lengths, at odd and at great ones.
use super::*;
use crate::WholeFrame;

const LENGTHS: [usize; 4] = [0, 1, 65_535, 1_048_577];

// These two, one after the other.
fn joined(alloc: Global, head: &[u8], body: &[u8]) -> Result<Bytes, AllocError> {
    let mut frame = Vec::from_slice(alloc, head)?;
    frame.extend_from_slice(body)?;
    Ok(Bytes::from_vec(frame)?)
}

// The frame of these two behind its size.
fn sized(alloc: Global, head: &[u8], body: &[u8]) -> Result<Bytes, AllocError> {
    let frame = joined(alloc, head, body)?;
    let size = (frame.len() as u64).to_be_bytes();
    joined(alloc, size.split_at(4).1, frame.as_slice())
}

// These bytes were told.
fn is_told(got: &Got, wanted: &Bytes) -> bool {
    match got {
        Told::Bytes(bytes) => bytes.as_slice() == wanted.as_slice(),
        _ => false,
    }
}

fn is_ticket(got: &Got, wanted: &[u8]) -> bool {
    match got {
        Told::Ticket(request, index, key) => {
            *request == 0 && *index == 0 && key.as_slice() == wanted
        }
        _ => false,
    }
}

// A request with this body waits for this verdict, and is sent. The first step that goes otherwise, by its name.
fn wrong_request(
    alloc: Global,
    core: &mut Core,
    body: &[u8],
    verdict: &[u8],
) -> Result<Option<&'static str>, AllocError> {
    let got = takes(core, joined(alloc, b"hm..\xff\xfe\xfd\xfc", body)?);
    if !is_wanted(&got, Told::Fine) {
        return Ok(Some("take"));
    }
    if !is_ticket(&picked(alloc, core.pick())?, body) {
        return Ok(Some("pick"));
    }
    let got = completes(alloc, core, 0, 0, verdict)?;
    if !is_wanted(&got, Told::Fine) {
        return Ok(Some("complete"));
    }
    let wanted = sized(alloc, b"hm..\0\0\0\0", body)?;
    if !is_told(&sent(core.send()), &wanted) {
        return Ok(Some("send"));
    }
    Ok(None)
}

// It is answered with this body. The first step that goes otherwise, by its name.
fn wrong_response(
    alloc: Global,
    core: &mut Core,
    body: &[u8],
) -> Result<Option<&'static str>, AllocError> {
    let got = answers(core, joined(alloc, b"\0\0\0\0", body)?);
    if !is_wanted(&got, Told::Fine) {
        return Ok(Some("answer"));
    }
    let wanted = sized(alloc, b"\xff\xfe\xfd\xfc", body)?;
    if !is_told(&emitted(core.emit()), &wanted) {
        return Ok(Some("emit"));
    }
    Ok(None)
}

// The same with bodies and a verdict of this length.
fn wrong_exchange(alloc: Global, length: usize) -> Result<Option<&'static str>, AllocError> {
    let Some(mut core) = opened(alloc, 1) else {
        return Ok(Some("opening"));
    };
    let asked = vec![in alloc; b'c'; length]?;
    let verdict = vec![in alloc; b'v'; length]?;
    let told = vec![in alloc; b'd'; length]?;
    match wrong_request(alloc, &mut core, &asked, &verdict)? {
        Some(step) => Ok(Some(step)),
        None => wrong_response(alloc, &mut core, &told),
    }
}

#[test]
fn exchanges_with_ample_memory(rt: HostRuntime) -> Result<(), Fail> {
    for length in LENGTHS {
        let wrong = wrong_exchange(rt.alloc(), length)?;
        assert_eq!(rt; wrong, None, "{length} bytes");
    }
    Ok(())
}

// A verdict of this length is the response.
fn wrong_verdict(alloc: Global, length: usize) -> Result<Option<&'static str>, AllocError> {
    let Some(mut core) = opened(alloc, 1) else {
        return Ok(Some("opening"));
    };
    let verdict = vec![in alloc; b'v'; length]?;
    let got = takes(&mut core, Bytes::copy_from_slice(alloc, b"h...\0\0\0\x07")?);
    if !is_wanted(&got, Told::Fine) {
        return Ok(Some("take"));
    }
    let got = completes(alloc, &mut core, 0, 0, &verdict)?;
    if !is_wanted(&got, Told::Fine) {
        return Ok(Some("complete"));
    }
    let wanted = sized(alloc, b"\0\0\0\x07", &verdict)?;
    if !is_told(&emitted(core.emit()), &wanted) {
        return Ok(Some("emit"));
    }
    Ok(None)
}

#[test]
fn verdicts_with_ample_memory(rt: HostRuntime) -> Result<(), Fail> {
    for length in LENGTHS {
        let wrong = wrong_verdict(rt.alloc(), length)?;
        assert_eq!(rt; wrong, None, "{length} bytes");
    }
    Ok(())
}

#[test]
fn whole_frames_with_ample_memory(rt: HostRuntime) -> Result<(), Fail> {
    let alloc = rt.alloc();
    for length in LENGTHS {
        let behind = vec![in alloc; b'c'; length]?;
        let wanted = sized(alloc, b"head\x01\x02\x03\x04", &behind)?;
        match WholeFrame::of_parts(alloc, b"head", [1, 2, 3, 4], &behind) {
            Ok(frame) => {
                let is_right = frame.bytes.as_slice() == wanted.as_slice();
                assert!(rt; is_right, "{length} bytes");
            }
            Err(_) => assert!(rt; false, "{length} bytes: no memory"),
        }
    }
    Ok(())
}

// The first 45 bytes of a request that is done at once.
const FORTY_FIVE: &[u8] = b"....\0\0\0\x07ccccccccccccccccccccccccccccccccccccc";

// Sixty-three requests hold 209,715,156 bytes, where their frames share these 3,328,812 bytes. Then one comes with so
// many bytes, and the connection looks so. What was got in place of that.
fn wrong_last(
    alloc: Global,
    frame: &Bytes,
    length: usize,
    want: Want,
    wanted: Look,
) -> Result<Option<(Got, Look)>, AllocError> {
    let Some(mut core) = opened(alloc, 64) else {
        return Ok(Some((Told::Nothing, wanted)));
    };
    if length > frame.len() {
        return Ok(Some((Told::Nothing, wanted)));
    }
    for _ in 0..63 {
        takes(&mut core, frame.clone()?);
    }
    let got = takes(&mut core, frame.slice(0..length)?);
    let look = core.look();
    if is_wanted(&got, want) && look == wanted {
        Ok(None)
    } else {
        Ok(Some((got, look)))
    }
}

fn looks(in_flight: u32, held: u64) -> Look {
    Look {
        over: false,
        dead: false,
        in_flight,
        held,
    }
}

#[test]
fn bytes_find_room_up_to_the_limit(rt: HostRuntime) -> Result<(), Fail> {
    let alloc = rt.alloc();
    let body = vec![in alloc; b'c'; 3_328_804]?;
    let frame = joined(alloc, b"....\0\0\0\x07", &body)?;
    for (length, want, look) in [
        (44, Told::Fine, looks(64, 209_715_200)),
        (
            45,
            Told::Full(63, 209_715_156, FORTY_FIVE),
            looks(63, 209_715_156),
        ),
    ] {
        if let Some((got, seen)) = wrong_last(alloc, &frame, length, want, look)? {
            assert!(rt;
                false,
                "{length} bytes: wanted {want:?}, {look:?}, got {got:?}, {seen:?}"
            );
        }
    }
    Ok(())
}
