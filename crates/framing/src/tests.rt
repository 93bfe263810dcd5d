use super::*;
use bytes::Bytes;
use std::alloc::Global;
use std::test::*;
use wire_types::{NoMemory, PutFault, Writer};

// What a framer is to say.
enum Said {
    Frame(&'static [u8]),
    Wait,
    BadSize(u64, i32),
}

// A piece, all that is said after it, and how many bytes are left then.
struct Step {
    piece: &'static [u8],
    said: &'static [Said],
    rest: u64,
}

const ONE: [u8; 8] = [0; 8];

const TWO: [u8; 9] = [1, 2, 3, 4, 5, 6, 7, 8, 9];

// With sizes from 8 to 104857600. Each row is a stream.
const STREAMS: [&[Step]; 4] = [
    &[Step {
        piece: &[0x06, 0x40, 0, 0],
        said: &[Said::Wait],
        rest: 4,
    }],
    &[Step {
        piece: &[0x06, 0x40, 0, 1],
        said: &[Said::BadSize(0, 104857601)],
        rest: 4,
    }],
    // A bad size behind a frame, and given again after more bytes.
    &[
        Step {
            piece: &[0, 0, 0, 8, 0, 0, 0, 0, 0, 0, 0, 0, 0, 0, 0, 7],
            said: &[Said::Frame(&ONE), Said::BadSize(12, 7)],
            rest: 4,
        },
        Step {
            piece: &[0, 0, 0, 8],
            said: &[Said::BadSize(12, 7)],
            rest: 8,
        },
    ],
    // A frame that is split inside its size, and a frame and a half behind it.
    &[
        Step {
            piece: &[0, 0],
            said: &[Said::Wait],
            rest: 2,
        },
        Step {
            piece: &[0, 8, 0, 0, 0, 0, 0, 0, 0, 0, 0, 0, 0, 9, 1, 2, 3, 4],
            said: &[Said::Frame(&ONE), Said::Wait],
            rest: 8,
        },
        Step {
            piece: &[5, 6, 7, 8, 9],
            said: &[Said::Frame(&TWO), Said::Wait],
            rest: 0,
        },
    ],
];

fn next_of(said: &Said) -> Next {
    match said {
        Said::Frame(bytes) => Next::Frame(Bytes::from_static(*bytes)),
        Said::Wait => Next::Wait,
        Said::BadSize(at, size) => Next::BadSize {
            at: *at,
            size: *size,
        },
    }
}

#[test]
fn says_what_comes_next(rt: HostRuntime) -> Result<(), Fail> {
    for (row, stream) in STREAMS.iter().enumerate() {
        let mut framer = Framer::new(rt.alloc(), 8, 104857600);
        for step in *stream {
            framer.feed(step.piece).ok().ok_or("memory")?;
            for said in step.said {
                let next = framer.next().ok().ok_or("memory")?;
                assert_eq!(rt; (row, next), (row, next_of(said)), "{:?}", step.piece);
            }
            assert_eq!(rt;
                (row, step.piece, framer.rest()),
                (row, step.piece, step.rest)
            );
        }
    }
    Ok(())
}

// Sizes of frames and of the pieces that they come in: the least, odd and great ones.
const AMPLE: [(usize, usize); 7] = [
    (8, 1),
    (9, 4),
    (4_097, 4_097),
    (65_536, 65_535),
    (70_000, 1_000),
    (1_048_577, 1_048_576),
    (3_145_729, 70_001),
];

// Feeds a frame of these bytes in pieces of this size, its own size in front.
fn feed_frame(framer: &mut Framer, bytes: &[u8], piece: usize) -> Result<(), NoMemory> {
    let size = (bytes.len() as u64).to_be_bytes();
    framer.feed(size.split_at(4).1)?;
    for part in bytes.chunks(piece.max(1)) {
        framer.feed(part)?;
    }
    Ok(())
}

// Memory suffices for frames and pieces of any size.
#[test]
fn gives_frames_of_any_size(rt: HostRuntime) -> Result<(), Fail> {
    let mut framer = Framer::new(rt.alloc(), 8, 104857600);
    for (size, piece) in AMPLE {
        let bytes = vec![in rt.alloc(); 7; size]?;
        feed_frame(&mut framer, bytes.as_slice(), piece)
            .ok()
            .ok_or("memory")?;
        assert_eq!(rt;
            Some(framer.rest()),
            (size as u64).checked_add(4),
            "size {size}"
        );
        match framer.next().ok().ok_or("memory")? {
            Next::Frame(frame) => assert!(rt; frame.as_slice() == bytes.as_slice(), "size {size}"),
            other => assert!(rt; false, "size {size}: {other:?}"),
        }
        assert_eq!(rt; framer.rest(), 0, "size {size}");
    }
    framer.feed(&[0, 0, 0]).ok().ok_or("memory")?;
    assert_eq!(rt; framer.rest(), 3);
    Ok(())
}

// Heads are read in front of bodies of any size.
#[test]
fn reads_heads_of_any_body(rt: HostRuntime) -> Result<(), Fail> {
    for (size, _) in AMPLE {
        let body = vec![in rt.alloc(); 7; size]?;
        let mut request = Vec::new(rt.alloc());
        request.extend_from_slice(&[0, 12, 0, 0, 0, 0, 0, 9, 0, 1, b'c'])?;
        request.extend_from_slice(body.as_slice())?;
        let frame = Bytes::from_vec(request)?;
        let (head, rest) = RequestHead::read(&frame).ok().ok_or("a head")?;
        assert_eq!(rt;
            (head.key, head.version, head.correlation_id),
            (12, 0, 9),
            "size {size}"
        );
        assert_eq!(rt;
            head.client_id,
            Some(Bytes::from_static(b"c")),
            "size {size}"
        );
        assert!(rt; rest.as_slice() == body.as_slice(), "size {size}");
        let mut response = Vec::new(rt.alloc());
        response.extend_from_slice(&[0, 0, 0, 9])?;
        response.extend_from_slice(body.as_slice())?;
        let frame = Bytes::from_vec(response)?;
        let read = ResponseHead::read(&frame).ok().ok_or("memory")?;
        let (head, rest) = read.ok_or("a head")?;
        assert_eq!(rt; head.correlation_id, 9, "size {size}");
        assert!(rt; rest.as_slice() == body.as_slice(), "size {size}");
    }
    Ok(())
}

// A frame, and the key, version, correlation id, client id and body in it.
struct Request {
    frame: &'static [u8],
    start: (i16, i16, i32),
    client_id: Option<&'static [u8]>,
    body: &'static [u8],
}

const REQUESTS: [Request; 3] = [
    Request {
        frame: &[0, 18, 0, 1, 0, 0, 0, 7, 0xff, 0xff],
        start: (18, 1, 7),
        client_id: None,
        body: &[],
    },
    Request {
        frame: &[0, 3, 0, 4, 0xff, 0xff, 0xff, 0xff, 0, 0, 1],
        start: (3, 4, -1),
        client_id: Some(&[]),
        body: &[1],
    },
    Request {
        frame: &[0, 19, 0, 0, 0, 0, 1, 0, 0, 3, b'a', b'd', b'm', 0, 0, 0, 0],
        start: (19, 0, 256),
        client_id: Some(b"adm"),
        body: &[0, 0, 0, 0],
    },
];

const NO_REQUESTS: [(&'static [u8], HeadFault); 5] = [
    (&[], HeadFault::Short),
    (&[0, 18, 0, 0, 0, 0, 0], HeadFault::Short),
    (&[0, 18, 0, 0, 0, 0, 0, 1], HeadFault::BadClientId),
    (&[0, 18, 0, 0, 0, 0, 0, 1, 0, 2, 65], HeadFault::BadClientId),
    (
        &[0, 18, 0, 0, 0, 0, 0, 1, 0xff, 0xfe],
        HeadFault::BadClientId,
    ),
];

fn spelled(alloc: Global, head: &RequestHead, body: &Bytes) -> Result<Bytes, PutFault> {
    let mut out = Writer::new(alloc);
    head.write(&mut out)?;
    out.put_all(body.as_slice())?;
    Ok(out.finish()?)
}

#[test]
fn heads_of_requests(rt: HostRuntime) -> Result<(), Fail> {
    for (row, request) in REQUESTS.iter().enumerate() {
        let frame = Bytes::from_static(request.frame);
        assert_eq!(rt; (row, start(frame.as_slice())), (row, Some(request.start)));
        let (head, body) = RequestHead::read(&frame).ok().ok_or("a head")?;
        assert_eq!(rt;
            (row, (head.key, head.version, head.correlation_id)),
            (row, request.start)
        );
        let client_id = head.client_id.as_ref().map(|id| id.as_slice());
        assert_eq!(rt; (row, client_id), (row, request.client_id));
        assert_eq!(rt; (row, body.as_slice()), (row, request.body));
        let again = spelled(rt.alloc(), &head, &body).ok().ok_or("memory")?;
        assert_eq!(rt; (row, again.as_slice()), (row, request.frame));
    }
    Ok(())
}

#[test]
fn frames_with_no_head(rt: HostRuntime) {
    for (frame, fault) in NO_REQUESTS {
        let read = RequestHead::read(&Bytes::from_static(frame));
        assert_eq!(rt; read, Err(fault), "{frame:?}");
    }
}

// A client id has 32,767 bytes at most.
#[test]
fn the_longest_client_id(rt: HostRuntime) -> Result<(), Fail> {
    let text = vec![in rt.alloc(); b'c'; 32_768]?;
    let longest = text.as_slice().split_at(32_767).0;
    let mut head = RequestHead {
        key: 12,
        version: 0,
        correlation_id: 1,
        client_id: Some(Bytes::copy_from_slice(rt.alloc(), longest)?),
    };
    let frame = spelled(rt.alloc(), &head, &Bytes::from_static(&[9]))
        .ok()
        .ok_or("memory")?;
    assert_eq!(rt; frame.len(), 8 + 2 + 32_767 + 1);
    assert_eq!(rt;
        frame.as_slice().split_at(10).0,
        [0, 12, 0, 0, 0, 0, 0, 1, 0x7f, 0xff].as_slice()
    );
    let (read, body) = RequestHead::read(&frame).ok().ok_or("a head")?;
    assert_eq!(rt; read, head);
    assert_eq!(rt; body.as_slice(), [9].as_slice());

    head.client_id = Some(Bytes::copy_from_slice(rt.alloc(), text.as_slice())?);
    let mut out = Writer::new(rt.alloc());
    assert_eq!(rt;
        head.write(&mut out),
        Err(PutFault::TooLong { length: 32_768 })
    );
    assert_eq!(rt; out.len(), 0);
    Ok(())
}

#[test]
fn heads_of_responses(rt: HostRuntime) -> Result<(), Fail> {
    let frame = Bytes::from_static(&[0, 0, 0, 13, 5, 6]);
    let read = ResponseHead::read(&frame).ok().ok_or("memory")?;
    let (head, body) = read.ok_or("a head")?;
    assert_eq!(rt; head.correlation_id, 13);
    assert_eq!(rt; body.as_slice(), [5, 6].as_slice());
    let mut out = Writer::new(rt.alloc());
    head.write(&mut out).ok().ok_or("memory")?;
    assert_eq!(rt; out.as_slice(), [0, 0, 0, 13].as_slice());
    assert_eq!(rt;
        ResponseHead::read(&Bytes::from_static(&[0, 0, 0])),
        Ok(None)
    );
    Ok(())
}
