ghost use Rattle.std.specs.Prelude.{◌<◌, ◌≤◌};

use super::*;
use std::alloc::Global;
use std::process::Abort;

// The least, odd and great sizes.
const SIZES: [usize; 6] = [0, 1, 4_097, 65_537, 1_048_577, 3_000_001];

// So many bytes, of which each tells its place as far as a byte can.
fn marked(rt: &impl Abort, alloc: Global, size: usize) -> Blob {
    let mut bytes = Vec::new(alloc);
    for place in 0..size {
        bytes.push((place % 251) as u8).expect(rt, "memory");
    }
    Blob::from_vec(bytes)
}

// Each object in memory takes or gives bytes of every size.
#[test]
fn objects_in_memory_have_room_for_every_size(rt: HostRuntime) {
    let alloc = rt.alloc();
    for size in SIZES {
        let whole = marked(&rt, alloc, size);
        let want = whole.as_slice();
        let copy = Blob::copy(alloc, want).expect(&rt, "memory");
        assert!(rt; copy.as_slice() == want, "Blob, {size}");

        let mut sure = SureSink::new(alloc, size as u64).expect(&rt, "memory");
        assert_eq!(rt; sure.write(want), Ok(size));
        assert!(rt; sure.bytes() == want, "SureSink, {size}");

        let mut sink = MemSink::new(alloc, u32::MAX, size as u64, Vec::new(alloc)).expect(
            &rt, "memory",
        );
        assert_eq!(rt; sink.write(want), Ok(size));
        assert!(rt; sink.bytes() == want, "MemSink, {size}");

        let name = Blob::copy(alloc, b"f").expect(&rt, "memory");
        let listed = vec![in alloc; (name, copy)].expect(&rt, "memory");
        let mut files = MemFiles::new(listed, Vec::new(alloc));
        let read = files.read(alloc, b"f", size).expect(&rt, "memory");
        assert!(rt; read.as_slice() == want, "MemFiles, {size}");
    }
    assert!(rt; SureSink::new(alloc, u64::MAX).is_err());
}

// What one read of a source gives: its bytes, or none for a failure.
fn one_read<S: Source>(
    rt: &impl Abort,
    alloc: Global,
    source: &mut S,
    room: usize,
) -> Option<Vec<u8>>
    requires { (0 < room) × (room ≤ 8) }
{
    let mut buf = [0u8; 8];
    match source.read(&mut buf[..room]) {
        Ok(n) => Some(Vec::from_slice(alloc, &buf[..n]).expect(rt, "memory")),
        Err(Failed) => None,
    }
}

// Read 0 gives its piece, read 1 counts its 0 as 1, read 2 fails, the others give what fits, and behind the end the
// listed read 6 doesn't fail.
#[test]
fn a_source_in_memory_gives_its_pieces(rt: HostRuntime) {
    let alloc = rt.alloc();
    let pieces = vec![in alloc; 2, 0, 7].expect(&rt, "memory");
    let failing = vec![in alloc; 2, 6].expect(&rt, "memory");
    let bytes = Blob::copy(alloc, b"abcdefghijk").expect(&rt, "memory");
    let mut source = MemSource::new(bytes, pieces, failing);
    for want in [
        Some("ab"),
        Some("c"),
        None,
        Some("defg"),
        Some("hijk"),
        Some(""),
        Some(""),
    ] {
        let given = one_read(&rt, alloc, &mut source, 4);
        assert_eq!(rt;
            given.as_ref().map(|v| v.as_slice()),
            want.map(|s| s.as_bytes())
        );
    }
    assert_eq!(rt; source.faults(), 1);
}

// `/dev/zero` has no end, `/` is a directory, and the last name is no text.
#[test]
fn files_of_the_machine_are_read_to_the_limit(rt: HostRuntime) {
    let alloc = rt.alloc();
    let mut files = HostFiles::new(&rt).expect(&rt, "memory");
    for size in SIZES {
        let read = files.read(alloc, b"/dev/zero", size).expect(&rt, "memory");
        let want = vec![in alloc; 0u8; size].expect(&rt, "memory");
        assert!(rt; read.as_slice() == want.as_slice(), "{size}");
    }
    assert_eq!(rt;
        files.read(alloc, b"/dev/null", 3).map(|read| read.len()),
        Ok(0)
    );
    for name in [
        b"/no/such/file".as_slice(),
        b"/".as_slice(),
        b"\xff".as_slice(),
    ] {
        assert!(rt; files.read(alloc, name, 3).err() == Some(FileFault::Failed));
    }
    assert_eq!(rt; files.faults(), 3);
}

fn sent<T: Send>(value: T) -> T {
    value
}

#[test]
fn the_machines_streams_begin_without_a_fault(rt: HostRuntime) {
    let input = StdIn::new(&rt).expect(&rt, "no memory is taken");
    assert_eq!(rt; input.faults(), 0);
    let mut output = StdOut::new(&rt).expect(&rt, "memory");
    assert_eq!(rt; output.write(b""), Ok(0));
    output.finish();
    assert_eq!(rt; output.faults(), 0);

    // Steps take no bytes, and a thread can have them.
    let mut steps: Steps<u64> = sent(Steps::new());
    steps.tick();
    assert_eq!(rt; size_of::<Steps<u64>>(), 0);

    let end = End::Mismatch {
        expected: i32::MAX,
        found: i32::MIN,
    };
    let text = end.to_string(rt.alloc()).expect(&rt, "memory");
    assert_eq!(rt;
        text.as_str(),
        "mismatch expected=2147483647 found=-2147483648"
    );
}
