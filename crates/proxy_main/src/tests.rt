use super::*;
use kp_edge::{Blob, MemFiles, MemSink, MemSource, Steps};
use std::alloc::Global;
use std::test::*;

mod by_clusters;
mod by_files;
mod by_rows;

// The calls that are to fail, counted from 0, and the room of the output.
#[derive(Drop)]
struct Faults {
    reads: &'static [u64],
    writes: &'static [u64],
    room: u64,
}

const NONE: Faults = Faults {
    reads: &[],
    writes: &[],
    room: 65_536,
};

fn words_of(alloc: Global, words: &[&str]) -> Result<Vec<String>, Fail> {
    let mut all = Vec::new(alloc);
    for word in words {
        all.push(String::from_str(alloc, word)?)?;
    }
    Ok(all)
}

// Runs the command over a script that is read in pieces of so many bytes, and gives its status and its output.
fn ran(
    alloc: Global,
    words: &[&str],
    script: &str,
    piece: u32,
    faults: &Faults,
) -> Result<(Status, String), Fail> {
    let mut files = MemFiles::new(Vec::new(alloc), Vec::new(alloc));
    ran_with(alloc, words, script, piece, faults, &mut files)
}

// The same with files.
fn ran_with(
    alloc: Global,
    words: &[&str],
    script: &str,
    piece: u32,
    faults: &Faults,
    files: &mut MemFiles,
) -> Result<(Status, String), Fail> {
    let words = words_of(alloc, words)?;
    let pieces = vec![in alloc; piece; script.len()]?;
    let bytes = Blob::copy(alloc, script.as_bytes())?;
    let mut input = MemSource::new(bytes, pieces, Vec::from_slice(alloc, faults.reads)?);
    let mut out = MemSink::new(
        alloc,
        7,
        faults.room,
        Vec::from_slice(alloc, faults.writes)?,
    )?;
    let mut steps = Steps::<()>::new();
    let status = run_command(
        alloc,
        words.as_slice(),
        &mut input,
        &mut out,
        files,
        &mut steps,
    );
    let text = std::str::from_utf8(out.bytes()).ok().ok_or("text")?;
    Ok((status, String::from_str(alloc, text)?))
}

// How the first line that differs is told: its number, what was wanted, and what was found.
fn first_line(alloc: Global, wanted: &str, found: &str) -> Result<String, Fail> {
    let mut others = found.lines();
    for (at, line) in wanted.lines().enumerate() {
        let other = others.next().unwrap_or("nothing");
        if line != other {
            return Ok(format!(in alloc; "line {}: wanted {line}, got {other}", at + 1)?);
        }
    }
    let other = others.next().unwrap_or("another line end");
    Ok(format!(in alloc; "behind the lines: got {other}")?)
}

// So many lines of one kind, in pieces of such a size.
const MANY: [(usize, u32); 3] = [(10_000, 65_536), (10_000, 7), (1, 1)];

#[test]
fn many_lines(rt: HostRuntime) -> Result<(), Fail> {
    for (lines, piece) in MANY {
        let mut script = String::new(rt.alloc());
        let mut text = String::new(rt.alloc());
        for _ in 0..lines {
            script.push_str("send\n")?;
            text.push_str("none\n")?;
        }
        let (status, found) = ran(rt.alloc(), &["replay"], script.as_str(), piece, &NONE)?;
        if found.as_str() != text.as_str() {
            let line = first_line(rt.alloc(), text.as_str(), found.as_str())?;
            assert!(rt; false, "{lines} lines in pieces of {piece}: {line}");
        }
        assert_eq!(rt; status, Status::Done, "{lines} lines in pieces of {piece}");
    }
    Ok(())
}

// A client's piece of so many bytes in one line: the size of the greatest frame, and a part of it.
const LONG: [(usize, u32); 3] = [(4, 65_536), (65_537, 4096), (3_145_728, 1_048_576)];

#[test]
fn long_lines(rt: HostRuntime) -> Result<(), Fail> {
    for (bytes, piece) in LONG {
        let mut script = String::from_str(rt.alloc(), "client 06400000")?;
        for _ in 4..bytes {
            script.push_str("00")?;
        }
        script.push_str("\nclient-end\nemit\n")?;
        let wanted = format!(in rt.alloc(); "ok\nok\nover client-torn rest={bytes}\n")?;
        let (status, found) = ran(rt.alloc(), &["replay"], script.as_str(), piece, &NONE)?;
        assert_eq!(rt;
            found.as_str(),
            wanted.as_str(),
            "{bytes} bytes in pieces of {piece}"
        );
        assert_eq!(rt; status, Status::Done, "{bytes} bytes in pieces of {piece}");
    }
    Ok(())
}

#[test]
fn a_failed_read_ends_behind_the_answers(rt: HostRuntime) -> Result<(), Fail> {
    let table: [(u32, &'static [u64], &str); 3] = [
        (4096, &[0], ""),
        (5, &[1], "none\n"),
        (5, &[2], "none\nlater\n"),
    ];
    for (piece, reads, text) in table {
        let faults = Faults {
            reads,
            writes: &[],
            room: 4096,
        };
        let (status, found) = ran(rt.alloc(), &["replay"], "send\nemit\n", piece, &faults)?;
        assert_eq!(rt; found.as_str(), text, "in pieces of {piece}");
        assert_eq!(rt; status, Status::InputFault, "in pieces of {piece}");
    }
    Ok(())
}

#[test]
fn a_failed_write_leaves_a_front(rt: HostRuntime) -> Result<(), Fail> {
    let table: [(&'static [u64], u64, &str); 4] = [
        (&[0], 4096, ""),
        (&[1], 4096, "none\nla"),
        (&[], 0, ""),
        (&[], 6, "none\nl"),
    ];
    for (writes, room, text) in table {
        let faults = Faults {
            reads: &[],
            writes,
            room,
        };
        let (status, found) = ran(rt.alloc(), &["replay"], "send\nemit\n", 4096, &faults)?;
        assert_eq!(rt; found.as_str(), text, "with room for {room}");
        assert_eq!(rt; status, Status::OutputFault, "with room for {room}");
    }
    Ok(())
}

#[test]
fn other_words_are_told_the_usage(rt: HostRuntime) -> Result<(), Fail> {
    let usage =
        "usage: kproxy replay [CONFIG CLUSTER] | check CONFIG | plan CONFIG | serve CONFIG | broker HOST PORT | load SEED N\n";
    let table: [&[&str]; 12] = [
        &[],
        &[""],
        &["Replay"],
        &["replay "],
        &["replay", "replay"],
        &["replay", "config.ini"],
        &["replay", "config.ini", "-0"],
        &["replay", "-", "0"],
        &["replay", "f", "0", "0"],
        &["Replay", "f", "0"],
        &["check", "replay", "0"],
        &["play"],
    ];
    for (at, words) in table.into_iter().enumerate() {
        let (status, found) = ran(rt.alloc(), words, "send\n", 4096, &NONE)?;
        assert_eq!(rt; found.as_str(), usage, "words {at}");
        assert_eq!(rt; status, Status::Usage, "words {at}");
    }
    let faults = Faults {
        reads: &[],
        writes: &[1],
        room: 4096,
    };
    let (status, found) = ran(rt.alloc(), &[], "", 4096, &faults)?;
    assert_eq!(rt; found.as_str(), "usage: ");
    assert_eq!(rt; status, Status::OutputFault);
    Ok(())
}

#[test]
fn statuses_have_their_numbers(rt: HostRuntime) {
    let table = [
        (Status::Done, 0),
        (Status::Refused, 1),
        (Status::Usage, 2),
        (Status::InputFault, 3),
        (Status::OutputFault, 4),
        (Status::NoMemory, 5),
        (Status::FilesFault, 6),
        (Status::BindFault, 7),
        (Status::ThreadFault, 8),
    ];
    for (status, number) in table {
        assert_eq!(rt; status.number(), number);
    }
}
