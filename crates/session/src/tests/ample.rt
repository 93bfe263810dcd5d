// Frames and verdicts of the least, odd and great sizes, with ample memory: all that the connection was told is compared.
use super::*;
use std::alloc::AllocError;

const PART: [u8; 16] = *b"abcdefghijklmnop";

// So many bytes, of which the last is this one.
fn put_bytes(out: &mut Vec<u8>, length: u32, last: u8) -> Result<(), AllocError> {
    let others = length.saturating_sub(1) as usize;
    for _ in 0..others / 16 {
        out.extend_from_slice(&PART)?;
    }
    out.extend_from_slice(&PART[..others % 16])?;
    out.push(last)?;
    Ok(())
}

// A frame of this length, its size in front.
fn put_frame(stream: &mut Vec<u8>, length: u32, last: u8) -> Result<(), AllocError> {
    stream.extend_from_slice(&length.to_be_bytes())?;
    put_bytes(stream, length, last)
}

// What a connection notes of it.
fn put_note(notes: &mut Vec<u8>, word: &[u8], length: u32, last: u8) -> Result<(), AllocError> {
    notes.extend_from_slice(word)?;
    put_bytes(notes, length, last)?;
    notes.extend_from_slice(b"; ")
}

// How many bytes were noted, and the first place where they aren't the wanted ones.
type Noted = Option<(usize, Option<usize>)>;

fn noted(station: &mut Station<Noting>, wanted: &[u8]) -> Noted {
    let notes = station.send()?;
    let notes = notes.as_slice();
    if notes == wanted {
        return Some((notes.len(), None));
    }
    let place = notes.iter().zip(wanted).position(|(a, b)| a != b);
    let place = place.unwrap_or(notes.len().min(wanted.len()));
    Some((notes.len(), Some(place)))
}

// So many frames of this length, which come in pieces of such a length.
type Row = (u32, u32, usize);

// The stream of these frames, and what is noted of them.
fn stream_of(alloc: Global, row: Row, word: &[u8]) -> Result<(Vec<u8>, Vec<u8>), AllocError> {
    let (frames, length, _) = row;
    let mut stream = Vec::new(alloc);
    let mut notes = Vec::new(alloc);
    for _ in 0..frames {
        put_frame(&mut stream, length, b'+')?;
        put_note(&mut notes, word, length, b'+')?;
    }
    Ok((stream, notes))
}

const ROWS: [Row; 8] = [
    (1, 8, 1),
    (1, 9, 13),
    (1_000, 8, 5),
    (20_000, 9, 260_000),
    (1, 65_537, 65_536),
    (3, 1_048_577, 3_145_743),
    (1, 3_000_003, 70_001),
    (1, 3_145_728, 1_048_576),
];

fn given_piece(
    station: &mut Station<Noting>,
    of_client: bool,
    piece: &[u8],
) -> Result<Told, NoMemory> {
    let mut steps = Steps::<()>::new();
    if of_client {
        station.client(piece, &mut steps)
    } else {
        station.broker(piece, &mut steps)
    }
}

// What is noted of this row's frames, where a piece isn't fine or another thing is noted.
fn noted_otherwise(alloc: Global, row: Row, of_client: bool) -> Result<Option<Noted>, AllocError> {
    let mut station = Station::new(alloc, Noting::new(alloc));
    let word: &[u8] = if of_client { b"take " } else { b"answer " };
    let (stream, wanted) = stream_of(alloc, row, word)?;
    let mut fine = true;
    for piece in stream.as_slice().chunks(row.2.max(1)) {
        let told = given_piece(&mut station, of_client, piece);
        fine = fine && told == Ok(Told::Fine);
    }
    let found = noted(&mut station, wanted.as_slice());
    let right = fine && found == Some((wanted.len(), None));
    Ok((!right).then_some(found))
}

#[test]
fn many_frames_and_long_ones_of_the_client(rt: HostRuntime) -> Result<(), Fail> {
    for row in ROWS {
        let wrong = noted_otherwise(rt.alloc(), row, true)?;
        assert_eq!(rt; (row, wrong), (row, None));
    }
    Ok(())
}

#[test]
fn many_frames_and_long_ones_of_the_broker(rt: HostRuntime) -> Result<(), Fail> {
    for row in ROWS {
        let wrong = noted_otherwise(rt.alloc(), row, false)?;
        assert_eq!(rt; (row, wrong), (row, None));
    }
    Ok(())
}

// The first frame finds no room until an emit step has made some. One stands behind it.
#[test]
fn long_frames_are_kept_and_taken_again(rt: HostRuntime) -> Result<(), Fail> {
    let mut steps = Steps::<()>::new();
    for length in [8, 9, 1_000, 65_537, 1_048_577, 3_000_003] {
        let mut stream = Vec::new(rt.alloc());
        put_frame(&mut stream, length, b'=')?;
        put_frame(&mut stream, length, b'+')?;
        let mut wanted = Vec::new(rt.alloc());
        for last in [b'=', b'=', b'=', b'+'] {
            put_note(&mut wanted, b"take ", length, last)?;
        }
        let mut station = Station::new(rt.alloc(), Noting::new(rt.alloc()));
        let first = station.client(stream.as_slice(), &mut steps);
        let second = station.retake(&mut steps);
        let _ = station.emit();
        let third = station.retake(&mut steps);
        assert_eq!(rt;
            (length, first, second, third),
            (length, Ok(Told::Full), Ok(Told::Full), Ok(Told::Fine))
        );
        assert_eq!(rt;
            (length, noted(&mut station, wanted.as_slice())),
            (length, Some((wanted.len(), None)))
        );
    }
    Ok(())
}

#[test]
fn long_verdicts_are_told(rt: HostRuntime) -> Result<(), Fail> {
    let mut steps = Steps::<()>::new();
    for length in [1, 3, 1_000, 65_537, 1_048_577, 3_000_003] {
        let mut verdict = Vec::new(rt.alloc());
        put_bytes(&mut verdict, length, b'.')?;
        let mut wanted = Vec::new(rt.alloc());
        put_note(&mut wanted, b"complete 0 7 with ", length, b'.')?;
        let mut station = Station::new(rt.alloc(), Noting::new(rt.alloc()));
        let told = station.done(0, 7, Blob::from_vec(verdict), &mut steps);
        assert_eq!(rt; (length, told), (length, Ok(Told::Fine)));
        assert_eq!(rt;
            (length, noted(&mut station, wanted.as_slice())),
            (length, Some((wanted.len(), None)))
        );
    }
    Ok(())
}
