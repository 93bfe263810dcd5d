// `check` and `plan` over files in memory.
ghost use Rattle.kp_edge.specs.Files.{Untold};

use super::*;
use kp_edge::{FileFault, Files};

const ALPHA: &str =
    "version = 1\n[[cluster]]\nname = \"alpha\"\nlisten = \"127.0.0.1\"\nadvertise = \"p\"\nport = 19092\nfirst_node = 0\nbootstrap = \"127.0.0.1:9092\"\nnodes = [\"127.0.0.1:9092\", \"127.0.0.1:9093\"]\nprefix = \"alpha-\"\n";

const PLAN: &str =
    "cluster alpha\nprefix alpha-\nbootstrap 19092 127.0.0.1:9092\nnode 0 19093 127.0.0.1:9092\nnode 1 19094 127.0.0.1:9093\n";

// A second cluster on the same broker, but for its prefix.
const BETA: &str =
    "[[cluster]]\nname = \"beta\"\nlisten = \"h\"\nadvertise = \"h\"\nport = 1\nfirst_node = 0\nbootstrap = \"127.0.0.1:9092\"\nnodes = [\"h:1\"]\n";

// Where calls fail: the first read of a file, and the writes that are listed.
#[derive(Drop)]
struct Failing {
    reads: &'static [u64],
    writes: &'static [u64],
}

const WELL: Failing = Failing {
    reads: &[],
    writes: &[],
};

// Runs the words over one file, `f`, and gives the status and what is written.
fn ran_over(
    alloc: Global,
    words: &[&str],
    text: &str,
    failing: &Failing,
) -> Result<(Status, String), Fail> {
    let file = (
        Blob::copy(alloc, b"f")?,
        Blob::copy(alloc, text.as_bytes())?,
    );
    let mut files = MemFiles::new(
        vec![in alloc; file]?,
        Vec::from_slice(alloc, failing.reads)?,
    );
    ran_with(alloc, words, &mut files, failing.writes)
}

// The same over any files. The input would fail if it were read.
fn ran_with<F: Files>(
    alloc: Global,
    words: &[&str],
    files: &mut F,
    writes: &[u64],
) -> Result<(Status, String), Fail> {
    let words = words_of(alloc, words)?;
    let bytes = Blob::copy(alloc, b"send\n")?;
    let mut input = MemSource::new(bytes, Vec::new(alloc), vec![in alloc; 0u64]?);
    let mut out = MemSink::new(alloc, 7, 65_536, Vec::from_slice(alloc, writes)?)?;
    let mut steps = Steps::<()>::new();
    let status = run_command(
        alloc,
        words.as_slice(),
        &mut input,
        &mut out,
        files,
        &mut steps,
    );
    if input.faults() != 0 {
        return Err("the input was read".into());
    }
    let text = std::str::from_utf8(out.bytes()).ok().ok_or("text")?;
    Ok((status, String::from_str(alloc, text)?))
}

// The file with another text in place of a part of it.
fn changed(alloc: Global, from: &str, to: &str) -> Result<String, Fail> {
    let (before, behind) = ALPHA.split_once(from).ok_or("a part")?;
    let mut text = String::from_str(alloc, before)?;
    text.push_str(to)?;
    text.push_str(behind)?;
    Ok(text)
}

#[test]
fn a_file_that_holds(rt: HostRuntime) -> Result<(), Fail> {
    for (word, want) in [("check", "ok 1\n"), ("plan", PLAN)] {
        let (status, text) = ran_over(rt.alloc(), &[word, "f"], ALPHA, &WELL)?;
        assert_eq!(rt; text.as_str(), want, "{word}");
        assert_eq!(rt; status, Status::Done, "{word}");
    }
    Ok(())
}

#[test]
fn two_clusters_on_one_broker(rt: HostRuntime) -> Result<(), Fail> {
    let clash = "refused prefix-clash 0 1\n";
    let table = [
        ("prefix = \"a-\"\n", "prefix = \"a-b-\"\n", clash),
        ("prefix = \"a-\"\n", "", clash),
        ("", "", "ok 2\n"),
    ];
    for (first, second, want) in table {
        let mut file = changed(rt.alloc(), "prefix = \"alpha-\"\n", first)?;
        file.push_str(BETA)?;
        file.push_str(second)?;
        let (status, text) = ran_over(rt.alloc(), &["check", "f"], file.as_str(), &WELL)?;
        assert_eq!(rt; text.as_str(), want, "{first:?} and {second:?}");
        let wanted = if want == clash {
            Status::Refused
        } else {
            Status::Done
        };
        assert_eq!(rt; status, wanted, "{first:?} and {second:?}");
    }
    Ok(())
}

#[test]
fn a_file_that_cannot_be_read(rt: HostRuntime) -> Result<(), Fail> {
    let failing = Failing {
        reads: &[0],
        writes: &[],
    };
    for word in ["check", "plan"] {
        let (status, text) = ran_over(rt.alloc(), &[word, "f"], ALPHA, &failing)?;
        assert_eq!(rt; text.as_str(), "", "{word}");
        assert_eq!(rt; status, Status::FilesFault, "{word}");
        for name in ["g", "", "F", "ff", "check"] {
            let (status, text) = ran_over(rt.alloc(), &[word, name], ALPHA, &WELL)?;
            assert_eq!(rt; text.as_str(), "", "{word} of {name}");
            assert_eq!(rt; status, Status::FilesFault, "{word} of {name}");
        }
    }
    Ok(())
}

// A write takes seven bytes at most.
#[test]
fn a_failed_write_leaves_a_front_of_the_answer(rt: HostRuntime) -> Result<(), Fail> {
    let table: [(&str, &str, &'static [u64], &str); 5] = [
        ("check", ALPHA, &[0], ""),
        ("plan", ALPHA, &[0], ""),
        ("plan", ALPHA, &[1], "cluster"),
        ("plan", ALPHA, &[3], "cluster alpha\nprefix "),
        ("check", "", &[2], "refused missin"),
    ];
    for (word, file, writes, want) in table {
        let failing = Failing { reads: &[], writes };
        let (status, text) = ran_over(rt.alloc(), &[word, "f"], file, &failing)?;
        assert_eq!(rt; text.as_str(), want, "{word}, at writes {writes:?}");
        assert_eq!(rt; status, Status::OutputFault, "{word}, at writes {writes:?}");
    }
    Ok(())
}

// No file is read for these words, nor the input.
#[test]
fn words_that_name_no_file(rt: HostRuntime) -> Result<(), Fail> {
    let table: [&[&str]; 12] = [
        &["check"],
        &["plan"],
        &["check", "f", "f"],
        &["plan", "f", ""],
        &["check", "-"],
        &["plan", "-f"],
        &["-check", "f"],
        &["Check", "f"],
        &["checks", "f"],
        &["pla", "f"],
        &["", "f"],
        &["f", "check"],
    ];
    for words in table {
        let mut files = Noted {
            wanted: Vec::new(rt.alloc()),
        };
        let (status, text) = ran_with(rt.alloc(), words, &mut files, &[])?;
        assert!(rt;
            text.as_str().starts_with("usage: kproxy replay"),
            "{words:?}: wanted the usage line, got {text:?}"
        );
        assert_eq!(rt; status, Status::Usage, "{words:?}");
        assert_eq!(rt; files.wanted.len(), 0, "{words:?}");
    }
    Ok(())
}

// Files that note how many bytes each read wants, and that all begin with the same ones.
#[derive(Drop)]
struct Noted {
    wanted: Vec<usize>,
}

impl Files for Noted {
    ghost content = { λ _ _. Untold };

    ghost faults = { λ _. 0 };

    fn read(&mut self, alloc: Global, _name: &[u8], most: usize) -> Result<Blob, FileFault> {
        self.wanted.push(most)?;
        let mut bytes = Vec::from_slice(alloc, ALPHA.as_bytes())?;
        bytes.truncate(most);
        Ok(Blob::from_vec(bytes))
    }
}

// The file is read once, and at most one byte past the limit.
#[test]
fn a_file_is_read_once(rt: HostRuntime) -> Result<(), Fail> {
    for (word, want) in [("check", "ok 1\n"), ("plan", PLAN)] {
        let mut files = Noted {
            wanted: Vec::new(rt.alloc()),
        };
        let (status, text) = ran_with(rt.alloc(), &[word, "f"], &mut files, &[])?;
        assert_eq!(rt; text.as_str(), want, "{word}");
        assert_eq!(rt; status, Status::Done, "{word}");
        assert_eq!(rt;
            files.wanted.as_slice(),
            [1_048_577usize].as_slice(),
            "{word}"
        );
    }
    Ok(())
}

// A comment of so many bytes behind the file.
fn padded(alloc: Global, bytes: usize) -> Result<String, Fail> {
    let mut text = String::from_str(alloc, ALPHA)?;
    text.push_str("#")?;
    for _ in text.len()..bytes {
        text.push_str("x")?;
    }
    Ok(text)
}

#[test]
fn a_file_at_its_limit(rt: HostRuntime) -> Result<(), Fail> {
    for (bytes, want, status) in [
        (1_048_576, "ok 1\n", Status::Done),
        (1_048_577, "refused too-long\n", Status::Refused),
    ] {
        let file = padded(rt.alloc(), bytes)?;
        let (found, text) = ran_over(rt.alloc(), &["check", "f"], file.as_str(), &WELL)?;
        assert_eq!(rt; text.as_str(), want, "{bytes} bytes");
        assert_eq!(rt; found, status, "{bytes} bytes");
    }
    Ok(())
}
