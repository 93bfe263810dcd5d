// `replay` over a cluster of a configuration.
use super::*;

// A cluster of one node, named `lab`. Other keys may stand behind it.
const LAB: &str =
    "version = 1\n[[cluster]]\nname = \"lab\"\nlisten = \"127.0.0.1\"\nadvertise = \"p\"\nbootstrap = \"b:9092\"\nnodes = [\"b:9092\"]\n";

const PORTS: &str = "port = 19092\nfirst_node = 0\n";

// Runs the words over a file `f` with this text, and gives the status and what is written.
pub(crate) fn ran_over(
    alloc: Global,
    words: &[&str],
    text: &str,
    script: &str,
    piece: u32,
    faults: &Faults,
) -> Result<(Status, String), Fail> {
    let file = (
        Blob::copy(alloc, b"f")?,
        Blob::copy(alloc, text.as_bytes())?,
    );
    let mut files = MemFiles::new(vec![in alloc; file]?, Vec::new(alloc));
    ran_with(alloc, words, script, piece, faults, &mut files)
}

// The configuration with these keys of its cluster.
pub(crate) fn lab_with(alloc: Global, keys: &str) -> Result<String, Fail> {
    let mut text = String::from_str(alloc, LAB)?;
    text.push_str(keys)?;
    Ok(text)
}

// The first read of the input fails, so that none of these reads it.
const UNREAD: Faults = Faults {
    reads: &[0],
    writes: &[],
    room: 65_536,
};

#[test]
fn clusters_that_are_not_served(rt: HostRuntime) -> Result<(), Fail> {
    let alloc = rt.alloc();
    let table = [
        ("la", PORTS, "refused no-cluster\n"),
        ("labs", PORTS, "refused no-cluster\n"),
        ("Lab", PORTS, "refused no-cluster\n"),
        ("", PORTS, "refused no-cluster\n"),
        (
            "lab",
            "port = 19092\nfirst_node = 0\nprefix = \"a-\"\n",
            "refused no-cluster\n",
        ),
        ("lab", "port = 19092\n", "refused missing 0 first_node\n"),
        ("la", "port = 19092\n", "refused missing 0 first_node\n"),
        (
            "lab",
            "port = 65535\nfirst_node = 0\n",
            "refused port-range 0\n",
        ),
    ];
    for (name, keys, want) in table {
        let file = lab_with(alloc, keys)?;
        let words = ["replay", "f", name];
        let (status, text) = ran_over(alloc, &words, file.as_str(), "send\n", 4096, &UNREAD)?;
        assert_eq!(rt; text.as_str(), want, "{name}, {keys}");
        assert_eq!(rt; status, Status::Refused, "{name}, {keys}");
    }
    Ok(())
}

#[test]
fn the_second_cluster_is_found(rt: HostRuntime) -> Result<(), Fail> {
    let alloc = rt.alloc();
    let mut file = lab_with(alloc, PORTS)?;
    file.push_str(
        "[[cluster]]\nname = \"la\"\nlisten = \"h\"\nadvertise = \"q\"\nport = 1\nfirst_node = 5\nbootstrap = \"h:1\"\nnodes = [\"h:1\"]\n",
    )?;
    let script =
        "client 0000000d000a000000000001ffff000167\nsend\nbroker 000000110000000000000000000500016200002384\nemit\n";
    for (name, want) in [
        (
            "la",
            "ok\nto-broker 0000000d000a000000000000ffff000167\nok\nto-client 000000110000000100000000000500017100000002\n",
        ),
        (
            "lab",
            "ok\nto-broker 0000000d000a000000000000ffff000167\nok\nover node-out-of-range request=0 node=5\n",
        ),
    ] {
        let words = ["replay", "f", name];
        let (status, text) = ran_over(alloc, &words, file.as_str(), script, 4096, &NONE)?;
        assert_eq!(rt; text.as_str(), want, "{name}");
        assert_eq!(rt; status, Status::Done, "{name}");
    }
    Ok(())
}

#[test]
fn a_file_that_cannot_be_read_is_not_replayed(rt: HostRuntime) -> Result<(), Fail> {
    let alloc = rt.alloc();
    let file = lab_with(alloc, PORTS)?;
    let words = ["replay", "g", "lab"];
    let (status, text) = ran_over(alloc, &words, file.as_str(), "send\n", 4096, &UNREAD)?;
    assert_eq!(rt; text.as_str(), "");
    assert_eq!(rt; status, Status::FilesFault);
    Ok(())
}

// A failed read of the input, and a failed write of a line that refuses.
#[test]
fn faults_over_a_cluster(rt: HostRuntime) -> Result<(), Fail> {
    let alloc = rt.alloc();
    let file = lab_with(alloc, PORTS)?;
    let words = ["replay", "f", "lab"];
    let (status, text) = ran_over(alloc, &words, file.as_str(), "send\n", 4096, &UNREAD)?;
    assert_eq!(rt; text.as_str(), "");
    assert_eq!(rt; status, Status::InputFault);
    let faults = Faults {
        reads: &[0],
        writes: &[1],
        room: 65_536,
    };
    let words = ["replay", "f", "la"];
    let (status, text) = ran_over(alloc, &words, file.as_str(), "send\n", 4096, &faults)?;
    assert_eq!(rt; text.as_str(), "refused");
    assert_eq!(rt; status, Status::OutputFault);
    Ok(())
}
