// One happy path of each call. `examples/config` has what is refused and what plans look like.
use super::*;
use std::alloc::Global;
use std::test::*;

const ALPHA: &str =
    "version = 1\n[[cluster]]\nname = \"alpha\"\nlisten = \"127.0.0.1\"\nadvertise = \"p\"\nport = 19092\nfirst_node = 0\nbootstrap = \"127.0.0.1:9092\"\nnodes = [\"127.0.0.1:9092\", \"127.0.0.1:9093\"]\nprefix = \"alpha-\"\n";

const PLAN: &str =
    "cluster alpha\nprefix alpha-\nbootstrap 19092 127.0.0.1:9092\nnode 0 19093 127.0.0.1:9092\nnode 1 19094 127.0.0.1:9093\n";

// Two clusters more on another broker, whose names begin the first one's.
const MORE: &str =
    "[[cluster]]\nname = \"alp\"\nlisten = \"h\"\nadvertise = \"h\"\nport = 7\nfirst_node = 0\nbootstrap = \"a:1\"\nnodes = [\"a:1\"]\n[[cluster]]\nname = \"alph\"\nlisten = \"h\"\nadvertise = \"h\"\nport = 9\nfirst_node = 0\nbootstrap = \"a:1\"\nnodes = [\"a:1\"]\n";

// What is written of a text, and whether it is refused.
fn written(alloc: Global, asked: Asked, text: &str) -> Result<(bool, String), Fail> {
    let (refused, bytes) = match config_answer(alloc, asked, text.as_bytes()) {
        Ok(ConfigAnswer::Holds(bytes)) => (false, bytes),
        Ok(ConfigAnswer::Refused(bytes)) => (true, bytes),
        Err(_) => return Err("memory".into()),
    };
    let text = std::str::from_utf8(bytes.as_slice()).ok().ok_or("text")?;
    Ok((refused, String::from_str(alloc, text)?))
}

#[test]
fn a_configuration_that_holds(rt: HostRuntime) -> Result<(), Fail> {
    for (asked, want) in [(Asked::Check, "ok 1\n"), (Asked::Plan, PLAN)] {
        let (refused, text) = written(rt.alloc(), asked, ALPHA)?;
        assert_eq!(rt; (text.as_str(), refused), (want, false));
    }
    Ok(())
}

// The file with a comment behind it, so that it has so many bytes.
#[test]
fn the_longest_configuration(rt: HostRuntime) -> Result<(), Fail> {
    let alloc = rt.alloc();
    for (bytes, want) in [
        (CONFIG_LIMIT, "ok 1\n"),
        (CONFIG_LIMIT + 1, "refused too-long\n"),
    ] {
        let mut file = String::from_str(alloc, ALPHA)?;
        file.push_str("#")?;
        for _ in 0..bytes.saturating_sub(file.len()) {
            file.push_str("x")?;
        }
        let (_, text) = written(alloc, Asked::Check, file.as_str())?;
        assert_eq!(rt; text.as_str(), want);
    }
    front_law();
    Ok(())
}

// The bootstrap port of the plan that is found, or the line.
fn found(alloc: Global, name: &str, file: &str) -> Result<(u16, String), Fail> {
    let bytes = match cluster_answer(alloc, name.as_bytes(), file.as_bytes()) {
        Ok(ClusterAnswer::Found(plan)) => return Ok((plan.port, String::new(alloc))),
        Ok(ClusterAnswer::Refused(bytes)) => bytes,
        Err(_) => return Err("memory".into()),
    };
    let text = std::str::from_utf8(bytes.as_slice()).ok().ok_or("text")?;
    Ok((0, String::from_str(alloc, text)?))
}

#[test]
fn clusters_by_their_names(rt: HostRuntime) -> Result<(), Fail> {
    let alloc = rt.alloc();
    let mut file = String::from_str(alloc, ALPHA)?;
    file.push_str(MORE)?;
    for (name, port, line) in [
        ("alp", 7, ""),
        ("alph", 9, ""),
        ("alpha", 0, "refused no-cluster\n"),
    ] {
        let (found, text) = found(alloc, name, file.as_str())?;
        assert_eq!(rt; (name, found, text.as_str()), (name, port, line));
    }
    Ok(())
}
