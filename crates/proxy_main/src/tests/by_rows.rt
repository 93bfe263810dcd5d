// Exchanges from end to end, each read in pieces of 1, 7 and 4096 bytes. Other exchanges are data, in `examples/exchanges`.
use super::by_clusters::{lab_with, ran_over};
use super::*;

// A script that is read to its end, a line before its answer, and the keys of the cluster that it is played over. Without
// keys it is played under the default plan.
struct Exchange {
    name: &'static str,
    keys: &'static str,
    rows: &'static str,
}

// Under the default plan.
const ROWS: &[Exchange] = &[
    Exchange {
        name: "a request and its answer",
        keys: "",
        rows: "
            client 00000014000c000000000007ffff0001670000000100016d -> ok
            send -> to-broker 00000014000c000000000000ffff0001670000000100016d
            broker 00000006000000000000 -> ok
            emit -> to-client 00000006000000070000
            client-end -> ok
            emit -> over ended
        ",
    },
    Exchange {
        name: "one byte at a time",
        keys: "",
        rows: "
            client 00 -> ok
            client 00 -> ok
            client 00 -> ok
            client 14 -> ok
            client 00 -> ok
            client 0c -> ok
            client 00 -> ok
            client 00 -> ok
            client 00 -> ok
            client 00 -> ok
            client 00 -> ok
            client 07 -> ok
            client ff -> ok
            client ff -> ok
            client 00 -> ok
            client 01 -> ok
            client 67 -> ok
            client 00 -> ok
            client 00 -> ok
            client 00 -> ok
            client 01 -> ok
            client 00 -> ok
            send -> none
            client 01 -> ok
            send -> none
            client 6d -> ok
            send -> to-broker 00000014000c000000000000ffff0001670000000100016d
        ",
    },
    Exchange {
        name: "two frames in one piece, and half of a third",
        keys: "",
        rows: "
            client 00000014000c000000000007ffff0001670000000100016d00000014000c000000000008ffff0001670000000100016d00000014000c0000 -> ok
            send -> to-broker 00000014000c000000000000ffff0001670000000100016d
            send -> to-broker 00000014000c000000000001ffff0001670000000100016d
            send -> none
            client 00000009ffff0001670000000100016d -> ok
            send -> to-broker 00000014000c000000000002ffff0001670000000100016d
        ",
    },
    Exchange {
        name: "ApiVersions in version 3 is refused at once",
        keys: "",
        rows: "
            client 00000012001200030000000100016300036b63023100 -> ok
            send -> none
            emit -> to-client 0000001000000001002300000001001200000002
        ",
    },
    Exchange {
        name: "the answer to a known ApiVersions keeps what both know",
        keys: "",
        rows: "
            client 0000000a0012000000000002ffff -> ok
            send -> to-broker 0000000a0012000000000000ffff
            broker 0000001c00000000000000000003000000000009003c000000000001000c000d -> ok
            emit -> to-client 0000001000000002000000000001000000030008
        ",
    },
    Exchange {
        name: "before a Heartbeat",
        keys: "",
        rows: "
            client 000000250000000300000001ffffffff000000000064000000010001740000000100000000ffffffff -> ok
            client 00000014000c000000000002ffff0001670000000100016d -> ok
            send -> to-broker 000000250000000300000000ffffffff000000000064000000010001740000000100000000ffffffff
            send -> to-broker 00000014000c000000000001ffff0001670000000100016d
            send -> none
            broker 00000006000000010000 -> ok
            emit -> to-client 00000006000000020000
        ",
    },
    Exchange {
        name: "a byte too many behind two requests, all in one piece",
        keys: "",
        rows: "
            client 00000014000c000000000001ffff0001670000000100016d00000014000c000000000002ffff0001670000000100016d00000015000c000000000003ffff0001670000000100016d00 -> ok
            send -> to-broker 00000014000c000000000000ffff0001670000000100016d
            send -> to-broker 00000014000c000000000001ffff0001670000000100016d
            broker 00000006000000000000 -> ok
            broker 00000006000000010000 -> ok
            emit -> to-client 00000006000000010000
            emit -> to-client 00000006000000020000
            emit -> over bad-body request=2 key=12 version=0 at=10
            client 00000014000c000000000004ffff0001670000000100016d -> closed
        ",
    },
    Exchange {
        name: "an answer with another correlation id",
        keys: "",
        rows: "
            client 00000014000c000000000001ffff0001670000000100016d -> ok
            send -> to-broker 00000014000c000000000000ffff0001670000000100016d
            broker 00000006000000050000 -> ok
            emit -> over mismatch expected=0 found=5
        ",
    },
    Exchange {
        name: "an answer before its send was taken",
        keys: "",
        rows: "
            client 00000014000c000000000001ffff0001670000000100016d -> ok
            broker 00000006000000000000 -> ok
            emit -> over unasked found=0
        ",
    },
    Exchange {
        name: "the client's end inside a size",
        keys: "",
        rows: "
            client 000000 -> ok
            client-end -> ok
            emit -> over client-torn rest=3
        ",
    },
    Exchange {
        name: "the client's end and nothing else",
        keys: "",
        rows: "
            client-end -> ok
            emit -> over ended
        ",
    },
    Exchange {
        name: "sixteen requests and one more",
        keys: "",
        rows: "
            client 00000014000c000000000000ffff0001670000000100016d -> ok
            client 00000014000c000000000001ffff0001670000000100016d -> ok
            client 00000014000c000000000002ffff0001670000000100016d -> ok
            client 00000014000c000000000003ffff0001670000000100016d -> ok
            client 00000014000c000000000004ffff0001670000000100016d -> ok
            client 00000014000c000000000005ffff0001670000000100016d -> ok
            client 00000014000c000000000006ffff0001670000000100016d -> ok
            client 00000014000c000000000007ffff0001670000000100016d -> ok
            client 00000014000c000000000008ffff0001670000000100016d -> ok
            client 00000014000c000000000009ffff0001670000000100016d -> ok
            client 00000014000c00000000000affff0001670000000100016d -> ok
            client 00000014000c00000000000bffff0001670000000100016d -> ok
            client 00000014000c00000000000cffff0001670000000100016d -> ok
            client 00000014000c00000000000dffff0001670000000100016d -> ok
            client 00000014000c00000000000effff0001670000000100016d -> ok
            client 00000014000c00000000000fffff0001670000000100016d -> ok
            client 00000014000c000000000010ffff0001670000000100016d -> full
            send -> to-broker 00000014000c000000000000ffff0001670000000100016d
            broker 00000006000000000000 -> ok
            emit -> to-client 00000006000000000000
            send -> to-broker 00000014000c000000000001ffff0001670000000100016d
            send -> to-broker 00000014000c000000000002ffff0001670000000100016d
            send -> to-broker 00000014000c000000000003ffff0001670000000100016d
            send -> to-broker 00000014000c000000000004ffff0001670000000100016d
            send -> to-broker 00000014000c000000000005ffff0001670000000100016d
            send -> to-broker 00000014000c000000000006ffff0001670000000100016d
            send -> to-broker 00000014000c000000000007ffff0001670000000100016d
            send -> to-broker 00000014000c000000000008ffff0001670000000100016d
            send -> to-broker 00000014000c000000000009ffff0001670000000100016d
            send -> to-broker 00000014000c00000000000affff0001670000000100016d
            send -> to-broker 00000014000c00000000000bffff0001670000000100016d
            send -> to-broker 00000014000c00000000000cffff0001670000000100016d
            send -> to-broker 00000014000c00000000000dffff0001670000000100016d
            send -> to-broker 00000014000c00000000000effff0001670000000100016d
            send -> to-broker 00000014000c00000000000fffff0001670000000100016d
            send -> to-broker 00000014000c000000000010ffff0001670000000100016d
            send -> none
        ",
    },
    Exchange {
        name: "FindCoordinator without a node",
        keys: "",
        rows: "
            client 0000000d000a000000000001ffff000167 -> ok
            send -> to-broker 0000000d000a000000000000ffff000167
            broker 0000001000000000000fffffffffffffffffffff -> ok
            emit -> to-client 0000001000000001000fffffffffffffffffffff
            client-end -> ok
            emit -> over ended
        ",
    },
    Exchange {
        name: "a node that the plan has no port for",
        keys: "",
        rows: "
            client 0000000d000a000000000001ffff000167 -> ok
            send -> to-broker 0000000d000a000000000000ffff000167
            broker 000000110000000000000000000900016b00002384 -> ok
            emit -> over node-out-of-range request=0 node=9
        ",
    },
    Exchange {
        name: "the broker's end while one response is missing",
        keys: "",
        rows: "
            client 00000014000c000000000001ffff0001670000000100016d -> ok
            send -> to-broker 00000014000c000000000000ffff0001670000000100016d
            broker-end -> ok
            emit -> over broker-end waiting=1
        ",
    },
    Exchange {
        name: "the broker's end inside a size",
        keys: "",
        rows: "
            client 00000014000c000000000001ffff0001670000000100016d -> ok
            send -> to-broker 00000014000c000000000000ffff0001670000000100016d
            broker 0000 -> ok
            broker-end -> ok
            emit -> over broker-torn rest=2
        ",
    },
    Exchange {
        name: "a frame that ends before its client id",
        keys: "",
        rows: "
            client 00000008000c000000000001 -> ok
            emit -> over bad-head request=0
        ",
    },
    Exchange {
        name: "Heartbeat in version 4",
        keys: "",
        rows: "
            client 00000014000c000400000001ffff0001670000000100016d -> ok
            emit -> over unsupported request=0 key=12 version=4
        ",
    },
];

// Over a cluster with filters.
const ROWS_OVER_A_CLUSTER: &[Exchange] = &[
    Exchange {
        name: "topic-deny answers a Produce with acks 0, which is silent",
        keys: "port = 19092\nfirst_node = 0\nfilters = [\"topic-deny:t\"]\n",
        rows: "
            client 000000250000000300000001ffffffff000000000064000000010001740000000100000000ffffffff -> ok
            send -> none
            emit -> later
            client-end -> ok
            emit -> over ended
        ",
    },
    Exchange {
        name: "topic-policy holds for a verdict, and sends later requests behind it",
        keys: "port = 19092\nfirst_node = 0\nfilters = [\"topic-policy\"]\n",
        rows: "
            client 000000230013000000000001ffff00000001000161000000010001000000000000000000000000 -> ok
            client 00000014000c000000000002ffff0001670000000100016d -> ok
            send -> none
            pick -> ticket 0 0 00000001000161
            pick -> none
            done 0 0 00 -> ok
            send -> to-broker 000000230013000000000000ffff00000001000161000000010001000000000000000000000000
            send -> to-broker 00000014000c000000000001ffff0001670000000100016d
            broker 0000000d00000000000000010001610000 -> ok
            broker 00000006000000010000 -> ok
            emit -> to-client 0000000d00000001000000010001610000
            emit -> to-client 00000006000000020000
            done 0 0 00 -> not-waiting
            client-end -> ok
            emit -> over ended
        ",
    },
    Exchange {
        name: "topic-exists asks Metadata aside",
        keys: "port = 19092\nfirst_node = 0\nfilters = [\"topic-exists\"]\n",
        rows: "
            client 000000340013000000000001ffff000000020001610000000100010000000000000000000162000000010001000000000000000000000000 -> ok
            send -> to-broker 000000150003000400000000ffff0000000200016100016200
            broker 0000002a000000000000000000000000ffffffffffff000000020003000161000000000000000001620000000000 -> ok
            send -> to-broker 000000230013000000000001ffff00000001000161000000010001000000000000000000000000
            broker 0000000d00000001000000010001610000 -> ok
            emit -> to-client 00000012000000010000000200016100000001620024
            client-end -> ok
            emit -> over ended
        ",
    },
    Exchange {
        name: "group-live asks DescribeGroups aside",
        keys: "port = 19092\nfirst_node = 0\nfilters = [\"group-live\"]\n",
        rows: "
            client 0000000a0010000000000001ffff -> ok
            client 00000014000c000000000002ffff0001670000000100016d -> ok
            send -> to-broker 0000000a0010000000000000ffff
            send -> to-broker 00000014000c000000000001ffff0001670000000100016d
            broker 00000024000000000000000000020001670008636f6e73756d65720001680008636f6e73756d6572 -> ok
            send -> to-broker 00000014000f000000000002ffff00000002000167000168
            broker 00000006000000010000 -> ok
            emit -> later
            broker 00000030000000020000000200000001670006537461626c65000000000000000000000001680004446561640000000000000000 -> ok
            emit -> to-client 00000017000000010000000000010001670008636f6e73756d6572
            emit -> to-client 00000006000000020000
            client-end -> ok
            emit -> over ended
        ",
    },
    Exchange {
        name: "a Heartbeat that is blocked",
        keys: "port = 19092\nfirst_node = 0\nfilters = [\"api-block:12\"]\n",
        rows: "
            client 00000014000c000000000001ffff0001670000000100016d -> ok
            send -> none
            emit -> over filter-shut request=0 filter=1 code=12
        ",
    },
];

// The script of an exchange, and what is written for it.
fn script_of(alloc: Global, exchange: &Exchange) -> Result<(String, String), Fail> {
    let mut script = String::new(alloc);
    let mut text = String::new(alloc);
    for row in exchange.rows.trim().lines() {
        let (line, answer) = row.trim().split_once(" -> ").ok_or("an arrow")?;
        script.push_str(line)?;
        script.push_str("\n")?;
        text.push_str(answer)?;
        text.push_str("\n")?;
    }
    Ok((script, text))
}

// How the first exchange that goes another way differs: its name, the size of the pieces, the line. No text where none
// differs.
fn first_other(alloc: Global, table: &[Exchange]) -> Result<String, Fail> {
    for exchange in table {
        let file = lab_with(alloc, exchange.keys)?;
        let (script, text) = script_of(alloc, exchange)?;
        let words: &[&str] = match exchange.keys {
            "" => &["replay"],
            _ => &["replay", "f", "lab"],
        };
        let name = exchange.name;
        for piece in [1, 7, 4096] {
            let script = script.as_str();
            let (status, found) = ran_over(alloc, words, file.as_str(), script, piece, &NONE)?;
            if found.as_str() != text.as_str() {
                let line = first_line(alloc, text.as_str(), found.as_str())?;
                return Ok(format!(in alloc; "{name}, in pieces of {piece}: {line}")?);
            }
            if status != Status::Done {
                return Ok(format!(in alloc; "{name}, in pieces of {piece}: status {status:?}")?);
            }
        }
    }
    Ok(String::new(alloc))
}

#[test]
fn exchanges_go_from_end_to_end(rt: HostRuntime) -> Result<(), Fail> {
    for table in [ROWS, ROWS_OVER_A_CLUSTER] {
        let other = first_other(rt.alloc(), table)?;
        assert_eq!(rt; other.as_str(), "");
    }
    Ok(())
}

#[test]
fn scripts_without_an_exchange(rt: HostRuntime) -> Result<(), Fail> {
    for (script, text, status) in [
        ("", "", Status::Done),
        ("client 0g", "bad line 1\n", Status::Refused),
    ] {
        let (found_status, found) = ran(rt.alloc(), &["replay"], script, 4096, &NONE)?;
        assert_eq!(rt; found.as_str(), text, "{script:?}");
        assert_eq!(rt; found_status, status, "{script:?}");
    }
    Ok(())
}
