// What `examples/config` can't show: the values of a plan, and more clusters than a file of cases has room for.
use super::*;
use crate::filter::filter;
use kp_edge::Blob;
use std::alloc::Global;
use std::test::*;
use virtual_cluster::{ClusterPlan, FilterPlan};

// How many clusters a text has, or how it is refused.
fn answer(alloc: Global, text: &[u8]) -> Result<String, Fail> {
    match read(alloc, text) {
        Ok(plans) => {
            let count = plans.list().len();
            Ok(format!(in alloc; "ok {count}")?)
        }
        Err(fault) => {
            let text = fault.text(alloc).map_err(|_| "memory")?;
            let text = std::str::from_utf8(text.as_slice()).map_err(|_| "text")?;
            Ok(String::from_str(alloc, text)?)
        }
    }
}

// So many clusters with so many nodes each.
fn clusters(alloc: Global, count: u16, nodes: usize) -> Result<String, Fail> {
    let mut text = String::from_str(alloc, "version = 1\n")?;
    for number in 0..count {
        let port = 1_000 + number as usize * 100;
        let head = format!(in alloc;
            "[[cluster]]\nname = \"c{number}\"\nlisten = \"h\"\nadvertise = \"h\"\nport = {port}\nfirst_node = 0\nbootstrap = \"h:1\"\nnodes = ["
        )?;
        text.push_str(head.as_str())?;
        for _ in 0..nodes {
            text.push_str("\"h:1\", ")?;
        }
        text.push_str("]\n")?;
    }
    Ok(text)
}

#[test]
fn counts(rt: HostRuntime) -> Result<(), Fail> {
    let alloc = rt.alloc();
    for (count, nodes, want) in [
        (64, 64, "ok 64"),
        (65, 1, "bad-value cluster"),
        (64, 65, "bad-limit 0 nodes"),
    ] {
        let text = clusters(alloc, count, nodes)?;
        assert_eq!(rt; answer(alloc, text.as_bytes())?.as_str(), want);
    }
    Ok(())
}

const DEFAULTS: &str =
    "version = 1\n[[cluster]]\nname = \"alpha\"\nlisten = \"127.0.0.1\"\nadvertise = \"p\"\nport = 19092\nfirst_node = 7\nbootstrap = \"127.0.0.2:9092\"\nnodes = [\"127.0.0.1:9092\", \"127.0.0.1:9093\"]\n";

const REST: &str =
    "in_flight = 3\ncompleters = 4\nconnections = 5\npolicy_deny = [\"t\", \"u\"]\nprefix = \"a-\"\nfilters = [\"produce-all\"]\n";

fn is(bytes: &Blob, text: &str) -> bool {
    bytes.as_slice() == text.as_bytes()
}

fn has_all_its_values(plan: &ClusterPlan) -> bool {
    is(&plan.name, "alpha")
        && is(&plan.listen, "127.0.0.1")
        && is(&plan.advertise, "p")
        && plan.port == 19_092
        && plan.first_node == 7
        && is(&plan.bootstrap.host, "127.0.0.2")
        && plan.bootstrap.port == 9_092
        && plan.nodes.len() == 2
}

#[test]
fn values_and_defaults(rt: HostRuntime) -> Result<(), Fail> {
    let alloc = rt.alloc();
    for (rest, limits, lists) in [
        ("", (16, 2, 64), (0, 0, false)),
        (REST, (3, 4, 5), (1, 2, true)),
    ] {
        let mut text = String::from_str(alloc, DEFAULTS)?;
        text.push_str(rest)?;
        let plans = read(alloc, text.as_bytes()).ok().ok_or("plans")?;
        let list = plans.list();
        assert_eq!(rt; list.len(), 1);
        let plan = &list[0];
        assert!(rt; has_all_its_values(plan));
        assert_eq!(rt; (plan.in_flight, plan.completers, plan.connections), limits);
        assert_eq!(rt;
            (
                plan.filters.len(),
                plan.policy_deny.len(),
                plan.prefix.is_some()
            ),
            lists
        );
    }
    Ok(())
}

#[test]
fn listed_filters(rt: HostRuntime) -> Result<(), Fail> {
    let alloc = rt.alloc();
    match filter(alloc, b"topic-deny:a b:c,__d").map_err(|_| "memory")? {
        Some(FilterPlan::TopicDeny(topics)) => {
            let topics = topics.as_slice();
            assert_eq!(rt; topics.len(), 2);
            assert!(rt; is(&topics[0], "a b:c") && is(&topics[1], "__d"));
        }
        _ => return Err("topic-deny".into()),
    }
    match filter(alloc, b"api-block:32767,00012").map_err(|_| "memory")? {
        Some(FilterPlan::ApiBlock(keys)) => {
            assert!(rt; keys.as_slice() == [32_767i16, 12].as_slice());
        }
        _ => return Err("api-block".into()),
    }
    Ok(())
}
