ghost use Rattle.std.specs.Prelude.{◌≡◌};

use super::*;
use kp_edge::Blob;
use std::alloc::Global;
use std::process::Abort;

fn blob(rt: &impl Abort, alloc: Global, text: &str) -> Blob {
    Blob::copy(alloc, text.as_bytes()).expect(rt, "memory")
}

// A plan of one node, which is at port 9092 of this host, as the bootstrap address is.
fn plan(rt: &impl Abort, alloc: Global, name: &str, bootstrap: &str, node: &str) -> ClusterPlan {
    let node = Address {
        host: blob(rt, alloc, node),
        port: 9_092,
    };
    ClusterPlan {
        name: blob(rt, alloc, name),
        listen: blob(rt, alloc, "127.0.0.1"),
        advertise: blob(rt, alloc, "p"),
        port: 19_092,
        first_node: 0,
        bootstrap: Address {
            host: blob(rt, alloc, bootstrap),
            port: 9_092,
        },
        nodes: Sequence::from_vec(vec![in alloc; node].expect(rt, "memory")),
        prefix: None,
        filters: Sequence::new(alloc),
        policy_deny: Sequence::new(alloc),
        in_flight: 16,
        completers: 2,
        connections: 64,
    }
}

// Hosts that no address of a configuration has.
#[test]
fn an_address_has_a_host_without_a_colon(rt: HostRuntime) {
    let alloc = rt.alloc();
    for host in ["", "a:b"] {
        for (bootstrap, node, key) in [
            (host, "k", LimitKey::Bootstrap),
            ("k", host, LimitKey::Nodes),
        ] {
            let at = plan(&rt, alloc, "x", bootstrap, node);
            let list = vec![in alloc; at].expect(&rt, "memory");
            assert_eq!(rt; list.len(), 1);
            let fault = Plans::new(list).err();
            assert_eq!(rt;
                (host, fault),
                (host, Some(PlanFault::BadLimit { a: 0, key }))
            );
        }
    }
}

#[test]
fn a_plan_is_found_by_its_name(rt: HostRuntime) {
    let alloc = rt.alloc();
    for (name, is_found) in [
        ("ab", true),
        ("", false),
        ("x", false),
        ("abc", false),
        ("AB", false),
    ] {
        let list = vec![in alloc; plan(&rt, alloc, "ab", "k", "k")].expect(&rt, "memory");
        assert_eq!(rt; list.len(), 1);
        let plans = Plans::new(list).ok().expect(&rt, "no fault");
        let number = if is_found { Some(0) } else { None };
        assert_eq!(rt; (name, plans.named(name.as_bytes())), (name, number));
        let found = plans.into_named(name.as_bytes());
        assert_eq!(rt;
            (name, found.map(|plan| plan.port)),
            (name, if is_found { Some(19_092) } else { None })
        );
    }
}

#[test]
fn a_name_without_its_prefix(rt: HostRuntime) {
    for (prefix, name, want) in [
        ("alpha-", "alpha-x", Some("x")),
        ("alpha-", "alpha-", Some("")),
        ("alpha-", "alpha", None),
        ("alpha-", "beta-x", None),
        ("alpha-", "x-alpha-", None),
        ("", "x", Some("x")),
        ("", "", Some("")),
        ("a", "", None),
    ] {
        let rest = name_strip(prefix.as_bytes(), name.as_bytes());
        assert_eq!(rt;
            (prefix, name, rest),
            (prefix, name, want.map(|s| s.as_bytes()))
        );
        assert_eq!(rt; begins(prefix.as_bytes(), name.as_bytes()), want.is_some());
    }
}

// With ample memory, up to the longest text that a message can have and past it.
#[test]
fn names_of_every_size_get_their_prefix(rt: HostRuntime) {
    let alloc = rt.alloc();
    for (before, behind, fits) in [
        (0, 0, true),
        (1, 0, true),
        (64, 249, true),
        (63, 32_704, true),
        (0, 32_767, true),
        (6, 32_762, false),
        (6, 32_767, false),
    ] {
        let prefix = vec![in alloc; b'p'; before].expect(&rt, "memory");
        let name = vec![in alloc; b'n'; behind].expect(&rt, "memory");
        let mut want = vec![in alloc; b'p'; before].expect(&rt, "memory");
        want.extend_from_slice(name.as_slice())
            .expect(&rt, "memory");
        match name_add(alloc, prefix.as_slice(), name.as_slice()) {
            Ok(whole) => assert!(rt;
                fits && whole.as_slice() == want.as_slice(),
                "{before}, {behind}"
            ),
            Err(NameFault::TooLong { length }) => assert_eq!(rt;
                (fits, length),
                (false, want.len() as u64)
            ),
            Err(NameFault::NoMemory) => assert!(rt; false, "memory"),
        }
    }
}
