use super::*;
use kp_edge::Blob;
use std::alloc::Global;
use std::process::Abort;
use virtual_cluster::{Plans, Sequence};

fn address(rt: &impl Abort, alloc: Global, port: u16) -> Address {
    Address {
        host: Blob::copy(alloc, b"127.0.0.1").expect(rt, "memory"),
        port,
    }
}

// Port 19092, and nodes 5 and 6 at ports 9093 and 9094 of the brokers.
fn plans(rt: &impl Abort, alloc: Global) -> Plans {
    let nodes = vec![in alloc; address(rt, alloc, 9_093), address(rt, alloc, 9_094)];
    let plan = ClusterPlan {
        name: Blob::copy(alloc, b"alpha").expect(rt, "memory"),
        listen: Blob::copy(alloc, b"127.0.0.1").expect(rt, "memory"),
        advertise: Blob::copy(alloc, b"p").expect(rt, "memory"),
        port: 19_092,
        first_node: 5,
        bootstrap: address(rt, alloc, 9_092),
        nodes: Sequence::from_vec(nodes.expect(rt, "memory")),
        prefix: None,
        filters: Sequence::new(alloc),
        policy_deny: Sequence::new(alloc),
        in_flight: 16,
        completers: 2,
        connections: 64,
    };
    let list = vec![in alloc; plan].expect(rt, "memory");
    assert_eq!(rt; list.len(), 1);
    Plans::new(list).ok().expect(rt, "no fault")
}

#[test]
fn each_node_has_its_port(rt: HostRuntime) {
    let plans = plans(&rt, rt.alloc());
    let list = plans.list();
    assert_eq!(rt; list.len(), 1);
    let table = [
        (5, Some(19_093)),
        (6, Some(19_094)),
        (4, None),
        (7, None),
        (-1, None),
        (i32::MIN, None),
        (i32::MAX, None),
    ];
    for (node, want) in table {
        assert_eq!(rt; (node, port_of(&list[0], node)), (node, want));
    }
}

#[test]
fn each_port_has_its_role_and_target(rt: HostRuntime) {
    let plans = plans(&rt, rt.alloc());
    let list = plans.list();
    assert_eq!(rt; list.len(), 1);
    let table = [
        (19_092, Some(PortRole::Bootstrap), Some(9_092)),
        (19_093, Some(PortRole::Node(5)), Some(9_093)),
        (19_094, Some(PortRole::Node(6)), Some(9_094)),
        (19_091, None, None),
        (19_095, None, None),
        (0, None, None),
        (65_535, None, None),
    ];
    for (port, role, target) in table {
        assert_eq!(rt; (port, role_of(&list[0], port)), (port, role));
        let led = match role {
            Some(role) => target_of(&list[0], role).map(|address| address.port),
            None => None,
        };
        assert_eq!(rt; (port, led), (port, target));
    }
    let nowhere = target_of(&list[0], PortRole::Node(7)).is_none();
    assert!(rt; nowhere);
    port_law();
}
