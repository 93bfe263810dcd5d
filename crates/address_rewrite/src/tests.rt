// One row a move, with ample memory. Other messages and versions are data: `examples/exchanges/addresses.exchanges`.
use super::*;
use bytes::Bytes;
use filter_core::{Filter, Input, Move, Reason};
use kp_edge::Blob;
use kp_schema::Dir;
use std::alloc::Global;
use std::test::*;
use tree_codec::{decode, encode};
use virtual_cluster::{Address, ClusterPlan, Plans, Sequence};

fn address(alloc: Global, port: u16) -> Option<Address> {
    let host = Blob::copy(alloc, b"k").ok()?;
    Some(Address { host, port })
}

fn plan(alloc: Global, host: &[u8], first_node: i32, nodes: Vec<Address>) -> Option<ClusterPlan> {
    Some(ClusterPlan {
        name: Blob::copy(alloc, b"alpha").ok()?,
        listen: Blob::copy(alloc, b"127.0.0.1").ok()?,
        advertise: Blob::copy(alloc, host).ok()?,
        port: 19_092,
        first_node,
        bootstrap: address(alloc, 9_092)?,
        nodes: Sequence::from_vec(nodes),
        prefix: None,
        filters: Sequence::new(alloc),
        policy_deny: Sequence::new(alloc),
        in_flight: 16,
        completers: 2,
        connections: 64,
    })
}

fn filter_of(alloc: Global, plan: ClusterPlan) -> Option<Addresses> {
    let mut list = Vec::new(alloc);
    list.push(plan).ok()?;
    if list.len() != 1 {
        return None;
    }
    let plans = Plans::new(list).ok()?;
    match plans.list() {
        [plan] => Addresses::new(alloc, plan).ok(),
        _ => None,
    }
}

// Nodes 5 and 6, at ports 19093 and 19094 of host p.
fn filter(alloc: Global) -> Option<Addresses> {
    let mut nodes = Vec::new(alloc);
    nodes.push(address(alloc, 9_093)?).ok()?;
    nodes.push(address(alloc, 9_094)?).ok()?;
    filter_of(alloc, plan(alloc, b"p", 5, nodes)?)
}

// Nodes 0 to 63, from port 19093 of this host on.
fn greatest_filter(alloc: Global, host: &[u8]) -> Option<Addresses> {
    let mut nodes = Vec::new(alloc);
    for _ in 0..64 {
        nodes.push(address(alloc, 9_093)?).ok()?;
    }
    filter_of(alloc, plan(alloc, host, 0, nodes)?)
}

// What goes back for a response: its bytes, or the node that shuts.
fn given_back(
    alloc: Global,
    filter: &Addresses,
    key: i16,
    version: i16,
    broker: Bytes,
) -> Option<Result<Bytes, i32>> {
    let came = decode(alloc, key, version, Dir::Response, broker).ok()?;
    match filter.resume(alloc, Addressing, Input::Response(came)) {
        Ok(Move::Return(Some(back))) => Some(Ok(encode(alloc, &back, 65_536).ok()?)),
        Ok(Move::Shut(Reason::NodeOutOfRange(node))) => Some(Err(node)),
        _other => None,
    }
}

#[test]
fn brokers_are_at_the_proxy(rt: HostRuntime) -> Result<(), Fail> {
    let filter = filter(rt.alloc()).ok_or("memory")?;
    // Node 5 at k:9093 and node 6 at k:9094 with a rack, before a cluster id, a controller and no topic.
    let broker: &'static [u8] =
        b"\0\0\0\x09\0\0\0\x02\0\0\0\x05\0\x01k\0\0\x23\x85\xff\xff\0\0\0\x06\0\x01k\0\0\x23\x86\0\x01r\0\x01c\0\0\0\x05\0\0\0\0\x80\0\0\0";
    let wanted: &'static [u8] =
        b"\0\0\0\x09\0\0\0\x02\0\0\0\x05\0\x01p\0\0\x4a\x95\xff\xff\0\0\0\x06\0\x01p\0\0\x4a\x96\0\x01r\0\x01c\0\0\0\x05\0\0\0\0\x80\0\0\0";
    let back = given_back(rt.alloc(), &filter, 3, 8, Bytes::from_static(broker));
    let back = back.ok_or("memory")?.ok().ok_or("shut")?;
    assert_eq!(rt; back.as_slice(), wanted);
    Ok(())
}

#[test]
fn a_coordinator_is_at_the_proxy(rt: HostRuntime) -> Result<(), Fail> {
    let filter = filter(rt.alloc()).ok_or("memory")?;
    let broker: &'static [u8] = b"\0\0\0\x09\0\0\0\x02ok\0\0\0\x06\0\x01k\0\0\x23\x86";
    let wanted: &'static [u8] = b"\0\0\0\x09\0\0\0\x02ok\0\0\0\x06\0\x01p\0\0\x4a\x96";
    let back = given_back(rt.alloc(), &filter, 10, 1, Bytes::from_static(broker));
    let back = back.ok_or("memory")?.ok().ok_or("shut")?;
    assert_eq!(rt; back.as_slice(), wanted);
    Ok(())
}

// The greatest node.
#[test]
fn a_node_without_a_port_shuts(rt: HostRuntime) -> Result<(), Fail> {
    let filter = filter(rt.alloc()).ok_or("memory")?;
    let broker: &'static [u8] = b"\0\0\0\0\0\0\xff\xff\x7f\xff\xff\xff\0\x01k\0\0\x23\x85";
    let back = given_back(rt.alloc(), &filter, 10, 2, Bytes::from_static(broker));
    let back = back.ok_or("memory")?;
    assert_eq!(rt; back.err(), Some(2_147_483_647));
    Ok(())
}

// 64 brokers, each with this host and these ports from the first on, behind no controller and before no topic.
fn many(alloc: Global, host: &[u8], port: i32) -> Option<Bytes> {
    let length = u16::try_from(host.len()).ok()?;
    let mut bytes = Vec::new(alloc);
    bytes.extend_from_slice(&[0, 0, 0, 64]).ok()?;
    for node in 0..64i32 {
        bytes.extend_from_slice(&node.to_be_bytes()).ok()?;
        bytes.extend_from_slice(&length.to_be_bytes()).ok()?;
        bytes.extend_from_slice(host).ok()?;
        bytes
            .extend_from_slice(&port.wrapping_add(node).to_be_bytes())
            .ok()?;
        bytes.extend_from_slice(&[0xff, 0xff]).ok()?;
    }
    bytes
        .extend_from_slice(&[0xff, 0xff, 0xff, 0xff, 0, 0, 0, 0])
        .ok()?;
    Bytes::from_vec(bytes).ok()
}

// The longest host.
#[test]
fn as_many_brokers_as_a_plan_can_have(rt: HostRuntime) -> Result<(), Fail> {
    let host = vec![in rt.alloc(); b'p'; 255]?;
    let filter = greatest_filter(rt.alloc(), host.as_slice()).ok_or("memory")?;
    let came = many(rt.alloc(), b"k", 9_000).ok_or("memory")?;
    let wanted = many(rt.alloc(), host.as_slice(), 19_093).ok_or("memory")?;
    let back = given_back(rt.alloc(), &filter, 3, 1, came).ok_or("memory")?;
    let back = back.ok().ok_or("shut")?;
    assert_eq!(rt; back.as_slice(), wanted.as_slice());
    Ok(())
}

#[test]
fn all_else_passes(rt: HostRuntime) -> Result<(), Fail> {
    let filter = filter(rt.alloc()).ok_or("memory")?;
    let request = decode(
        rt.alloc(),
        10,
        0,
        Dir::Request,
        Bytes::from_static(&[0, 1, b'g']),
    );
    let moved = filter.start(rt.alloc(), request.ok().ok_or("request")?);
    let message = match moved {
        Ok(Move::Forward(message, _pending)) => Some(message),
        _other => None,
    };
    let spelled = encode(rt.alloc(), &message.ok_or("moved")?, 64);
    assert_eq!(rt;
        spelled.ok().ok_or("memory")?.as_slice(),
        (&[0, 1, b'g']).as_slice()
    );
    // JoinGroup, whose generation stands before a text.
    let answer: &'static [u8] = &[
        0, 0, 0, 0, 0, 0, 0, 0, 0, 9, 0, 1, b'r', 0, 1, b'm', 0, 1, b'm', 0, 0, 0, 0,
    ];
    let back = given_back(rt.alloc(), &filter, 11, 2, Bytes::from_static(answer));
    let back = back.ok_or("memory")?.ok().ok_or("shut")?;
    assert_eq!(rt; back.as_slice(), answer);
    let none = match filter.resume(rt.alloc(), Addressing, Input::NoResponse) {
        Ok(Move::Return(back)) => Some(back.is_none()),
        _other => None,
    };
    assert_eq!(rt; none, Some(true));
    addresses_law();
    nodes_law();
    Ok(())
}
