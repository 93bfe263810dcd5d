ghost use Rattle.std.specs.Prelude.{◌≡◌, ◌+◌, ◌≤◌, length, IfOk, OnOk};
ghost use Rattle.virtual_cluster.specs.Limits.{IsValid};
ghost use Rattle.tree_codec.specs.Copying.{followed_by};
ghost use Rattle.filter_core.specs.Decision.{Makes};
ghost use Rattle.address_rewrite.specs.Nodes.{NodeAddress, address_items, map_nodes};
ghost use Rattle.address_rewrite.specs.Addresses.{names_nodes, client_port, is_stray, first_stray, advertised_by, addressed, addressed_response, addresses};

use crate::building::{finish, push, push_shared, share, share_text};
use crate::nodes::split_node;
use bytes::Bytes;
use filter_core::{Filter, Input, Move, Reason};
use kp_edge::NoMemory;
use std::alloc::Global;
use tree_codec::{Body, Builder, Primitive};
use virtual_cluster::ClusterPlan;

// The keys of Metadata and of FindCoordinator.
const METADATA: i16 = 3;

const FIND_COORDINATOR: i16 = 10;

/// What [`Addresses`] keeps of a request that it forwarded: nothing.
#[derive(Debug, Drop)]
pub struct Addressing;

/// The brokers live at the proxy's address: in each response to Metadata and to FindCoordinator a node has the host
/// that the plan advertises, and the port that the proxy has for it.
#[derive(Drop)]
pub struct Addresses {
    host: Bytes,
    // The bootstrap port, behind which the nodes' ports stand.
    port: u16,
    first_node: i32,
    // How many nodes there are.
    count: usize,
    ghost host_fits: { length host ≤ 255 },
    ghost ports_fit: { port + count ≤ 65535 },
}

impl Addresses {
    ghost use Rattle.address_rewrite.specs.PlanFilter.{ports_of, addresses_turn};

    /// The filter of a plan. Its memory is that of the host.
    pub fn new(alloc: Global, plan: &ClusterPlan) -> Result<Addresses, NoMemory>
        requires { IsValid plan.now }
        ensures { IfOk result (λ filter. ⟦<Addresses as Filter>⟧.turn filter ≡ addresses plan.now) }
    {
        let host = Bytes::copy_from_slice(alloc, plan.advertise.as_slice());
        match host {
            Ok(host) => Ok(Addresses {
                host,
                port: plan.port,
                first_node: plan.first_node,
                count: plan.nodes.len(),
            }),
            Err(_) => Err(NoMemory),
        }
    }

    // The port of a node for clients.
    fn client_port(&self, node: i32) -> Option<u16>
        ensures { result ≡ client_port (ports_of self.now) node }
    {
        if node < 0 || node < self.first_node {
            return None;
        }
        let index = (node as i64 - self.first_node as i64) as usize;
        if index < self.count {
            Some((self.port as usize + 1 + index) as u16)
        } else {
            None
        }
    }

    // Whether it is a node without a port.
    fn is_stray(&self, node: i32) -> bool
        ensures { result ≡ is_stray (ports_of self.now) node }
    {
        0 <= node && self.client_port(node).is_none()
    }

    fn first_stray(&self, items: &[Primitive]) -> Option<i32>
        ensures { result ≡ first_stray (ports_of self.now) items.now }
    {
        let mut rest = items;
        while let Some((_, behind)) = rest.split_first() {
            match split_node(rest) {
                Some((node, _, _, behind)) => {
                    if self.is_stray(node) {
                        return Some(node);
                    }
                    rest = behind;
                }
                None => rest = behind,
            }
        }
        None
    }

    fn push_node(
        &self,
        out: &mut Builder,
        node: i32,
        host: &Option<Bytes>,
        port: i32,
    ) -> Result<(), NoMemory>
        ensures { OnOk result (out.new ≡ followed_by out.old (address_items (advertised_by self.now.host (ports_of self.now) (record { node = node; host = host.now; port = port })))) }
    {
        push(out, Primitive::Int32(node))?;
        match self.client_port(node) {
            Some(port) => {
                push(out, Primitive::Text(Some(share(&self.host)?)))?;
                push(out, Primitive::Int32(port as i32))
            }
            None => {
                push(out, Primitive::Text(share_text(host)?))?;
                push(out, Primitive::Int32(port))
            }
        }
    }

    fn push_addressed(&self, out: &mut Builder, items: &[Primitive]) -> Result<(), NoMemory>
        ensures { OnOk result (out.new ≡ followed_by out.old (map_nodes (advertised_by self.now.host (ports_of self.now)) items.now)) }
    {
        let mut rest = items;
        while let Some((first, behind)) = rest.split_first() {
            match split_node(rest) {
                Some((node, host, port, behind)) => {
                    self.push_node(out, node, host, port)?;
                    rest = behind;
                }
                None => {
                    push_shared(out, first)?;
                    rest = behind;
                }
            }
        }
        Ok(())
    }

    // The response with each node at its address.
    fn addressed(&self, alloc: Global, response: &Body) -> Result<Body, NoMemory>
        ensures { IfOk result (λ new. new ≡ addressed self.now.host (ports_of self.now) response.now) }
    {
        let mut out = Builder::new(alloc, response.key(), response.version(), response.dir());
        self.push_addressed(&mut out, response.items())?;
        finish(out)
    }

    // What is done with a response.
    fn answer(&self, alloc: Global, response: Body) -> Result<Move<Addressing>, NoMemory>
        ensures { IfOk result (λ made. Makes (λ _. ⊥) (addressed_response self.now.host (ports_of self.now) response) made) }
    {
        if !names_nodes(&response) {
            return Ok(Move::Return(Some(response)));
        }
        match self.first_stray(response.items()) {
            Some(node) => Ok(Move::Shut(Reason::NodeOutOfRange(node))),
            None => Ok(Move::Return(Some(self.addressed(alloc, &response)?))),
        }
    }
}

impl Filter for Addresses {
    ghost use Rattle.std.specs.Prelude.{◌≡◌, []};
    ghost use Rattle.address_rewrite.specs.PlanFilter.{addresses_turn, addresses_turn_lawful};

    type Pending = Addressing;

    ghost turn = { addresses_turn };

    ghost stands = { λ _ _ _ inputs. inputs ≡ [] };

    fn start(&self, _alloc: Global, request: Body) -> Result<Move<Addressing>, NoMemory> {
        Ok(Move::Forward(request, Addressing))
    }

    fn resume(
        &self,
        alloc: Global,
        _pending: Addressing,
        input: Input,
    ) -> Result<Move<Addressing>, NoMemory> {
        match input {
            Input::Response(response) => self.answer(alloc, response),
            Input::NoResponse | Input::Verdict(_) => Ok(Move::Return(None)),
        }
    }

    ghost forwards_once = { λ filter. (addresses_turn_lawful filter).forwards_once };

    ghost ends_after_six = { λ filter. (addresses_turn_lawful filter).ends_after_six };

    ghost forwards_the_same = { λ filter. (addresses_turn_lawful filter).forwards_the_same };

    ghost questions_are_answered = { λ filter. (addresses_turn_lawful filter).questions_are_answered };

    ghost returns_an_answer = { λ filter. (addresses_turn_lawful filter).returns_an_answer };
}

// Whether a response names nodes.
fn names_nodes(response: &Body) -> bool
    ensures { result ≡ names_nodes response.now }
{
    response.key() == METADATA || response.key() == FIND_COORDINATOR
}
