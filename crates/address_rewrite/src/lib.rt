//! `Addresses`, the filter that makes brokers live at the proxy's address.
//!
//! ```text
//!   broker: node 1 is at k:9093   -- Metadata, FindCoordinator -->   client: node 1 is at p:19094
//! ```
//!
//! A client learns from the brokers where they are, and connects there. Behind this filter it learns the host that the
//! plan advertises, and the port that the proxy has for the node. A node that the plan doesn't have ends the
//! connection: a client that knew its address would go round the proxy.
//!
//! No port is opened here, and no name is resolved.
#![tactic(auto)]

mod addresses;
mod building;
mod laws;
mod nodes;
#[cfg(test)]
mod tests;

pub use addresses::{Addresses, Addressing};
pub use laws::{addresses_law, nodes_law};
