//! What is written of a configuration file: its number of clusters, which port leads where, or why it is refused. And
//! the plan of one of its clusters, by name.
//!
//! ```text
//!   bytes --read--> Plans --told--> "ok 1"  |  "cluster alpha", "bootstrap 19092 h:9092", ..
//!             |
//!             +----> ConfigFault --refused--> "refused port-range 0"
//! ```
//!
//! The lines are told in docs/CONFIG.md. No file is opened here, and nothing is written.
#![tactic(auto)]

mod answer;
mod asked;
mod cluster;
mod laws;
mod plan_text;
#[cfg(test)]
mod tests;

pub use answer::{CONFIG_LIMIT, ConfigAnswer, config_answer};
pub use asked::Asked;
pub use cluster::{ClusterAnswer, cluster_answer};
pub use laws::front_law;
