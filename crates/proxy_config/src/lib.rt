//! A configuration as text, and the plans that it stands for.
//!
//! ```text
//!   text --toml--> table --keys in order--> values --> ClusterPlan, one a cluster --> Plans
//!                    |             |                                             |
//!                 NotToml    Missing, WrongType, ..                        Plan(PlanFault)
//! ```
//!
//! The keys, their values and the order of the faults are told in docs/CONFIG.md. [`read`] gives the plans or the
//! first fault, and [`ConfigFault::text`] how a fault is written. No file is opened here.
#![tactic(auto)]

mod address;
mod cluster;
mod comma_list;
mod fault;
mod filter;
mod keys;
mod lists;
mod number;
mod reading;
#[cfg(test)]
mod tests;
mod texts;
mod values;

pub use fault::{ConfigFault, Place};
pub use reading::read;
