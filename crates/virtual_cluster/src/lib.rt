//! Virtual clusters: what each plan says, which plans can be served side by side, and tenants' names.
//!
//! ```text
//!   ports of the proxy                     addresses of the broker cluster
//!   port        --- bootstrap -----------> bootstrap
//!   port + 1    --- first_node ----------> nodes[0]
//!   port + 2    --- first_node + 1 ------> nodes[1]
//! ```
//!
//! A [`ClusterPlan`] is one virtual cluster. [`Plans`] are 1 to 64 of them without a fault: each is within its
//! limits, no two have one name or a port in common, and no tenant's prefix begins that of another on a broker
//! that both use. Where a name comes from and what is done with a port is left alone here.
#![tactic(auto)]

mod address;
mod fault;
mod filter_plan;
mod limits;
mod names;
mod pairs;
mod plan;
mod plans;
mod sequence;
#[cfg(test)]
mod tests;
mod texts;

pub use address::Address;
pub use fault::{LimitKey, NameFault, PlanFault};
pub use filter_plan::FilterPlan;
pub use names::{begins, name_add, name_strip};
pub use plan::ClusterPlan;
pub use plans::Plans;
pub use sequence::Sequence;
