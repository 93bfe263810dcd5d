//! One type over all filters, and the chain that a plan asks for.
//!
//! ```text
//!   client --> Narrow --> the plan's filters, in their order --> Addresses --> broker
//! ```
//!
//! A chain is a vector of one type of filter, so that type is an enum. What it does is done by the filter inside.
#![tactic(auto)]

mod any_filter;
mod any_pending;
mod chains;
#[cfg(test)]
mod tests;

pub use any_filter::AnyFilter;
pub use any_pending::AnyPending;
pub use chains::chain_of;
