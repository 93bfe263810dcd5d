//! Filters for tests: they ask, hold, heed a verdict, answer, change, grow and shut.
//!
//! They know a Heartbeat and a SyncGroup of version 0 and a Metadata request of version 4, and meet the trait of filters
//! like any other. No crate but tests uses them.
#![tactic(auto)]

mod building;
mod grows;
mod growth;
mod habit;
mod messages;
mod probe;

pub use grows::Grows;
pub use growth::Growth;
pub use messages::{heartbeat, heartbeat_error};
pub use probe::{Probe, Waits};
