//! ApiVersions (key 18): what a proxy says of the versions that it reads.
//!
//! ```text
//!   client asks in version 3 --> refusal: versions 0 to 2 are known, in the form of version 0
//!   broker says Fetch 0 to 13 --> narrow: Fetch 4 to 11
//! ```
//!
//! A client learns from it in which version to ask again (KIP-511). Whether a version is known is for the caller
//! to say. A broker's own answer is narrowed to the versions that both know.
#![tactic(auto)]

mod narrowing;
#[cfg(test)]
mod tests;
mod unknown_version;

pub use narrowing::{narrow, versions_law};
pub use unknown_version::refusal;
