//! A request on its way through a chain of filters.
//!
//! ```text
//!   client --> filter 0 --> filter 1 --> .. --> the broker          a request, and what is asked aside
//!   client <-- filter 0 <-- filter 1 <-- ..                         what comes back for it
//! ```
//!
//! A message that a filter forwards, or asks aside, passes the filters nearer the broker alone, and so does what comes
//! back for it. What a filter returns passes those nearer the client alone. `specs/Chain.antt` says so, over the turns
//! of any filters.
//!
//! [`Run`] is a request that waits. It keeps one pending value for each suspended filter, and is moved into and out of
//! [`Run::poll`]: no filter has a turn twice, and nothing is copied.
#![tactic(auto)]

mod awaited;
mod laws;
mod outside;
mod passing;
mod run;
mod state;
mod suspended;
mod turns;

pub use laws::chain_laws;
pub use outside::Outside;
pub use run::Run;
pub use state::{ShutCause, State};
