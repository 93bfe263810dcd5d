//! The top calls of kproxy: what the program does with its words, over streams and files that are handed in.
//!
//! ```text
//!   input --lines--> Replay --pieces--> Station over a connection --> answers --text--> out
//! ```
//!
//! It reads no file and no stream by itself: `main` hands them in, and so does a test.
#![tactic(auto)]

mod cluster_replay;
mod command;
mod conclude;
mod default_plan;
mod file_answer;
mod laws;
mod lines;
mod output;
mod perform;
mod plan_replay;
mod replay;
mod run;
mod script;
mod status;
mod stop;
#[cfg(test)]
mod tests;

pub use command::run_command;
pub use laws::replay_laws;
pub use status::Status;
