//! What the proxy meets outside of itself: streams, files, and the memory that may be wanting.
//!
//! ```text
//!   Source --read-->  the proxy  --write--> Sink          Files --read--> a Blob
//!      |                                      |              |
//!    coming, reads, ended, faults        taken, faults     content, faults
//! ```
//!
//! Each trait has a count of faults. A call that fails raises it, and a call that doesn't fail leaves it, so
//! whoever reports a fault of the outside can point at the object that had it. A source gives its end once
//! and for all. What is still to come from a source, what its reads came to, what a sink took and what a
//! file holds are told where the object knows them. Objects in memory do, and the adapters to the machine
//! don't.
//!
//! Why a connection ended is an [`End`]. [`Steps`] counts what a contract bounds. What the bytes mean
//! is left alone here.
#![tactic(auto)]

mod blob;
mod counts;
mod end;
mod failed;
mod files;
mod host_files;
mod mem_files;
mod mem_sink;
mod mem_source;
mod no_memory;
mod read_log;
mod sink;
mod source;
mod std_in;
mod std_out;
mod steps;
mod sure_sink;
mod sure_source;
#[cfg(test)]
mod tests;
mod ticks;
mod unread;

pub use blob::Blob;
pub use counts::raise;
pub use end::End;
pub use failed::Failed;
pub use files::{FileFault, Files};
pub use host_files::HostFiles;
pub use mem_files::MemFiles;
pub use mem_sink::MemSink;
pub use mem_source::MemSource;
pub use no_memory::NoMemory;
pub use read_log::ReadLog;
pub use sink::Sink;
pub use source::Source;
pub use std_in::StdIn;
pub use std_out::StdOut;
pub use steps::Steps;
pub use sure_sink::SureSink;
pub use sure_source::SureSource;
