//! Kafka's primitive types as bytes ("Protocol Primitive Types" of the protocol guide).
//!
//! A [`Writer`] appends the spelling of one item after the other, and a [`Reader`] takes them off
//! again in the same order:
//!
//! ```text
//!   INT8    1 byte, two's complement
//!   INT16   2 bytes, big-endian two's complement
//!   INT32   4 bytes, big-endian two's complement
//!   INT64   8 bytes, big-endian two's complement
//!   STRING  INT16 length, then that many bytes; length -1 is null
//!   BYTES   INT32 length, then that many bytes; length -1 is null
//!   ARRAY   INT32 count, then that many entries; count -1 is null
//! ```
//!
//! What the items mean, in which order a message has them, and whether a STRING is text are left to
//! the crates above.
#![tactic(auto)]

mod laws;
mod no_memory;
mod put_fault;
mod read_fault;
mod reader;
mod writer;

pub use laws::one_spelling;
pub use no_memory::NoMemory;
pub use put_fault::PutFault;
pub use read_fault::ReadFault;
pub use reader::Reader;
pub use writer::Writer;

#[cfg(test)]
mod tests;
