//! The outside as a source of files and a sink of bytes: the system's files and standard output, and both in memory.
#![tactic(auto)]

mod in_memory;
mod outside;
mod real;
mod transfer;

pub use in_memory::{MemorySink, MemorySource};
pub use outside::{Failed, Sink, Source};
pub use real::{FileSource, StdoutSink};
pub use transfer::{FetchFault, WriteFault, fetch, pour};
