//! The byte sources and sinks of the outside, with their counts of faults; the loops that read a source whole and
//! write all of some bytes; sources and sinks in memory; and the adapters over std's readers and writers.
#![tactic(auto)]

mod calls;
mod failed;
mod memory_sink;
mod memory_source;
mod read;
mod sink;
mod source;
mod std_sink;
mod std_source;
mod write;

pub use calls::Calls;
pub use failed::Failed;
pub use memory_sink::MemorySink;
pub use memory_source::MemorySource;
pub use read::{ReadStop, read_all, read_piece};
pub use sink::Sink;
pub use source::Source;
pub use std_sink::StdSink;
pub use std_source::StdSource;
pub use write::write_all;
