//! The outside as a program sees it: sources of bytes and sinks for bytes, each with a count of its faults.
#![tactic(auto)]

mod mem_sink;
mod mem_source;
mod outside;
mod plan;
mod std_sink;
mod std_source;
mod steady;
mod whole;

pub use mem_sink::MemSink;
pub use mem_source::MemSource;
pub use outside::{Failed, Sink, Source};
pub use std_sink::StdSink;
pub use std_source::StdSource;
pub use steady::{SteadySink, SteadySource};
pub use whole::{ReadErr, read_all, write_whole};
