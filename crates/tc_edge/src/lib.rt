//! Layer 1, base: bytes that come in and go out, the traits of sources and sinks, and those in memory and of std.
#![tactic(auto)]

mod memory;
mod standard;
mod streams;

pub use memory::{MemSink, MemSource};
pub use standard::{StdSink, StdSource};
pub use streams::{EdgeFault, Sink, Source, WriteFault, write_all};
