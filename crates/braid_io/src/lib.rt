//! Sources and sinks of bytes that count their faults.
//!
//! A read or a write answers `Failed` only where the count of faults of its own source or sink
//! rose, so each refusal further up has a cause that can be shown.
#![tactic(auto)]

mod memory;
mod standard;
mod streams;
mod whole;

pub use memory::{MemSink, MemSource};
pub use standard::{StdSink, StdSource};
pub use streams::{Failed, Sink, Source};
pub use whole::{ReadStop, read_all, write_all_of};
