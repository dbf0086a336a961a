//! Where bytes come from and where they go: sources and sinks that count their faults.
#![tactic(auto)]

mod failing;
mod mem_sink;
mod mem_source;
mod sink;
mod source;
mod std_sink;
mod std_source;
mod sure;

pub use growing_list::{Bytes, OutOfMemory};
pub use mem_sink::MemSink;
pub use mem_source::MemSource;
pub use sink::{Sink, write_all};
pub use source::{ReadFail, Source, read_all};
pub use std_sink::StdSink;
pub use std_source::StdSource;
pub use sure::{SureSink, SureSource};

/// A read or a write that failed.
#[derive(Clone, Copy, Debug, PartialEq, Eq)]
pub struct Failed;
