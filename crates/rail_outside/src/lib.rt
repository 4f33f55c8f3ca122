//! The outside of a program: a shelf of files by their names, and a sink for printed text.
//!
//! `MemoryShelf` and `MemorySink` keep what was asked of them and can be made to fail; `ReliableShelf` and
//! `ReliableSink` never fail, and `NullSink` keeps nothing.
#![tactic(auto)]

mod folder;
mod memory_shelf;
mod memory_sink;
mod null_sink;
mod print;
mod reliable;
mod shelf;
mod sink;

pub use memory_shelf::{Call, MemoryShelf};
pub use memory_sink::{Failure, MemorySink};
pub use null_sink::NullSink;
pub use print::put_lines;
pub use reliable::{ReliableShelf, ReliableSink};
pub use shelf::{FetchFault, Shelf, StoreFault};
pub use sink::{Sink, SinkFault};
