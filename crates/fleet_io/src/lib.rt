//! Bytes in and out, with counted faults: the traits [`Source`] and [`Sink`], four of them that
//! lie in memory, one of each over any reader and writer, and the calls that read a source to its
//! end and write a whole text.
//!
//! A source and a sink count their faults. Where a contract says that the count rose, it is higher
//! than before the call or stands at its last value, 2^64 - 1.
#![tactic(auto)]

mod ends;
mod memory;
mod moves;
mod standard;
#[cfg(test)]
mod tests;

pub use ends::{ReadFailed, Sink, Source, WriteFailed};
pub use memory::{MemSink, MemSource, SureSink, SureSource};
pub use moves::{Taken, WriteFault, read_all, write_text};
pub use standard::{StdSink, StdSource};
