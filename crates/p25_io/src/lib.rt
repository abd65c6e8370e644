//! The input and output of the toolkit: where octets come from ([`Source`]) and where they go to ([`Sink`]).
//!
//! ```
//! let mut source = SteadySource::new(b"octets", 4096);
//! let mut room = [0; 8];
//! let mut sink = SliceSink::new(&mut room, &[]);
//! let mut buf = [0; 4];
//! let count = source.read(&mut buf)?;
//! sink.write(&buf[..count])?;
//! assert_eq!(rt; sink.written(), b"octe".as_slice());
//! ```
//!
//! - The crates above are written over any source and any sink, and proved from the clauses of these traits alone.
//! - A source may expose the octets that it has left, and a sink the octets that were written to it. Sources and sinks
//!   in memory do so. The adapters over std's readers and writers, [`ReadSource`] and [`WriteSink`], expose nothing,
//!   because no contract can state what a terminal, a pipe or a file holds. [`CountSink`] keeps a number alone.
//! - Each fault of a source or a sink raises a count, which never falls and saturates at 2^64 - 1. A call fails only if
//!   its count rose. [`ReadSource`] and [`Streams`] keep each result of their reader, so that `Failed` is returned if
//!   and only if the reader failed. Only [`Streams`] keeps the results of a writer.
//! - A [`Port`] is both a source and a sink, and exposes the order of its calls. [`Pair`] is the port of a source and a
//!   sink, and [`Tape`] is a port in memory that keeps every call. [`Streams`] is the port of a reader and a writer of
//!   std.
//! - No call allocates memory, except those of [`Tape`].
#![tactic(auto)]

mod asked;
mod count_sink;
mod failed;
mod history;
mod memory_source;
mod pair;
mod port;
mod read_source;
mod sink;
mod slice_sink;
mod source;
mod steady_source;
mod streams;
mod tape;
mod write_sink;

pub use count_sink::CountSink;
pub use failed::Failed;
pub use memory_source::MemorySource;
pub use pair::Pair;
pub use port::Port;
pub use read_source::ReadSource;
pub use sink::Sink;
pub use slice_sink::SliceSink;
pub use source::Source;
pub use steady_source::SteadySource;
pub use streams::Streams;
pub use tape::{Call, Tape};
pub use write_sink::WriteSink;

#[cfg(test)]
mod tests;
