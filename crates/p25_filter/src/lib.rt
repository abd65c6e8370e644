//! The work on an input. Octets are read in chunks from a source and passed in their order to a command. The command's
//! output is written to a sink in few chunks.
//!
//! ```text
//! let mut source = SteadySource::new(b"ab\ncd\n", 4);
//! let mut room = [0; 64];
//! let mut sink = SliceSink::new(&mut room, &[]);
//! let mut lines = LineFilter::new(Echo);
//! let end = run_on(&mut lines, &mut Pair::new(&mut source, &mut sink));
//! assert_eq!(rt; end, FilterEnd::Ended(Ending::Done));
//! ```
//!
//! `Echo` is a machine over lines that returns each line unchanged, without its end: so `abcd` is written.
//!
//! A command is a `Filter`. Contracts see it by its `Future`. This is, for each list of octets that may still come, the
//! remaining output, the end of the call, and the texts after which an allocation may fail.
//!
//! `run_on` does the work on any port, and reads to the end of the input, at most 16,777,216 octets. Its contract
//! states the reads and writes that it makes, and their order: they are a live run of events (`IsRun`). All output that
//! the octets read so far determine is written before the next read, no write is empty, and nothing comes after a
//! fault. `laws::order_laws` states the consequences. Between a source and a sink (`Pair`), `Filtered` is the state
//! after each possible end.
//!
//! A command over lines is a `LineMachine`, which returns a text for each line, and `LineFilter` is the filter that it
//! makes. Contracts see it by its `LineRules`: the machine after a line and the text for it, or the line's fault.
#![tactic(auto)]

mod ending;
mod filter;
mod input;
pub mod laws;
mod line_filter;
mod line_machine;
mod page;
mod text;

pub use ending::{Ending, FilterEnd, Refusal};
pub use filter::Filter;
pub use input::run_on;
pub use line_filter::LineFilter;
pub use line_machine::{LineMachine, LineRefusal};
pub use text::Text;

#[cfg(test)]
mod tests;
