//! Scripts of packet stations: lines that decode to events, and the texts of steps.
//!
//! A script line is words with single spaces between them: `send` with a message, `timeout`, `reopen`, or `deliver`
//! with `data` or `answer` and the positions of the inverted bits, counted from the first transmitted bit of the data
//! unit. `event_of line` is the decoding of a line and `event_text event` the line of an event, and each inverts the
//! other. The text of a step is `step_text_of step`, and `closing_text_of` is the text for a world at the end of a run.
//! Contracts see a `Line` as the list of its octets, first to last.
//!
//! ```text
//! let mut world = World::new(rt.alloc());
//! let event = read_event(b"send 6162")?;
//! let step = world.step(&event)?;
//! let mut line = Line::new();
//! step_text(&step, &mut line);
//! assert_eq!(rt; line.octets(), b"send taken ns=0 blocks=1".as_slice());
//! ```
//!
//! Two other forms of scripts have their words from this one, and their calls have the names of these with `long` or
//! `duplex`:
//!
//! - A script of long messages has `long` with a long message instead of `send`. The text of its step is one or two
//!   lines, each with its end, in two parts.
//! - In a script in which both stations send, a line is a side, `a` or `b`, with its action, or `deliver` with a
//!   direction, `ab` or `ba`, and the positions. The text of its step begins with the letter of the side that acts or
//!   receives.
//!
//! A `StepText` is a step of any of the three forms, whose `{}` writes its text. An `EventLine` is an event that
//! `parse` decodes as `read_event` and its variants do. `LongStepText`, `DuplexStepText`, `LongEventLine` and
//! `DuplexEventLine` are names for those of the other two forms.
#![tactic(auto)]

mod closing;
mod duplex_read;
mod duplex_steps;
pub mod laws;
mod long_read;
mod long_steps;
mod names;
mod read;
mod shown;
mod steps;
#[cfg(test)]
mod tests;
mod values;

pub use closing::{closing_text, long_closing_text};
pub use duplex_read::read_duplex_event;
pub use duplex_steps::duplex_step_text;
pub use long_read::read_long_event;
pub use long_steps::long_step_text;
pub use p25_duplex::duplex_closing;
pub use p25_line::{Line, LineFault};
pub use p25_stations::{Event, Step, StepKind, Way, World};
pub use read::read_event;
pub use shown::{
    DuplexEventLine, DuplexStepText, EventLine, LongEventLine, LongStepText, ScriptEvent,
    ScriptStep, StepText,
};
pub use steps::step_text;
