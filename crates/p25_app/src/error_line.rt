//! The line on standard error of a call.

ghost use Rattle.std.specs.Prelude.{◌≡◌};
ghost use Rattle.p25_io.specs.Streams.{StreamsGo};
ghost use Rattle.p25_app.specs.Calls.{IsTold, error_text};

use p25_io::{Port, Streams};
use p25_tool::{Line, Outcome, outcome_text};
use std::io::{Read, Stderr, Write};

/// A writer for the error line. Standard error is one, and standard output is not.
pub trait ErrorWriter: Write {}

impl ErrorWriter for Stderr {}

/// Writes the line of an outcome with its LF, or nothing if the outcome has no line, in one write and with one flush. A
/// fault of this write changes nothing.
pub fn tell<N: Read, E: ErrorWriter>(outcome: &Outcome, errors: &mut Streams<N, E>)
    ensures { IsTold (StreamsGo N.remaining E.contents) errors.old (error_text outcome.now) errors.new }
{
    let mut text = Line::new();
    put_error_text(outcome, &mut text);
    let _ = errors.write(text.octets());
}

// Writes to `out` the line of an outcome and its LF, or nothing.
fn put_error_text(outcome: &Outcome, out: &mut Line)
    ensures { out.new ≡ error_text outcome.now }
{
    outcome_text(outcome, out);
    if !out.octets().is_empty() {
        out.put(b"\n");
    }
}
