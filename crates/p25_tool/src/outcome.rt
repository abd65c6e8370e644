//! The outcomes of a call, and the line of each on standard error.

ghost use Rattle.std.specs.Prelude.{◌≡◌, ◌+◌, ◌≤◌, ◌++◌, length, codes, decimal, Some};
ghost use Rattle.p25_tool.specs.Outcomes.{fault_word, line_of, status_of, filter_outcome};

use p25_filter::{Ending, FilterEnd};
use p25_line::{Line, LineFault};
use std::fmt;

/// The end of a call.
#[derive(Clone, Copy, Debug, PartialEq, Eq)]
pub enum Outcome {
    /// The input was read to its end and all output was written.
    Done,
    /// The words name no command; nothing was read or written.
    Usage,
    /// This line of the input, counted from 1, is the first that is refused. The output for the lines before it is
    /// written.
    BadLine { line: u64, fault: LineFault },
    /// The source failed.
    ReadFault,
    /// The sink failed.
    WriteFault,
    /// Out of memory.
    Memory,
    /// The input has more than 16,777,216 octets.
    TooLong,
    /// `check` read and wrote all, and found this number of items that are not whole data units.
    Found { faults: u64 },
}

/// Writes the line on standard error after a call, as `outcome_text` does.
impl fmt::Display for Outcome {
    ghost output = { λ outcome. Some (line_of outcome) };

    fn fmt<W: fmt::Write>(&self, f: &mut fmt::Formatter<W>) -> fmt::Result {
        let mut line = Line::new();
        outcome_text(self, &mut line);
        fmt::Display::fmt(&line, f)
    }
}

/// Writes to `out` the line on standard error after a call, without its end; it is empty for `Done`.
#[tactic(auto, using(p25_line::proofs::DecimalLaws::decimal_short))]
pub fn outcome_text(outcome: &Outcome, out: &mut Line)
    ensures text { out.new ≡ line_of outcome.now }
    ensures short { length out.new ≤ 40 }
{
    out.clear();
    match outcome {
        Outcome::Done => {}
        Outcome::Usage => out.put(b"usage"),
        Outcome::BadLine { line, fault } => put_bad_line(*line, *fault, out),
        Outcome::ReadFault => out.put(b"read fault"),
        Outcome::WriteFault => out.put(b"write fault"),
        Outcome::Memory => out.put(b"out of memory"),
        Outcome::TooLong => out.put(b"input too long"),
        Outcome::Found { faults } => out.put_labelled(b"found ", *faults),
    }
}

// Appends the line of a refused line to an empty one.
#[tactic(auto, using(p25_line::proofs::DecimalLaws::decimal_short))]
fn put_bad_line(line: u64, fault: LineFault, out: &mut Line)
    requires { length out.old ≡ 0 }
    ensures text { out.new ≡ out.old ++ codes "line " ++ decimal line ++ codes ": " ++ fault_word fault }
    ensures short { length out.new ≤ 40 }
{
    out.put_labelled(b"line ", line);
    out.put(b": ");
    out.put(fault_text(fault));
}

// Returns the word of a fault in a line.
fn fault_text(fault: LineFault) -> &'static [u8]
    ensures word { result.now ≡ fault_word fault }
    ensures short { length result.now ≤ 5 }
{
    match fault {
        LineFault::Long => b"long",
        LineFault::Form => b"form",
        LineFault::Kind => b"kind",
        LineFault::Key => b"key",
        LineFault::Value => b"value",
    }
}

/// Returns the exit status of the program.
pub fn outcome_status(outcome: &Outcome) -> u8
    ensures { result ≡ status_of outcome.now }
{
    match outcome {
        Outcome::Done => 0,
        Outcome::Usage => 1,
        Outcome::BadLine { .. } => 2,
        Outcome::ReadFault => 3,
        Outcome::WriteFault => 4,
        Outcome::Memory => 5,
        Outcome::TooLong => 6,
        Outcome::Found { .. } => 7,
    }
}

// Returns the outcome of work on an input with this end.
pub(crate) fn outcome_of(end: FilterEnd) -> Outcome
    ensures { result ≡ filter_outcome end }
{
    match end {
        FilterEnd::Ended(Ending::Done) => Outcome::Done,
        FilterEnd::Ended(Ending::Found { faults }) => Outcome::Found { faults },
        FilterEnd::Ended(Ending::BadLine { line, fault }) => Outcome::BadLine { line, fault },
        FilterEnd::ReadFault => Outcome::ReadFault,
        FilterEnd::WriteFault => Outcome::WriteFault,
        FilterEnd::TooLong => Outcome::TooLong,
        FilterEnd::Memory => Outcome::Memory,
    }
}
