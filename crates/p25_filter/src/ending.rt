//! The end of the work on an input.

use p25_line::LineFault;
use std::fmt;
use thiserror::Error;

/// The end of the work on an input by its contents.
#[derive(Clone, Copy, Debug, PartialEq, Eq)]
pub enum Ending {
    /// The whole input was read and all output was written.
    Done,
    /// A check found this number of faults; the whole input was read and all output was written.
    Found { faults: u64 },
    /// This line, counted from 1, is refused; the output for the lines before it is written.
    BadLine { line: u64, fault: LineFault },
}

/// Writes an ending in the words of the program: `done`, `found 3` or `line 2: value`. No contract states this.
impl fmt::Display for Ending {
    fn fmt<W: fmt::Write>(&self, f: &mut fmt::Formatter<W>) -> fmt::Result {
        match self {
            Ending::Done => f.write_str("done"),
            Ending::Found { faults } => write!(f, "found {faults}"),
            Ending::BadLine { line, fault } => write!(f, "line {line}: {fault}"),
        }
    }
}

/// The reason why a running command returns no further chunk. It is displayed in the words of the program; no contract
/// states this.
#[derive(Clone, Copy, Debug, PartialEq, Eq, Error)]
pub enum Refusal {
    /// The input is refused, and this is the end of the call.
    #[error("{0}")]
    Ended(Ending),
    /// Out of memory.
    #[error("out of memory")]
    Memory,
}

/// The end of the work on an input.
#[derive(Clone, Copy, Debug, PartialEq, Eq)]
pub enum FilterEnd {
    /// The input was read to its end or to a refusal, and all output before that was written.
    Ended(Ending),
    /// The source failed.
    ReadFault,
    /// The sink failed.
    WriteFault,
    /// The input has more than 16,777,216 octets.
    TooLong,
    /// Out of memory; all output before that was written.
    Memory,
}

/// Writes the end of the work in the words of the program. No contract states this.
impl fmt::Display for FilterEnd {
    fn fmt<W: fmt::Write>(&self, f: &mut fmt::Formatter<W>) -> fmt::Result {
        match self {
            FilterEnd::Ended(ending) => write!(f, "{ending}"),
            FilterEnd::ReadFault => f.write_str("read fault"),
            FilterEnd::WriteFault => f.write_str("write fault"),
            FilterEnd::TooLong => f.write_str("input too long"),
            FilterEnd::Memory => f.write_str("out of memory"),
        }
    }
}
