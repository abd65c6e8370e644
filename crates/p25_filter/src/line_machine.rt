//! The effect of a command on the lines of its input, one after the other.

ghost use Rattle.std.specs.Prelude.{◌≡◌, ℕ, ◌<◌, List, [], length, Err};
ghost use Rattle.p25_line.specs.declared.fault.LineFault.TheVariants.{Long};
ghost use Rattle.p25_filter.specs.LineRules.{IsLineTaken, LineRules};

use super::text::Text;
use p25_line::LineFault;
use thiserror::Error;

/// The reason why a line was not taken. It is displayed as the word of the fault, or as the program's word for out of
/// memory; no contract states this.
#[derive(Clone, Copy, Debug, PartialEq, Eq, Error)]
pub enum LineRefusal {
    /// The line is refused, for this reason.
    #[error("{0}")]
    Fault(LineFault),
    /// The line has no fault, but an allocation for it fails.
    #[error("out of memory")]
    Memory,
}

/// A machine over lines: it takes each line and returns a text for it, and writes a last text at the end of the input.
///
/// Contracts see its results as a function of the machine and the line (its `rules`).
pub trait LineMachine {
    // The result of the machine for a line, its output at the end of the input, and whether an allocation may fail for
    // a line.
    ghost rules: { LineRules Self };

    /// Takes a line, without the LF that ends it, and writes the text for it to `text`. It requires an empty `text`.
    /// Otherwise it returns the reason why the line is not taken, and the machine and `text` are unchanged. Out of
    /// memory is possible only if the rules allow it, and for a line without a fault.
    fn take(&mut self, line: &[u8], text: &mut Text) -> Result<(), LineRefusal>
        requires empty { text.old ≡ [] }
        ensures { IsLineTaken rules self.old line.now result text.new self.new };

    /// Writes the output at the end of the input to `text`. It requires an empty `text`.
    fn close(&self, text: &mut Text)
        requires empty { text.old ≡ [] }
        ensures { text.new ≡ rules.closing self.now };

    // A line of more than 8,192 octets is refused as too long.
    ghost long: { (machine : Self) (line : List ℕ) → 8192 < length line → rules.take machine line ≡ Err Long };
}
