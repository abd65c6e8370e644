//! The output of a command for the items of a recording.

ghost use Rattle.std.specs.Prelude.{◌≡◌, ℕ, ◌+◌, ◌^◌, ◌<◌, ◌≤◌, Bool, false, true, length};
ghost use Rattle.p25_units.specs.Items.{IsSoundItem, covered, place_of};
ghost use Rattle.p25_follow.specs.Relayed.{IsFitItem};
ghost use Rattle.p25_recording_filters.specs.Reports.{IgnoresBits, Reporting};

use p25_bits::BitBuf;
use p25_filter::Ending;
use p25_line::Line;
use p25_units::Item;

/// The output of a command for the items of a recording, one after the other.
pub trait Report {
    /// Whether it uses the bits that an item covers. If it does not, `put` may be called with any bits.
    const LOOKS_AT_BITS: bool;

    ghost LOOKS_AT_BITS: { Bool };

    /// Its output for an item and the bits that it covers, its state after it, and its output at the end.
    ghost reporting: { Reporting Self };

    /// The most items that it has counted.
    ghost counted: { Self → ℕ } = { λ _. 0 };

    /// It has taken the items of a recording that end at a position.
    ghost HasReached: { Self → ℕ → Type 0 } = { λ _ _. Unit {0} };

    /// Writes to `out` the output for an item and the bits that it covers. If it uses the bits, it requires exactly as
    /// many as the item covers; it may change them, and their values after the call have no meaning.
    fn put(&mut self, item: &Item, raw: &mut BitBuf, out: &mut Line)
        requires sound { IsSoundItem item.now }
        requires fits { IsFitItem item.now }
        requires raw { LOOKS_AT_BITS ≡ true → length raw.old ≡ covered item.now }
        requires few { counted self.old < 2 ^ 29 }
        requires reached { HasReached self.old (place_of item.now) }
        requires below { place_of item.now < 2 ^ 29 }
        ensures piece { out.new ≡ reporting.piece self.old item.now raw.old }
        ensures behind { self.new ≡ reporting.behind self.old item.now raw.old }
        ensures counted { counted self.new ≤ counted self.old + 1 }
        ensures reached { HasReached self.new (place_of item.now + covered item.now) };

    /// Writes to `out` the output at the end of the input.
    fn close(&self, out: &mut Line)
        ensures { out.new ≡ reporting.closing self.now };

    /// Returns the end of the call after all output is written.
    fn ending(&self) -> Ending
        ensures { result ≡ reporting.ending self.now };

    // A report that does not use an item's bits has the same output and state, whatever they are.
    ghost ignores_bits: { LOOKS_AT_BITS ≡ false → IgnoresBits reporting };
}
