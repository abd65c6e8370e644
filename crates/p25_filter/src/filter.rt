//! The effect of a command on the octets of its input, one after the other, apart from reading and writing.

ghost use Rattle.std.specs.Prelude.{◌≡◌, ℕ, ◌+◌, ◌*◌, ◌^◌, ◌<◌, ◌≤◌, Bool, true, false, List, [], length, take};
ghost use Rattle.p25_filter.specs.Futures.{Future, Progress, IsClosed, IsIdle, NextPiece};

use super::ending::{Ending, Refusal};
use p25_line::Line;

/// A running command: it takes octets and returns its output for them in chunks.
///
/// Contracts see its `future`: for any octets that may still come, the output that is still to come, the end of the
/// call, and the points at which an allocation may fail.
pub trait Filter {
    // The remaining output, the end of the call and the points at which an allocation may fail, for each list of octets
    // that may come.
    ghost future: { Self → Future };

    // No more octets come.
    ghost is_finished: { Self → Bool };

    // It has no chunk to return before another octet comes or the input ends.
    ghost IsDrained: { Self → Type 0 };

    // The most chunks that it can still return before it is drained.
    ghost pieces_left: { Self → ℕ };

    // The size of its counts.
    ghost size: { Self → ℕ };

    /// Takes some of the next octets of the input, from the first of these on, and returns their number: at least one.
    fn push_some(&mut self, octets: &[u8]) -> usize
        requires some { 0 < length octets.now }
        requires drained { IsDrained self.old }
        requires going { is_finished self.old ≡ false }
        requires few { size self.old + 8 * length octets.now < 2 ^ 28 }
        ensures some { 0 < result }
        ensures there { result ≤ length octets.now }
        ensures moved { Progress (future self.old) (take result octets.now) [] (future self.new) }
        ensures going { is_finished self.new ≡ false }
        ensures size { size self.new ≤ size self.old + 8 * result };

    /// Marks the end of the input.
    fn finish(&mut self)
        requires drained { IsDrained self.old }
        requires going { is_finished self.old ≡ false }
        requires few { size self.old < 2 ^ 28 }
        ensures closed { IsClosed (future self.old) (future self.new) }
        ensures finished { is_finished self.new ≡ true };

    /// Writes to `out` the next chunk and returns true, or returns false if it is drained. A refusal ends the call: the
    /// input is refused, or the allocation fails, which is possible only if the `future` allows it.
    fn next(&mut self, out: &mut Line) -> Result<bool, Refusal>
        ensures piece { NextPiece (future self.old) result out.new (future self.new) }
        ensures drained { result ≡ Ok false → IsDrained self.new }
        ensures idle { result ≡ Ok false → IsIdle (is_finished self.new) (future self.new) }
        ensures smaller { result ≡ Ok true → pieces_left self.new < pieces_left self.old }
        ensures same { is_finished self.new ≡ is_finished self.old }
        ensures size { size self.new ≤ size self.old };

    /// Returns the end of the call after the input has ended and all chunks are written.
    fn ending(&self) -> Ending
        requires finished { is_finished self.now ≡ true }
        requires drained { IsDrained self.now }
        ensures { (ended : Bool) (more : List ℕ) → (future self.now).ends ended more ≡ Some result };
}
