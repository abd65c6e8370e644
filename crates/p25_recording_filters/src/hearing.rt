//! The levels of a soft recording as they come: each group of four is an octet for a scanner.

ghost use Rattle.std.specs.Prelude.{◌≡◌, ◌≢◌, ℕ, ◌+◌, ◌%◌, ◌^◌, ◌<◌, ◌≤◌, false, [], ◌∷◌, ◌++◌, length, take, map};
ghost use Rattle.p25_bits.specs.Bits.{bits_of};
ghost use Rattle.p25_stream.specs.Scan.{given};
ghost use Rattle.p25_soft.specs.Levels.{hard_bits};
ghost use Rattle.p25_recording_filters.specs.{SoftLevels.{filled, octet_level}, Softs.{IsHoldingAfter}};

use crate::held_levels::HeldLevels;
use p25_soft::hard;
use p25_stream::Scanner;

// The level that fills the last group of four.
const FILLER: i8 = 32;

// Returns the octet of the hard bits of four levels.
fn group_octet(levels: &[i8]) -> u8
    requires { length levels.now ≡ 4 }
    ensures { bits_of 8 result ≡ hard_bits levels.now }
{
    64 * hard(levels[0]) + 16 * hard(levels[1]) + 4 * hard(levels[2]) + hard(levels[3])
}

// Takes a level, and passes its group to the scanner if it is the last of four.
fn hear(levels: &mut HeldLevels, level: i8, scanner: &mut Scanner)
    requires drained { given scanner.old ≡ [] }
    requires going { scanner.old.finished ≡ false }
    requires room { length levels.old < 16420 }
    requires few { scanner.old.place + length scanner.old.held < 2 ^ 60 }
    ensures list { levels.new ≡ levels.old ++ level ∷ [] }
    ensures holding { (ahead : ℕ) → IsHoldingAfter ahead scanner.old levels.old → IsHoldingAfter ahead scanner.new levels.new }
    ensures place { scanner.new.place ≡ scanner.old.place }
    ensures going { scanner.new.finished ≡ false }
    ensures quiet { length levels.new % 4 ≢ 0 → scanner.new ≡ scanner.old }
{
    levels.push(level);
    let len = levels.len();
    if len % 4 == 0 {
        scanner.push(group_octet(levels.part(len - 4, 4)));
    }
}

// Takes levels, at most those that fill a group, which is passed to the scanner once it is whole, and returns their
// number.
pub(crate) fn hear_some(levels: &mut HeldLevels, octets: &[u8], scanner: &mut Scanner) -> usize
    requires some { 0 < length octets.now }
    requires drained { given scanner.old ≡ [] }
    requires going { scanner.old.finished ≡ false }
    requires room { length levels.old < 16420 }
    requires few { scanner.old.place + length scanner.old.held < 2 ^ 60 }
    ensures list { levels.new ≡ levels.old ++ map octet_level (take result octets.now) }
    ensures holding { (ahead : ℕ) → IsHoldingAfter ahead scanner.old levels.old → IsHoldingAfter ahead scanner.new levels.new }
    ensures place { scanner.new.place ≡ scanner.old.place }
    ensures going { scanner.new.finished ≡ false }
    ensures some { 0 < result }
    ensures there { result ≤ length octets.now }
{
    let count = (4 - levels.len() % 4).min(octets.len());
    for i in 0..count {
        hear(levels, octets[i].cast_signed(), scanner);
    }
    count
}

// Fills the last group, and passes it to the scanner.
pub(crate) fn fill(levels: &mut HeldLevels, scanner: &mut Scanner)
    requires drained { given scanner.old ≡ [] }
    requires going { scanner.old.finished ≡ false }
    requires room { length levels.old < 16420 }
    requires few { scanner.old.place + length scanner.old.held < 2 ^ 60 }
    ensures list { levels.new ≡ filled levels.old }
    ensures full { length levels.new % 4 ≡ 0 }
    ensures few { length levels.new < length levels.old + 4 }
    ensures holding { (ahead : ℕ) → IsHoldingAfter ahead scanner.old levels.old → IsHoldingAfter ahead scanner.new levels.new }
    ensures place { scanner.new.place ≡ scanner.old.place }
    ensures going { scanner.new.finished ≡ false }
{
    let missing = (4 - levels.len() % 4) % 4;
    for _filled in 0..missing {
        hear(levels, FILLER, scanner);
    }
}
