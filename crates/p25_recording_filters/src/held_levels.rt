//! The levels of the bits that a scanner holds.

ghost use Rattle.std.specs.Prelude.{◌≡◌, ◌+◌, ◌*◌, ◌/◌, ◌<◌, ◌≤◌, [], ◌∷◌, ◌++◌, length, drop};
ghost use Rattle.p25_bits.specs.Bits.{part};
ghost use Rattle.p25_recording_filters.specs.SoftLevels.{grouped};

use arrayvec::ArrayVec;
use std::marker::Model;

// A list of at most 16,420 levels: one for each two of the bits that a scanner and a follower hold, and a group of four.
#[derive(Drop)]
pub(crate) struct HeldLevels {
    levels: ArrayVec<i8, 16_420>,
}

impl Model for HeldLevels {
    ghost use Rattle.std.specs.Prelude.{List, ℤ};

    ghost Value = { List ℤ };

    ghost view = { λ s. s.levels.items };
}

impl HeldLevels {
    // Returns an empty list.
    pub(crate) fn new() -> HeldLevels
        ensures { result ≡ [] }
    {
        HeldLevels {
            levels: ArrayVec::new(),
        }
    }

    // Returns the number of levels.
    pub(crate) fn len(&self) -> usize
        ensures { result ≡ length self.now }
    {
        self.levels.len()
    }

    // Appends a level.
    pub(crate) fn push(&mut self, level: i8)
        requires { length self.old < 16420 }
        ensures list { self.new ≡ self.old ++ level ∷ [] }
        ensures len { length self.new ≡ length self.old + 1 }
    {
        self.levels.push(level);
    }

    // Returns the part of `count` levels from a position on.
    pub(crate) fn part(&self, at: usize, count: usize) -> &[i8]
        requires { at + count ≤ length self.now }
        ensures list { result.now ≡ part at count self.now }
        ensures len { length result.now ≡ count }
    {
        &self.levels.as_slice()[at..at + count]
    }

    // Returns the levels in whole groups of four.
    pub(crate) fn groups(&self) -> &[i8]
        ensures list { result.now ≡ grouped self.now }
        ensures len { length result.now ≡ 4 * (length self.now / 4) }
    {
        self.part(0, 4 * (self.len() / 4))
    }

    // Removes the first levels.
    pub(crate) fn drop_front(&mut self, count: usize)
        requires { count ≤ length self.old }
        ensures { self.new ≡ drop count self.old }
    {
        let left = self.levels.len() - count;
        self.levels.as_mut_slice().rotate_left(count);
        self.levels.truncate(left);
    }
}
