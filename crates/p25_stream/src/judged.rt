//! The knowledge of the item with which some bits begin.

ghost use Rattle.std.specs.Prelude.{◌≡◌};
ghost use Rattle.p25_stream.specs.Judgements.{is_settled, waits};

use p25_units::{Begun, Field};

// The number of bits after a position that are needed to test it for a sync.
pub(crate) const BEHIND: usize = 47;

/// The knowledge that a scanner keeps of the item with which its bits begin.
#[derive(Clone, Copy)]
pub enum Judged {
    /// Nothing is known: this number of first positions have no sync, and no others can be tested yet.
    Searching(usize),
    /// A sync, the number of bits that are required from it on, and the decoded parts of its data unit.
    Waiting(usize, Begun),
    /// A gap of this number of bits.
    Gap(usize),
    /// A data unit of this number of bits, and its decoded parts.
    Ready(usize, Begun),
    /// A sync, but no data unit, because this field fails.
    NoUnit(Field),
}

impl Judged {
    // Returns whether `have` bits are too few for more to be known.
    #[inline]
    pub(crate) fn waits(&self, have: usize) -> bool
        ensures { result ≡ waits self.now have }
    {
        match self {
            Judged::Searching(clear) => have.saturating_sub(BEHIND) <= *clear,
            Judged::Waiting(count, _) => have < *count,
            Judged::Gap(_) | Judged::Ready(_, _) | Judged::NoUnit(_) => false,
        }
    }

    // Returns whether the first item is known.
    pub(crate) fn is_settled(&self) -> bool
        ensures { result ≡ is_settled self.now }
    {
        match self {
            Judged::Searching(_) | Judged::Waiting(_, _) => false,
            Judged::Gap(_) | Judged::Ready(_, _) | Judged::NoUnit(_) => true,
        }
    }
}
