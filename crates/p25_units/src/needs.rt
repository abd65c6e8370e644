//! The needs of the bits at a position.

use p25_status::Field;

/// The result of examining the bits from a position on.
#[derive(Clone, Copy, Debug, PartialEq, Eq)]
pub enum Need {
    /// There is no sync at the position.
    NoSync,
    /// This number of bits is required, and fewer are there.
    More(usize),
    /// A data unit of this number of bits is there.
    Length(usize),
    /// No data unit is there, because a field of it that determines its length fails.
    NoLength(Field),
}
