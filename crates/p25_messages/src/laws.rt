//! The values of public constants. The body is empty: the function states what is proved.

ghost use Rattle.std.specs.Prelude.{◌≡◌};

use crate::{LAST_PART, MOST_LONG, PART_OCTETS};

/// **Theorem.** A long message has at most 4,000 octets, a part of it at most 500, and 80 hex marks the last part.
pub fn numbers()
    ensures most { MOST_LONG ≡ 4000 }
    ensures part { PART_OCTETS ≡ 500 }
    ensures last { LAST_PART ≡ 0x80 }
{}
