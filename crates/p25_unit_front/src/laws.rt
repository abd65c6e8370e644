//! The frame sync and the network identifier (NID) of a data unit, by the positions of their bits, and the numbers of the public
//! constants.

ghost use Rattle.std.specs.Prelude.{◌≡◌, ◌↔◌, ◌*◌, ◌≤◌, ℕ, Bool, List, length, take};
ghost use Rattle.p25_unit_front.specs.Front.{IsFront, front_of, front_fixes_of, unit_front};
ghost use Rattle.p25_status.specs.Woven.{bare_of};

use crate::{AFTER_STATUS, BEFORE_STATUS, FRONT_LENGTH, SENT_FRONT_LENGTH};

/// **Theorem.** The laws of sync and NID.
///
/// - `form`: 112 bits are the sync and the NID of a NAC and a DUID if and only if they meet `IsFront`.
/// - `bare`: sync and NID of a transmitted data unit are the first 112 of its bits without status symbols.
/// - `none`: a data unit whose sync and NID are the transmitted ones has no bit error in them.
pub fn one_front()
    ensures form { (nac duid : ℕ) (bits : List Bool) → IsFront nac duid bits ↔ (bits ≡ unit_front nac duid) }
    ensures bare { (blocks : ℕ) (sent : List Bool) → 2 ≤ blocks → length sent ≡ 72 * blocks → take 112 (bare_of sent) ≡ front_of sent }
    ensures none { (nid : ℕ × ℕ) (sent : List Bool) → front_of sent ≡ unit_front nid.0 nid.1 → front_fixes_of nid sent ≡ 0 }
{}

/// **Theorem.** The number of bits of sync and NID together, without the status symbol within the NID and with it, and of the two parts of
/// the NID.
pub fn numbers()
    ensures front { FRONT_LENGTH ≡ 112 }
    ensures sent { SENT_FRONT_LENGTH ≡ 114 }
    ensures before { BEFORE_STATUS ≡ 22 }
    ensures after { AFTER_STATUS ≡ 42 }
{}
