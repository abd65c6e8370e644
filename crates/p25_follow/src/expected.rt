//! The types of data unit that may follow a data unit, by its type.

ghost use Rattle.std.specs.Prelude.{◌≡◌, ◌≤◌, IfSome, MatchOption, [], ◌∷◌};
ghost use Rattle.p25_bch_nid.specs.Duids.{duid_tdu, duid_tdulc};
ghost use Rattle.p25_follow.specs.Expected.{expected_after, is_expected, kind_length, next_link};

use p25_bch_nid::{HDU, LDU1, LDU2, TDU, TDULC};
use p25_status::{BARE_BLOCK_LENGTH, SENT_BLOCK_LENGTH};
use p25_voice_units::laws::image_laws;
use p25_voice_units::voice_length;

/// Returns the number of transmitted bits of a voice data unit of a type (HDU, LDU1, LDU2, TDU or TDULC), or none for
/// another type.
#[tactic(auto, unfolding(crate::specs::Expected::kind_length))]
pub fn kind_length(kind: u8) -> usize
    ensures value { result ≡ kind_length kind }
    ensures most { result ≤ 1728 }
{
    // For the prover: voice data units have the length of their types.
    image_laws();
    match voice_length(kind) {
        Some(bare) => bare / BARE_BLOCK_LENGTH * SENT_BLOCK_LENGTH,
        None => 0,
    }
}

/// Returns the type that is tried first after a data unit of a type; a TDULC and a TDU are tried after it. `None` is
/// returned if and only if no type is expected.
#[tactic(auto, unfolding(crate::specs::Expected::expected_after))]
pub fn first_expected(before: u8) -> Option<u8>
    ensures list { MatchOption result (expected_after before ≡ []) (λ kind. expected_after before ≡ kind ∷ duid_tdulc ∷ duid_tdu ∷ []) }
    ensures fits { IfSome result (λ kind. kind ≤ 15) }
{
    match before {
        HDU | LDU2 => Some(LDU1),
        LDU1 => Some(LDU2),
        TDULC => Some(HDU),
        _ => None,
    }
}

/// Returns whether a type may follow a data unit of a type.
#[tactic(auto, unfolding(crate::specs::Expected::is_expected))]
pub fn is_expected(before: u8, kind: u8) -> bool
    ensures { result ≡ is_expected before kind }
{
    match first_expected(before) {
        None => false,
        Some(first) => first == kind || kind == TDULC || kind == TDU,
    }
}

/// Returns the logical link data unit (LDU1 or LDU2) that is next after a data unit of a type. `None` is returned if
/// and only if there is none.
#[tactic(auto, unfolding(crate::specs::Expected::next_link))]
pub fn next_link(kind: u8) -> Option<u8>
    ensures value { result ≡ next_link kind }
    ensures fits { IfSome result (λ next. next ≤ 15) }
{
    match kind {
        HDU | LDU2 => Some(LDU1),
        LDU1 => Some(LDU2),
        _ => None,
    }
}
