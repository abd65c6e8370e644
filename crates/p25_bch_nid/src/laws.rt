//! The laws of the code and of the decoding of network identifiers (NID), for proofs about them.

ghost use Rattle.std.specs.Prelude.{◌≡◌, ◌↔◌, ℕ, ◌^◌, ◌<◌, ◌≤◌, Bool, List, Option, Some, length, take};
ghost use Rattle.p25_bits.specs.{Bits.{field_of}, Distance.{distance_of}, Divisible.{IsDivisible}};
ghost use Rattle.p25_bch_nid.specs.{Nid.{generator}, Bch63.{IsBch63}, NidReading.{IsNidReading, identifier_of_word, nid_reading_of}, NidWord.{nid_word}};

use crate::{HDU, LDU1, LDU2, PDU, TDU, TDULC};

/// **Theorem.** The codewords, which are zero at α^1 to α^22, are the lists of 63 bits that are divisible by the
/// generator.
pub fn two_forms()
    ensures { (word : List Bool) → IsBch63 word ↔ ((length word ≡ 63) × IsDivisible generator (field_of word)) }
{}

/// **Theorem.** The laws of decoding network identifiers (NID).
///
/// - `only`: the decoding is the only value that `IsNidReading` allows.
/// - `word`: if a codeword lies within 11 bits of the first 63 bits, its NAC and DUID are the result.
/// - `near`: the received bits lie within 11 bits of the transmitted bits of the decoded identifier.
/// - `sent`: the transmitted bits of an identifier decode to that identifier.
/// - `first`: the last bit, P, is ignored.
pub fn reading_laws()
    ensures only { (bits : List Bool) (answer : Option (ℕ × ℕ)) → 63 ≤ length bits → IsNidReading bits answer ↔ (answer ≡ nid_reading_of bits) }
    ensures word { (bits word : List Bool) → 63 ≤ length bits → IsBch63 word → distance_of (take 63 bits) word ≤ 11
        → nid_reading_of bits ≡ Some (identifier_of_word word) }
    ensures near { (bits : List Bool) (nid : ℕ × ℕ) → nid_reading_of bits ≡ Some nid → distance_of (take 63 bits) (take 63 (nid_word nid.0 nid.1)) ≤ 11 }
    ensures sent { (nac duid : ℕ) → nac < 2 ^ 12 → duid < 2 ^ 4 → nid_reading_of (nid_word nac duid) ≡ Some (nac, duid) }
    ensures first { (a b : List Bool) → take 63 a ≡ take 63 b → nid_reading_of a ≡ nid_reading_of b }
{}

/// **Theorem.** The data unit identifiers (DUID) as numbers.
pub fn identifiers()
    ensures hdu { HDU ≡ 0 }
    ensures tdu { TDU ≡ 3 }
    ensures ldu1 { LDU1 ≡ 5 }
    ensures ldu2 { LDU2 ≡ 10 }
    ensures pdu { PDU ≡ 12 }
    ensures tdulc { TDULC ≡ 15 }
{}
