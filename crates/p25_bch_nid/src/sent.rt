//! Network identifiers (NID) as the 64 transmitted bits.

ghost use Rattle.std.specs.Prelude.{◌≡◌, ℕ, ◌≤◌, ◌++◌, Some, take};
ghost use Rattle.p25_bits.specs.{Bits.{bits_of}, Distance.{distance_of}};
ghost use Rattle.p25_code.specs.Words.{IsEncoding};
ghost use Rattle.p25_bch_nid.specs.{Bch63.{IsBch63}, Nid.{IsSent, parity_of}, NidReading.{nid_reading_of}, NidWord.{nid_word}};

use crate::checks::check_bits;
use crate::duid::{LDU1, LDU2};
use crate::nid::Nid;

/// Encodes a network identifier (NID) as 64 bits, the first bit highest: NAC 12, DUID 4, the 47 check bits of the BCH
/// code (63,16), and P. P is 1 for an LDU1 and an LDU2 and 0 for every other data unit. TIA-102.BAAA, Network
/// Identifier.
pub fn nid_bits(nid: &Nid) -> u64
    ensures sent { IsSent nid.now.nac nid.now.duid result }
    ensures word { IsEncoding IsBch63 16 (bits_of 12 nid.now.nac ++ bits_of 4 nid.now.duid) (take 63 (bits_of 64 result)) }
    ensures list { bits_of 64 result ≡ nid_word nid.now.nac nid.now.duid }
    ensures read { nid_reading_of (bits_of 64 result) ≡ Some (nid.now.nac, nid.now.duid) }
    ensures only { (bits : ℕ) → IsSent nid.now.nac nid.now.duid bits → bits ≡ result }
{
    let information = 16 * u64::from(nid.nac) + u64::from(nid.duid);
    let message = information << 47;
    let word = message + check_bits(information);
    2 * word + parity(nid.duid)
}

/// Returns the number of bits in which the first 63 bits of a received network identifier (NID), the first bit highest,
/// differ from the transmitted bits of a given one. It is at most 11 if the received bits decode to the given one.
/// TIA-102.BAAA, Network Identifier.
pub fn nid_distance(bits: u64, nid: &Nid) -> u32
    ensures distance { result ≡ distance_of (take 63 (bits_of 64 bits)) (take 63 (nid_word nid.now.nac nid.now.duid)) }
    ensures most { result ≤ 63 }
    ensures read { nid_reading_of (bits_of 64 bits) ≡ Some (nid.now.nac, nid.now.duid) → result ≤ 11 }
{
    ((bits ^ nid_bits(nid)) >> 1).count_ones()
}

// Returns P, the last bit of a network identifier (NID), by the rule for transmitters.
fn parity(duid: u8) -> u64
    ensures { result ≡ parity_of duid }
{
    if duid == LDU1 || duid == LDU2 { 1 } else { 0 }
}
