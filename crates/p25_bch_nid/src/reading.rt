//! Decoding of received network identifiers (NID).

ghost use Rattle.std.specs.Prelude.{◌≡◌, ◌≤◌, Bool, IfSome, List, Some, take, option_map};
ghost use Rattle.p25_bits.specs.{Bits.{bits_of}, Distance.{distance_of}};
ghost use Rattle.p25_bch_nid.specs.{Bch63.{IsBch63}, NidReading.{IsNidReading, identifier_of_word, nid_reading_of}, NidWord.{nid_word}};

use crate::correction::nearest;
use crate::nid::{Nid, ReadNid};

/// Decodes a network identifier (NID) from 64 received bits, the first bit highest. The result is the NAC and the DUID
/// with which the codeword of the BCH code (63,16) begins that lies within 11 bits of the first 63 bits. `None` is
/// returned if and only if no codeword is that near. The last bit, P, is ignored. TIA-102.BAAA, Network Identifier.
///
/// A word without bit errors is recognized by its check bits.
pub fn read_nid(bits: u64) -> Option<Nid>
    ensures reading { IsNidReading (bits_of 64 bits) (option_map (λ nid. (nid.nac, nid.duid)) result) }
    ensures value { option_map (λ nid. (nid.nac, nid.duid)) result ≡ nid_reading_of (bits_of 64 bits) }
    ensures sent { (word : List Bool) → IsBch63 word → distance_of (take 63 (bits_of 64 bits)) word ≤ 11
        → option_map (λ nid. (nid.nac, nid.duid)) result ≡ Some (identifier_of_word word) }
{
    Some(read_nid_counted(bits)?.nid)
}

/// Decodes a network identifier (NID) as `read_nid` does, and returns it with the number of bit errors among the first
/// 63 bits, which `nid_distance` returns for it. Nothing is encoded to count them. `None` is returned if and only if
/// `read_nid` returns it. TIA-102.BAAA, Network Identifier.
pub fn read_nid_counted(bits: u64) -> Option<ReadNid>
    ensures value { option_map (λ read. (read.nid.nac, read.nid.duid)) result ≡ nid_reading_of (bits_of 64 bits) }
    ensures wrong { IfSome result (λ read. read.wrong ≡ distance_of (take 63 (bits_of 64 bits)) (take 63 (nid_word read.nid.nac read.nid.duid))) }
    ensures most { IfSome result (λ read. read.wrong ≤ 11) }
{
    let received = bits >> 1;
    let sent = nearest(received)?;
    Some(ReadNid {
        nid: Nid::from((sent >> 47) as u16),
        wrong: (received ^ sent).count_ones(),
    })
}
