//! Codewords of the binary codes, and network identifiers (NID), as numbers. The bit that is transmitted first is the
//! highest of a number.

ghost use Rattle.p25_bits.specs.Bits.{bits_of};
ghost use Rattle.p25_c.specs.Numbers.{IsIdentifierReading, IsIdentifierWriting, IsNumberReading, IsNumberWriting};

use crate::word_calls::answers::{BEYOND, OUTSIDE};
use p25_bch_nid::{Nid, nid_bits, read_nid_counted};
use p25_code::NumberCode;

/// Decodes a received word of a code as a number, the first bit highest, and returns the number of bit errors. The
/// number becomes that of the one codeword within the correction radius. Returns -1 if there is none, and -2 if the
/// number has more bits than a word; then it is unchanged.
pub(crate) fn read_number<C: NumberCode>(word: &mut u32) -> i32
    requires { C.HasCode }
    ensures { IsNumberReading C.N C.reading_is word.old word.new result }
{
    let received = *word;
    if u64::from(received) >> C::N > 0 {
        return OUTSIDE;
    }
    match C::read_number(received) {
        Some(sent) => {
            *word = sent;
            (received ^ sent).count_ones() as i32
        }
        None => BEYOND,
    }
}

/// Returns the codeword of an information, as a number, the first bit highest. Returns FFFFFFFF hex, which is no
/// codeword, if the information has more bits than a codeword carries.
pub(crate) fn write_number<C: NumberCode>(info: u32) -> u32
    requires { C.HasCode }
    ensures { IsNumberWriting C.IsWord C.K C.N info result }
{
    if u64::from(info) >> C::K > 0 {
        return u32::MAX;
    }
    C::encode_number(info)
}

/// Decodes a network identifier (NID) of 64 bits, writes its NAC and its DUID, and returns the number of bit errors
/// among the first 63 bits, at most 11. Returns -1 if no codeword is that near; then the two are unchanged. The last
/// bit is ignored.
pub(crate) fn read_identifier(bits: u64, nac: &mut u16, duid: &mut u8) -> i32
    ensures { IsIdentifierReading (bits_of 64 bits) (nac.old, duid.old) (nac.new, duid.new) result }
{
    match read_nid_counted(bits) {
        Some(read) => {
            *nac = read.nid.nac;
            *duid = read.nid.duid;
            read.wrong as i32
        }
        None => BEYOND,
    }
}

/// Returns the network identifier (NID), 64 transmitted bits, of a NAC below 4,096 and a DUID below 16. Returns a
/// number of ones alone, which is no NID, if one of the two is above its bound.
pub(crate) fn write_identifier(nac: u16, duid: u8) -> u64
    ensures { IsIdentifierWriting nac duid result }
{
    match Nid::new(nac, duid) {
        Some(nid) => nid_bits(&nid),
        None => u64::MAX,
    }
}

#[cfg(test)]
mod tests;
