//! Codewords of the binary codes, and network identifiers
//!
//! A codeword is a number whose highest bit is transmitted first.

ghost use Rattle.p25_bits.specs.Bits.{bits_of};
ghost use Rattle.p25_golay.specs.{Golay18.{IsGolay18}, Golay18Laws.{golay18_reading_of}, Golay24.{IsGolay24}, Golay24Laws.{golay24_reading_of}};
ghost use Rattle.p25_hamming.specs.{Hamming10.{IsHamming10}, Hamming10Laws.{hamming10_reading_of}, Lsd16.{IsLsd16}, Lsd16Laws.{lsd16_reading_of}};
ghost use Rattle.p25_c.specs.Numbers.{IsIdentifierReading, IsIdentifierWriting, IsNumberReading, IsNumberWriting};

use crate::word_calls::{read_identifier, read_number, write_identifier, write_number};
use p25_golay::{Golay18, Golay24};
use p25_hamming::{Hamming10, Lsd16};

// What a `read` of a codeword returns in place of the number of letters, symbols or bits, that it corrected. The codeword stays then.

/// uncorrectable: no codeword is within the correction radius
const BEYOND: i32 = -1;

/// no letters: an octet is above 63, or a number has a bit above those of a codeword
const NO_LETTERS: i32 = -2;

/// What a `write` returns if the information has more bits than the code takes.
const NO_WORD: u32 = 0xFFFF_FFFF;

/// What `p25_nid_write` returns if the NAC is above 4095 or the DUID is above 15.
const NO_NID: u64 = 0xFFFF_FFFF_FFFF_FFFF;

/// Decodes a received word of the Golay code (24,12), a number of 24 bits, and returns how many bit errors it corrected, at most
/// 3: the number becomes the only codeword that differs in so few. Returns `P25_BEYOND` if there is none, and `P25_NO_LETTERS` if
/// the number has more bits; then it stays.
#[unsafe(no_mangle)]
pub extern "C" fn p25_golay24_read(word: &mut u32) -> i32
    ensures { IsNumberReading 24 golay24_reading_of word.old word.new result }
{
    read_number::<Golay24>(word)
}

/// Decodes a received word of the Golay code (18,6), a number of 18 bits, and returns how many bit errors it corrected, at most
/// 3: the number becomes the only codeword that differs in so few. Returns `P25_BEYOND` if there is none, and `P25_NO_LETTERS` if
/// the number has more bits; then it stays.
#[unsafe(no_mangle)]
pub extern "C" fn p25_golay18_read(word: &mut u32) -> i32
    ensures { IsNumberReading 18 golay18_reading_of word.old word.new result }
{
    read_number::<Golay18>(word)
}

/// Decodes a received word of the Hamming code (10,6), a number of 10 bits, and returns how many bit errors it corrected, at most
/// 1: the number becomes the only codeword that differs in so few. Returns `P25_BEYOND` if there is none, and `P25_NO_LETTERS` if
/// the number has more bits; then it stays.
#[unsafe(no_mangle)]
pub extern "C" fn p25_hamming10_read(word: &mut u32) -> i32
    ensures { IsNumberReading 10 hamming10_reading_of word.old word.new result }
{
    read_number::<Hamming10>(word)
}

/// Decodes a received word of the code (16,8) of low speed data (LSD), a number of 16 bits, and returns how many bit errors it
/// corrected, at most 2: the number becomes the only codeword that differs in so few. Returns `P25_BEYOND` if there is none, and
/// `P25_NO_LETTERS` if the number has more bits; then it stays.
#[unsafe(no_mangle)]
pub extern "C" fn p25_lsd16_read(word: &mut u32) -> i32
    ensures { IsNumberReading 16 lsd16_reading_of word.old word.new result }
{
    read_number::<Lsd16>(word)
}

/// Returns the codeword of the Golay code (24,12) with this information of 12 bits, which are its highest. Returns `P25_NO_WORD`
/// if the information has more bits.
#[unsafe(no_mangle)]
pub extern "C" fn p25_golay24_write(info: u32) -> u32
    ensures { IsNumberWriting IsGolay24 12 24 info result }
{
    write_number::<Golay24>(info)
}

/// Returns the codeword of the Golay code (18,6) with this information of 6 bits, which are its highest. Returns `P25_NO_WORD` if
/// the information has more bits.
#[unsafe(no_mangle)]
pub extern "C" fn p25_golay18_write(info: u32) -> u32
    ensures { IsNumberWriting IsGolay18 6 18 info result }
{
    write_number::<Golay18>(info)
}

/// Returns the codeword of the Hamming code (10,6) with this information of 6 bits, which are its highest. Returns `P25_NO_WORD`
/// if the information has more bits.
#[unsafe(no_mangle)]
pub extern "C" fn p25_hamming10_write(info: u32) -> u32
    ensures { IsNumberWriting IsHamming10 6 10 info result }
{
    write_number::<Hamming10>(info)
}

/// Returns the codeword of the code (16,8) of low speed data (LSD) with this information of 8 bits, which are its highest.
/// Returns `P25_NO_WORD` if the information has more bits.
#[unsafe(no_mangle)]
pub extern "C" fn p25_lsd16_write(info: u32) -> u32
    ensures { IsNumberWriting IsLsd16 8 16 info result }
{
    write_number::<Lsd16>(info)
}

/// Decodes a network identifier (NID) of 64 bits, sets its NAC and its DUID, and returns how many bit errors its first 63 bits
/// have, at most 11. Returns `P25_BEYOND` if no codeword is so near; then the two stay. The call does not look at the last bit.
#[unsafe(no_mangle)]
pub extern "C" fn p25_nid_read(bits: u64, nac: &mut u16, duid: &mut u8) -> i32
    ensures { IsIdentifierReading (bits_of 64 bits) (nac.old, duid.old) (nac.new, duid.new) result }
{
    read_identifier(bits, nac, duid)
}

/// Returns the network identifier (NID), 64 bits, of a NAC from 0 to 4095 and a DUID from 0 to 15: 12 bits of the NAC, 4 of the
/// DUID, 47 of check, and the last bit, which is 1 for an LDU1 and an LDU2. Returns `P25_NO_NID` if the NAC or the DUID is
/// larger.
#[unsafe(no_mangle)]
pub extern "C" fn p25_nid_write(nac: u16, duid: u8) -> u64
    ensures { IsIdentifierWriting nac duid result }
{
    write_identifier(nac, duid)
}
