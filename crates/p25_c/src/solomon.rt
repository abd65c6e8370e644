//! Codewords of the Reed-Solomon codes
//!
//! The codes are over GF(64). A codeword is an array of octets from 0 to 63, one for each symbol of six bits, in the order of
//! transmission: first the symbols of the information, then the check symbols.

ghost use Rattle.p25_code.specs.Erasures.{without_erased};
ghost use Rattle.p25_reed_solomon.specs.RsReadings.{rs_erased_reading_of, rs_reading_of};
ghost use Rattle.p25_c.specs.Symbols.{IsSymbolReading, IsSymbolWriting};

use crate::word_calls::{read_symbols, read_with_erased, write_symbols};

/// Decodes a received word of the code (36,20), of the header word (HDU), and returns how many symbol errors it corrected, at
/// most 8: the octets become those of the only codeword that differs in so few. Returns `P25_BEYOND` if there is none, and
/// `P25_NO_LETTERS` if an octet is above 63; then the octets stay.
#[unsafe(no_mangle)]
pub extern "C" fn p25_rs_36_20_read(symbols: &mut [u8; 36]) -> i32
    ensures { IsSymbolReading (rs_reading_of 36 20) symbols.old symbols.new result }
{
    read_symbols::<36, 20>(symbols)
}

/// Decodes a received word of the code (24,12), of link control (LC), and returns how many symbol errors it corrected, at most 6:
/// the octets become those of the only codeword that differs in so few. Returns `P25_BEYOND` if there is none, and
/// `P25_NO_LETTERS` if an octet is above 63; then the octets stay.
#[unsafe(no_mangle)]
pub extern "C" fn p25_rs_24_12_read(symbols: &mut [u8; 24]) -> i32
    ensures { IsSymbolReading (rs_reading_of 24 12) symbols.old symbols.new result }
{
    read_symbols::<24, 12>(symbols)
}

/// Decodes a received word of the code (24,16), of encryption sync (ES), and returns how many symbol errors it corrected, at most
/// 4: the octets become those of the only codeword that differs in so few. Returns `P25_BEYOND` if there is none, and
/// `P25_NO_LETTERS` if an octet is above 63; then the octets stay.
#[unsafe(no_mangle)]
pub extern "C" fn p25_rs_24_16_read(symbols: &mut [u8; 24]) -> i32
    ensures { IsSymbolReading (rs_reading_of 24 16) symbols.old symbols.new result }
{
    read_symbols::<24, 16>(symbols)
}

/// Decodes a received word of the code (36,20) with erasures: the symbols whose entry of `erased` is true. It is correctable if
/// twice the symbol errors among the others, and the erasures, are at most 16 together. Returns how many symbols changed; the
/// octets become those of that codeword. Returns `P25_BEYOND` if there is none, and `P25_NO_LETTERS` if an octet is above 63, an
/// erased one too; then the octets stay.
#[unsafe(no_mangle)]
pub extern "C" fn p25_rs_36_20_read_erased(symbols: &mut [u8; 36], erased: &[bool; 36]) -> i32
    ensures { IsSymbolReading (λ received. rs_erased_reading_of 36 20 (without_erased received erased.now)) symbols.old symbols.new result }
{
    read_with_erased::<36, 20>(symbols, erased)
}

/// Decodes a received word of the code (24,12) with erasures: the symbols whose entry of `erased` is true. It is correctable if
/// twice the symbol errors among the others, and the erasures, are at most 12 together. Returns how many symbols changed; the
/// octets become those of that codeword. Returns `P25_BEYOND` if there is none, and `P25_NO_LETTERS` if an octet is above 63, an
/// erased one too; then the octets stay.
#[unsafe(no_mangle)]
pub extern "C" fn p25_rs_24_12_read_erased(symbols: &mut [u8; 24], erased: &[bool; 24]) -> i32
    ensures { IsSymbolReading (λ received. rs_erased_reading_of 24 12 (without_erased received erased.now)) symbols.old symbols.new result }
{
    read_with_erased::<24, 12>(symbols, erased)
}

/// Decodes a received word of the code (24,16) with erasures: the symbols whose entry of `erased` is true. It is correctable if
/// twice the symbol errors among the others, and the erasures, are at most 8 together. Returns how many symbols changed; the
/// octets become those of that codeword. Returns `P25_BEYOND` if there is none, and `P25_NO_LETTERS` if an octet is above 63, an
/// erased one too; then the octets stay.
#[unsafe(no_mangle)]
pub extern "C" fn p25_rs_24_16_read_erased(symbols: &mut [u8; 24], erased: &[bool; 24]) -> i32
    ensures { IsSymbolReading (λ received. rs_erased_reading_of 24 16 (without_erased received erased.now)) symbols.old symbols.new result }
{
    read_with_erased::<24, 16>(symbols, erased)
}

/// Sets the last 16 octets to the check symbols of the first 20, so that all are a codeword of the code (36,20), and returns 0.
/// Returns `P25_NO_LETTERS` if one of the first 20 is above 63; then the octets stay.
#[unsafe(no_mangle)]
pub extern "C" fn p25_rs_36_20_write(symbols: &mut [u8; 36]) -> i32
    ensures { IsSymbolWriting 36 20 symbols.old symbols.new result }
{
    write_symbols::<36, 20>(symbols)
}

/// Sets the last 12 octets to the check symbols of the first 12, so that all are a codeword of the code (24,12), and returns 0.
/// Returns `P25_NO_LETTERS` if one of the first 12 is above 63; then the octets stay.
#[unsafe(no_mangle)]
pub extern "C" fn p25_rs_24_12_write(symbols: &mut [u8; 24]) -> i32
    ensures { IsSymbolWriting 24 12 symbols.old symbols.new result }
{
    write_symbols::<24, 12>(symbols)
}

/// Sets the last 8 octets to the check symbols of the first 16, so that all are a codeword of the code (24,16), and returns 0.
/// Returns `P25_NO_LETTERS` if one of the first 16 is above 63; then the octets stay.
#[unsafe(no_mangle)]
pub extern "C" fn p25_rs_24_16_write(symbols: &mut [u8; 24]) -> i32
    ensures { IsSymbolWriting 24 16 symbols.old symbols.new result }
{
    write_symbols::<24, 16>(symbols)
}
