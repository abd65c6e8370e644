//! Codewords of the Reed-Solomon codes, given by the octets of their symbols.

ghost use Rattle.std.specs.Prelude.{◌≡◌, ◌<◌, All, length, map, IsTrue};
ghost use Rattle.p25_code.specs.Erasures.{without_erased};
ghost use Rattle.p25_gf64.specs.Symbol.{number};
ghost use Rattle.p25_reed_solomon.specs.{Words.{IsCode}, RsReadings.{rs_erased_reading_of, rs_reading_of}};
ghost use Rattle.p25_c.specs.Symbols.{IsSymbolReading, IsSymbolWriting};

use crate::word_calls::answers::{OUTSIDE, answer_of};
use p25_code::{BlockCode, read_received, read_with_erasures};
use p25_gf64::Sym;
use p25_reed_solomon::Rs;

/// Decodes a received word of the Reed-Solomon code (N, K). It requires N octets, one for each symbol of six bits in
/// the order of transmission. Returns the number of symbol errors if they are at most half of N - K: the octets become
/// those of the one codeword that differs in that few symbols. Returns -1 if there is none, and -2 if an octet is above
/// 63; then nothing is changed.
pub(crate) fn read_symbols<const N: usize, const K: usize>(octets: &mut [u8]) -> i32
    requires code { IsCode N K }
    requires long { length octets.old ≡ N }
    ensures { IsSymbolReading (rs_reading_of N K) octets.old octets.new result }
{
    let mut word = [Sym::default(); N];
    if !name_symbols(octets, &mut word) {
        return OUTSIDE;
    }
    let reading = read_received::<Rs<N, K>>(&mut word);
    put_numbers(&word, octets);
    answer_of(reading)
}

/// Decodes a received word of the code (N, K) as `read_symbols` does, with erasures: the symbols with a true entry in
/// `erased` are not known. Returns the number of symbols that changed if, for some codeword, twice the wrong symbols
/// among the others plus the erased ones are at most N - K. Then the octets become those of that codeword. Returns -1
/// if there is none, and -2 if an octet is above 63, an erased one too; then nothing is changed.
pub(crate) fn read_with_erased<const N: usize, const K: usize>(
    octets: &mut [u8],
    erased: &[bool],
) -> i32
    requires code { IsCode N K }
    requires long { length octets.old ≡ N }
    requires erased { length erased.now ≡ N }
    ensures { IsSymbolReading (λ received. rs_erased_reading_of N K (without_erased received erased.now)) octets.old octets.new result }
{
    let mut word = [Sym::default(); N];
    if !name_symbols(octets, &mut word) {
        return OUTSIDE;
    }
    let reading = read_with_erasures::<Rs<N, K>>(&mut word, erased);
    put_numbers(&word, octets);
    answer_of(reading)
}

/// Computes the N - K check symbols of the first K octets and stores them after these. Then all N are a codeword of the
/// code (N, K). Returns 0. Returns -2 if one of the first K is above 63; then nothing is changed.
pub(crate) fn write_symbols<const N: usize, const K: usize>(octets: &mut [u8]) -> i32
    requires code { IsCode N K }
    requires long { length octets.old ≡ N }
    ensures { IsSymbolWriting N K octets.old octets.new result }
{
    let mut info = [Sym::default(); K];
    if !name_symbols(&octets[..K], &mut info) {
        return OUTSIDE;
    }
    let mut word = [Sym::default(); N];
    Rs::<N, K>::encode(&info, &mut word);
    put_numbers(&word, octets);
    0
}

// Writes the symbols that octets represent, and returns whether each octet represents one.
fn name_symbols(octets: &[u8], symbols: &mut [Sym]) -> bool
    requires { length symbols.old ≡ length octets.now }
    ensures named { IsTrue result → map number symbols.new ≡ octets.now }
    ensures other { (All (λ octet. octet < 64) octets.now) → IsTrue result }
{
    for i in 0..octets.len() {
        match Sym::new(octets[i]) {
            Some(symbol) => symbols[i] = symbol,
            None => return false,
        }
    }
    true
}

// Writes to octets the numbers of symbols.
fn put_numbers(symbols: &[Sym], octets: &mut [u8])
    requires { length symbols.now ≡ length octets.old }
    ensures { octets.new ≡ map number symbols.now }
{
    for i in 0..symbols.len() {
        octets[i] = symbols[i].value();
    }
}

#[cfg(test)]
mod tests;
