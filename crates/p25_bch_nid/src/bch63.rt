//! The BCH code (63,16).

ghost use Rattle.p25_bch_nid.specs.{Bch63.{IsBch63}, Bch63Laws.{bch63_is_code, encoded}, Bch63Readings.{bch63_reading_of, bch63_reads_as}};

use crate::correction::nearest;
use p25_bits::{number_of, number_remainder, put_number};
use p25_code::{BlockCode, Reading};

// The generator polynomial: bit i is the coefficient of x^i.
pub(crate) const GENERATOR: u64 = 0xCD93_0BDD_3B2B;

const RADIUS: usize = 11;

/// The BCH code (63,16): 63 bits, the first the coefficient of x^62, whose polynomial is zero at α^1 to α^22 in GF(64).
/// This is equivalent to divisibility by the generator polynomial CD930BDD3B2B hex (octal 6331141367235453). The first
/// 16 bits are the information. Any two codewords differ in at least 23 bits; eleven bit errors are corrected.
/// TIA-102.BAAA, Network Identifier.
#[derive(Clone, Copy, Debug, PartialEq, Eq)]
pub struct Bch63;

impl BlockCode for Bch63 {
    const N: usize = 63;

    const K: usize = 16;

    type Letter = bool;

    ghost N = { 63 };

    ghost K = { 16 };

    ghost HasCode = { Unit {0} };

    ghost IsWord = { IsBch63 };

    ghost radius_is = { 11 };

    ghost distance_is = { 23 };

    ghost encoding_is = { encoded };

    ghost reading_is = { bch63_reading_of };

    ghost reads_as = { λ _. bch63_reads_as };

    ghost same_letter = { bch63_is_code.alike };

    ghost length_of_word = { λ _. bch63_is_code.long };

    ghost one_word = { λ _. bch63_is_code.one_word };

    ghost far_apart = { λ _. bch63_is_code.far_apart };

    ghost within = { λ _. bch63_is_code.close };

    ghost begins = { λ _. bch63_is_code.begins };

    fn radius() -> usize {
        RADIUS
    }

    fn encode(info: &[bool], word: &mut [bool]) {
        let remainder = number_remainder(number_of(info) << 47, GENERATOR, 47);
        let (beginning, checks) = word.split_at_mut(16);
        beginning.copy_from_slice(info);
        put_number(remainder, checks);
    }

    fn read(word: &mut [bool]) -> Reading {
        let received = number_of(word);
        match nearest(received) {
            Some(sent) => {
                put_number(sent, word);
                Reading::Found {
                    fixes: (received ^ sent).count_ones(),
                }
            }
            None => Reading::Beyond,
        }
    }
}
