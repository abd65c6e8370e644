//! The Reed-Solomon code as a type, with the encoder and the decoders of every block code.

ghost use Rattle.std.specs.Prelude.{◌+◌, ◌-◌};
ghost use Rattle.p25_gf64.proofs.SymbolLaws.{same_from_eq};
ghost use Rattle.p25_reed_solomon.specs.{Encoding.{rs_word}, Words.{IsCode, IsWord, radius_of}, WordLaws.{begins_of, length_of_word_of, one_word_of, within_of, words_apart}};
ghost use Rattle.p25_reed_solomon.specs.RsReadings.{erasures_within_of, rs_erased_reading_of, rs_erased_reads_as, rs_reading_of, rs_reads_as};

use crate::encoder::encode;
use crate::reader::{read, read_erased};
use p25_code::{BlockCode, ErasedCode, Reading};
use p25_gf64::Sym;

/// The Reed-Solomon code over GF(64) of N symbols, the first K of which are the information (TIA-102.BAAA). Its
/// codewords vanish at α^1 to α^(N - K), as polynomials with their first symbol as the highest coefficient.
///
/// The calls of `BlockCode` require that N is at most 63, K is at least 1 and less than N, and N - K is even and at
/// most 22. The correction radius is (N - K) / 2, and two different codewords differ in at least N - K + 1 symbols.
#[derive(Clone, Copy, Debug, PartialEq, Eq)]
pub struct Rs<const N: usize, const K: usize>;

impl<const N: usize, const K: usize> BlockCode for Rs<N, K> {
    const N: usize = N;

    const K: usize = K;

    type Letter = Sym;

    ghost N = { N };

    ghost K = { K };

    ghost HasCode = { IsCode N K };

    ghost IsWord = { IsWord N K };

    ghost radius_is = { radius_of N K };

    ghost distance_is = { N - K + 1 };

    ghost encoding_is = { rs_word N K };

    ghost reading_is = { rs_reading_of N K };

    ghost reads_as = { λ _. rs_reads_as N K };

    ghost same_letter = { same_from_eq };

    ghost length_of_word = { λ _. length_of_word_of N K };

    ghost one_word = { one_word_of N K };

    ghost far_apart = { words_apart N K };

    ghost within = { within_of N K };

    ghost begins = { begins_of N K };

    fn radius() -> usize {
        (N - K) / 2
    }

    fn encode(info: &[Sym], word: &mut [Sym]) {
        encode(info, word);
    }

    fn read(word: &mut [Sym]) -> Reading {
        read(word, K)
    }
}

impl<const N: usize, const K: usize> ErasedCode for Rs<N, K> {
    ghost erased_reading_is = { rs_erased_reading_of N K };

    ghost erased_reads_as = { λ _. rs_erased_reads_as N K };

    ghost erasures_within = { λ _. erasures_within_of N K };

    fn read_erased(word: &mut [Sym], erased: &[bool]) -> Reading {
        read_erased(word, K, erased)
    }
}
