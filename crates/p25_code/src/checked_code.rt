//! Systematic binary codes by their check bits.

ghost use Rattle.std.specs.Prelude.{◌≡◌, ◌-◌, ◌^◌, ◌<◌, MatchOption};

use crate::code::{BlockCode, Reading};
use crate::number_code::{NumberCode, put_reading};
use p25_bits::{number_of, put_number};

/// The three parameters by which the standard names a code, as in Golay (24,12,8). A codeword has n bits, the first k
/// of which are the information, and any two codewords differ in at least d bits. So n - k check bits follow the
/// information. The correction radius, the most bit errors that are corrected, is (d - 1) / 2, rounded down.
#[derive(Clone, Copy, Debug, PartialEq, Eq)]
pub struct Parameters {
    pub n: usize,
    pub k: usize,
    pub d: usize,
}

/// A systematic binary code of at most 32 bits, by its check bits. The information is followed by at most 16 check
/// bits, the sum over GF(2) of the rows at whose positions the information is 1. A type that computes the check bits
/// and the bit errors of a syndrome is a `BlockCode` and a `NumberCode`.
pub trait CheckedCode {
    ghost use Rattle.p25_code.specs.{declared.checked_code.Parameters.{Parameters}, CodeLaws.{SystematicCode, columns_of, radius_of}};
    ghost use Rattle.p25_code.specs.WrongBits.{number_sum, AreWrong, NoneWrong};

    /// The number of bits of a codeword, the number of its information bits, and the least distance.
    const PARAMETERS: Parameters;

    ghost PARAMETERS: { Parameters };

    // The codewords by the rows of their check bits, and their laws.
    ghost code: { SystematicCode PARAMETERS.n PARAMETERS.k PARAMETERS.d };

    /// Returns the check bits of the information, the first bit highest.
    fn check_bits(info: u32) -> u16
        requires { info < 2 ^ PARAMETERS.k }
        ensures { result ≡ number_sum code.rows info };

    /// Returns the bit errors of a word by its syndrome, the sum over GF(2) of the received check bits and those of the
    /// received information. They are a number of as many bits as the word, the first bit highest, with a 1 for each
    /// bit error, at most as many as the correction radius. `None` is returned if and only if no such bit errors have
    /// that syndrome.
    fn wrong_bits(syndrome: u16) -> Option<u32>
        requires { syndrome < 2 ^ (PARAMETERS.n - PARAMETERS.k) }
        ensures { let radius = radius_of PARAMETERS.d in
            MatchOption result (NoneWrong (columns_of code) radius syndrome) (AreWrong (columns_of code) radius syndrome) };
}

impl<C: CheckedCode> BlockCode for C {
    ghost use Rattle.p25_code.specs.{Binary.{systematic}, CodeLaws.{radius_of}, Letters.{same_bit}};

    const N: usize = C::PARAMETERS.n;

    const K: usize = C::PARAMETERS.k;

    type Letter = bool;

    ghost N = { C.PARAMETERS.n };

    ghost K = { C.PARAMETERS.k };

    ghost HasCode = { Unit {0} };

    ghost IsWord = { C.code.IsWord };

    ghost radius_is = { radius_of C.PARAMETERS.d };

    ghost distance_is = { C.PARAMETERS.d };

    ghost encoding_is = { systematic C.code.rows (C.PARAMETERS.n - C.PARAMETERS.k) };

    ghost reading_is = { C.code.is.reading };

    ghost reads_as = { λ _. C.code.is.reads };

    ghost same_letter = { same_bit };

    ghost length_of_word = { λ _. C.code.is.laws.long };

    ghost one_word = { λ _. C.code.is.laws.one_word };

    ghost far_apart = { λ _. C.code.is.laws.far_apart };

    ghost within = { λ _. C.code.is.laws.close };

    ghost begins = { λ _. C.code.is.laws.begins };

    fn radius() -> usize {
        (C::PARAMETERS.d - 1) / 2
    }

    fn encode(info: &[bool], word: &mut [bool]) {
        put_number(u64::from(C::encode_number(number_of(info) as u32)), word);
    }

    fn read(word: &mut [bool]) -> Reading {
        let received = number_of(word) as u32;
        put_reading(received, C::read_number(received), word)
    }
}

impl<C: CheckedCode> NumberCode for C {
    ghost encodes = { λ _. C.code.is.encodes };

    ghost fits_number = { λ _. C.code.is.table.few };

    fn encode_number(info: u32) -> u32 {
        let Parameters { n, k, .. } = C::PARAMETERS;
        (info << (n - k)) | u32::from(C::check_bits(info))
    }

    fn read_number(received: u32) -> Option<u32> {
        let Parameters { n, k, .. } = C::PARAMETERS;
        let checks = n - k;
        let syndrome = C::check_bits(received >> checks) ^ (received % (1 << checks)) as u16;
        if syndrome == 0 {
            return Some(received);
        }
        let wrong = C::wrong_bits(syndrome)?;
        Some(received ^ wrong)
    }
}
