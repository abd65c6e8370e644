//! The shortened Golay code (18,6).

ghost use Rattle.p25_code.specs.CodeLaws.{parameters_of};
ghost use Rattle.p25_golay.specs.Golay18Laws.{golay18_code};

use crate::golay24::Golay24;
use p25_code::{CheckedCode, Parameters};

/// The shortened Golay code (18,6): the codewords of the Golay code (24,12) that begin with six zeros, without those
/// zeros. Any two codewords differ in at least 8 bits; three bit errors are corrected. `Beyond` is returned if a
/// received word is near only to a codeword of the longer code whose first six bits are not all 0. TIA-102.BAAA, Header
/// Data Unit.
#[derive(Clone, Copy, Debug, PartialEq, Eq)]
pub struct Golay18;

impl CheckedCode for Golay18 {
    const PARAMETERS: Parameters = Parameters { n: 18, k: 6, d: 8 };

    ghost PARAMETERS = { parameters_of golay18_code };

    ghost code = { golay18_code };

    fn check_bits(info: u32) -> u16 {
        Golay24::check_bits(info)
    }

    // Bits among the first six are bit errors of the longer code alone.
    fn wrong_bits(syndrome: u16) -> Option<u32> {
        let wrong = Golay24::wrong_bits(syndrome)?;
        if wrong < 1 << 18 { Some(wrong) } else { None }
    }
}
