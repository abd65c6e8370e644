//! The Hamming code (10,6).

ghost use Rattle.p25_code.specs.CodeLaws.{parameters_of};
ghost use Rattle.p25_hamming.specs.Hamming10Laws.{hamming10_code};

use p25_bits::sums;
use p25_code::{CheckedCode, Parameters, wrong_by_rows};

/// The shortened Hamming code (10,6). A codeword has ten bits: the first six are the information, and the last four the
/// sum over GF(2) of the check rows of the information bits that are 1. Any two codewords differ in at least 3 bits;
/// one bit error is corrected. TIA-102.BAAA, Link Control and Encryption Sync words of the logical link units.
#[derive(Clone, Copy, Debug, PartialEq, Eq)]
pub struct Hamming10;

// The check bits of the messages with a single 1, in order.
const CHECK_ROWS: [u16; 6] = [0b1110, 0b1101, 0b1011, 0b0111, 0b0011, 0b1100];

impl CheckedCode for Hamming10 {
    const PARAMETERS: Parameters = Parameters { n: 10, k: 6, d: 3 };

    ghost PARAMETERS = { parameters_of hamming10_code };

    ghost code = { hamming10_code };

    fn check_bits(info: u32) -> u16 {
        // The check bits of all messages.
        static CHECKS: [u16; 64] =
            sums! { CHECK_ROWS[0], CHECK_ROWS[1], CHECK_ROWS[2], CHECK_ROWS[3], CHECK_ROWS[4], CHECK_ROWS[5] };
        CHECKS[info as usize]
    }

    fn wrong_bits(syndrome: u16) -> Option<u32> {
        wrong_by_rows(&CHECK_ROWS, 4, 1, syndrome)
    }
}
