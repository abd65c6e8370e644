//! The code (16,8) of the low speed data (LSD).

ghost use Rattle.p25_code.specs.CodeLaws.{parameters_of};
ghost use Rattle.p25_hamming.specs.Lsd16Laws.{lsd16_code};

use p25_bits::sums;
use p25_code::{CheckedCode, Parameters, wrong_by_halves};

/// The shortened cyclic code (16,8) of the low speed data (LSD): eight bits of information and their eight remainder
/// bits. The codeword, as a polynomial with the first bit highest, is divisible by x^8 + x^5 + x^4 + x^3 + 1 (139 hex).
/// Any two codewords differ in at least 5 bits; two bit errors are corrected. TIA-102.BAAA, Low Speed Data.
#[derive(Clone, Copy, Debug, PartialEq, Eq)]
pub struct Lsd16;

// The check bits of the messages with a single 1, in order: the remainders of x^15 to x^8 by the generator 139 hex.
const CHECK_ROWS: [u16; 8] = [0x4E, 0x27, 0x8F, 0xDB, 0xF1, 0xE4, 0x72, 0x39];

// The messages of the codewords with a single 1 among the check bits, in order.
const MESSAGE_ROWS: [u16; 8] = [0x9C, 0x4E, 0x27, 0x8F, 0xDB, 0xF1, 0xE4, 0x72];

impl CheckedCode for Lsd16 {
    const PARAMETERS: Parameters = Parameters { n: 16, k: 8, d: 5 };

    ghost PARAMETERS = { parameters_of lsd16_code };

    ghost code = { lsd16_code };

    fn check_bits(info: u32) -> u16 {
        // The check bits of all messages.
        static CHECKS: [u16; 256] = sums! {
            CHECK_ROWS[0], CHECK_ROWS[1], CHECK_ROWS[2], CHECK_ROWS[3],
            CHECK_ROWS[4], CHECK_ROWS[5], CHECK_ROWS[6], CHECK_ROWS[7]
        };
        CHECKS[info as usize]
    }

    #[tactic(auto, using(crate::proofs::Lsd16Tables::messages_are, crate::proofs::Lsd16Tables::rows_inverse))]
    fn wrong_bits(syndrome: u16) -> Option<u32> {
        // The messages of all check bits.
        static MESSAGES: [u16; 256] = sums! {
            MESSAGE_ROWS[0], MESSAGE_ROWS[1], MESSAGE_ROWS[2], MESSAGE_ROWS[3],
            MESSAGE_ROWS[4], MESSAGE_ROWS[5], MESSAGE_ROWS[6], MESSAGE_ROWS[7]
        };
        let message = MESSAGES[syndrome as usize];
        wrong_by_halves(&CHECK_ROWS, &MESSAGE_ROWS, 2, syndrome, message)
    }
}
