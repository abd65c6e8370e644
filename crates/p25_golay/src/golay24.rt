//! The Golay code (24,12).

ghost use Rattle.p25_code.specs.CodeLaws.{parameters_of};
ghost use Rattle.p25_golay.specs.Golay24Laws.{golay24_code};

use p25_bits::sums;
use p25_code::{CheckedCode, Parameters, wrong_by_halves};

/// The extended Golay code (24,12): 12 bits of information, their 11 remainder bits, and one bit that makes the weight
/// even. The first 23 bits, as a polynomial with the first bit highest, are divisible by x^11 + x^10 + x^6 + x^5 + x^4
/// + x^2 + 1 (C75 hex). Any two codewords differ in at least 8 bits; three bit errors are corrected. TIA-102.BAAA,
/// Terminator with Link Control.
#[derive(Clone, Copy, Debug, PartialEq, Eq)]
pub struct Golay24;

// The check bits of the messages with a single 1, in order.
const CHECK_ROWS: [u16; 12] = [
    0xC75, 0x63B, 0xF68, 0x7B4, 0x3DA, 0xD99, 0x6CD, 0x367, 0xDC6, 0xA97, 0x93E, 0x8EB,
];

// The messages of the codewords with a single 1 among the check bits, in order.
const MESSAGE_ROWS: [u16; 12] = [
    0xA4F, 0xF68, 0x7B4, 0x3DA, 0x1ED, 0xAB9, 0xF13, 0xDC6, 0x6E3, 0x93E, 0x49F, 0xC75,
];

impl CheckedCode for Golay24 {
    const PARAMETERS: Parameters = Parameters { n: 24, k: 12, d: 8 };

    ghost PARAMETERS = { parameters_of golay24_code };

    ghost code = { golay24_code };

    fn check_bits(info: u32) -> u16 {
        // The check bits of the messages whose last six bits are 0, and of those whose first six are.
        static CHECKS: [[u16; 64]; 2] = [
            sums! { CHECK_ROWS[0], CHECK_ROWS[1], CHECK_ROWS[2], CHECK_ROWS[3], CHECK_ROWS[4], CHECK_ROWS[5] },
            sums! { CHECK_ROWS[6], CHECK_ROWS[7], CHECK_ROWS[8], CHECK_ROWS[9], CHECK_ROWS[10], CHECK_ROWS[11] },
        ];
        CHECKS[0][(info / 64) as usize] ^ CHECKS[1][(info % 64) as usize]
    }

    #[tactic(auto, using(crate::proofs::Golay24Tables::messages_are, crate::proofs::Golay24Tables::rows_inverse))]
    fn wrong_bits(syndrome: u16) -> Option<u32> {
        // The messages of the check bits whose last six are 0, and of those whose first six are.
        static MESSAGES: [[u16; 64]; 2] = [
            sums! { MESSAGE_ROWS[0], MESSAGE_ROWS[1], MESSAGE_ROWS[2], MESSAGE_ROWS[3], MESSAGE_ROWS[4], MESSAGE_ROWS[5] },
            sums! { MESSAGE_ROWS[6], MESSAGE_ROWS[7], MESSAGE_ROWS[8], MESSAGE_ROWS[9], MESSAGE_ROWS[10], MESSAGE_ROWS[11] },
        ];
        let message = MESSAGES[0][(syndrome / 64) as usize] ^ MESSAGES[1][(syndrome % 64) as usize];
        wrong_by_halves(&CHECK_ROWS, &MESSAGE_ROWS, 3, syndrome, message)
    }
}
