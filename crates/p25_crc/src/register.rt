//! A register that divides the bits shifted into it by a polynomial of degree 32. It holds the remainder of x^32 times
//! the polynomial of these bits.

ghost use Rattle.std.specs.Prelude.{ℕ, ◌+◌, ◌*◌, ◌^◌, Bool, List, ◌++◌};
ghost use Rattle.p25_bits.specs.{Bits.{field_of, octet_bits}, Divisible.{IsRemainder}};
ghost use Rattle.p25_crc.specs.Remainders.{AreRemainders};

use crate::remainders::Remainders;

// Shifts the 32 bits of a word into a register, the highest first.
fn take_word(register: u32, word: u32, remainders: &Remainders) -> u32
    ensures { (divisor before : ℕ) → AreRemainders divisor remainders.now → IsRemainder divisor 32 (before * 2 ^ 32) register
        → IsRemainder divisor 32 ((before * 2 ^ 32 + word) * 2 ^ 32) result }
{
    let sum = register ^ word;
    remainders[3][(sum >> 24) as usize]
        ^ (remainders[2][((sum >> 16) % 256) as usize]
            ^ (remainders[1][((sum >> 8) % 256) as usize] ^ remainders[0][(sum % 256) as usize]))
}

// Shifts the bits of octets into a register, four octets at a time as long as four are left, and then one at a time,
// each octet's highest bit first.
pub(crate) fn take_octets(register: u32, octets: &[u8], remainders: &Remainders) -> u32
    ensures { (divisor : ℕ) (before : List Bool) → AreRemainders divisor remainders.now → IsRemainder divisor 32 (field_of before * 2 ^ 32) register
        → IsRemainder divisor 32 (field_of (before ++ octet_bits octets.now) * 2 ^ 32) result }
{
    let words = octets.len() / 4;
    let mut register = register;
    for k in 0..words {
        let at = 4 * k;
        let word = u32::from_be_bytes([octets[at], octets[at + 1], octets[at + 2], octets[at + 3]]);
        register = take_word(register, word, remainders);
    }
    for octet in &octets[4 * words..] {
        register = (register << 8) ^ remainders[0][((register >> 24) as u8 ^ *octet) as usize];
    }
    register
}
