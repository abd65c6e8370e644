//! The check bits of a network identifier (NID), by a table.

ghost use Rattle.std.specs.Prelude.{◌+◌, ◌*◌, ◌^◌, ◌<◌, ◌↔◌, IsTrue};
ghost use Rattle.p25_bits.specs.Divisible.{IsRemainder};
ghost use Rattle.p25_bch_nid.specs.Nid.{generator};

use p25_bits::sums;

// The remainders by the generator of v · x^(47 + 4 · position), by the position, below 4, and v below 16. The entries
// of 8, 4, 2 and 1 are enough to make all.
pub(crate) static REMAINDERS: [[u64; 16]; 4] = [
    sums! { 0x0C61_6DFA_7889, 0x60F9_3313_A1D1, 0x56B5_1C67_4D7D, 0x4D93_0BDD_3B2B },
    sums! { 0x0B85_D47A_B3BB, 0x630B_6FD3_C448, 0x3185_B7E9_E224, 0x18C2_DBF4_F112 },
    sums! { 0x75CE_4C76_009B, 0x5C2E_A3D5_9DD8, 0x2E17_51EA_CEEC, 0x170B_A8F5_6776 },
    sums! { 0x66C9_85EE_9D95, 0x55AD_4719_D35F, 0x4C1F_2662_743A, 0x260F_9331_3A1D },
];

// Returns the 47 check bits of 16 bits of information: the remainder of the information times x^47.
pub(crate) fn check_bits(information: u64) -> u64
    requires { information < 2 ^ 16 }
    ensures { IsRemainder generator 47 (information * 2 ^ 47) result }
{
    remainder_at(3, information / 4096)
        ^ (remainder_at(2, information / 256 % 16)
            ^ (remainder_at(1, information / 16 % 16) ^ remainder_at(0, information % 16)))
}

// Returns the remainder of four bits at a position.
fn remainder_at(place: usize, bits: u64) -> u64
    requires place { place < 4 }
    requires bits { bits < 16 }
    ensures { IsRemainder generator 47 (bits * 2 ^ (47 + 4 * place)) result }
{
    REMAINDERS[place][bits as usize]
}

// Returns whether a word of 63 bits has the check bits of its first 16.
pub(crate) fn is_clean(word: u64) -> bool
    requires { word < 2 ^ 63 }
    ensures { IsTrue result ↔ IsRemainder generator 47 word 0 }
{
    check_bits(word >> 47) == word % (1 << 47)
}
