//! Correction of words of bits, as numbers. The errors of bits are bits, so they are known once their positions are.

ghost use Rattle.std.specs.Prelude.{◌≡◌, ◌≤◌, ◌<◌, ◌^◌, Bool, List, IfSome, option_map};
ghost use Rattle.p25_bits.specs.{Bits.{bits_of}, Distance.{distance_of}};
ghost use Rattle.p25_bch_nid.specs.{Bch63.{IsBch63}, Bch63Readings.{bch63_reading_of}};

use crate::checks::is_clean;
use crate::syndromes::syndromes_of;
use crate::zeros::zeros_of;
use p25_reed_solomon::wrong_locator;

// Returns the codeword within 11 bits of a received word of 63 bits, or `None` if and only if there is none. A codeword
// is recognized by its check bits and returned at once. In any other word the bit errors are inverted, and the result
// is tested again.
pub(crate) fn nearest(received: u64) -> Option<u64>
    requires { received < 2 ^ 63 }
    ensures reading { option_map (bits_of 63) result ≡ bch63_reading_of (bits_of 63 received) }
    ensures fits { IfSome result (λ sent. sent < 2 ^ 63) }
{
    if is_clean(received) {
        return Some(received);
    }
    let sent = corrected(received);
    let fixes = (received ^ sent).count_ones();
    if fixes > 11 {
        return None;
    }
    if !is_clean(sent) {
        return None;
    }
    Some(sent)
}

// Returns a word with its bit errors inverted: if at most 11 bits differ from a codeword, that codeword.
fn corrected(received: u64) -> u64
    requires { received < 2 ^ 63 }
    ensures sent { (sent : List Bool) → IsBch63 sent → distance_of (bits_of 63 received) sent ≤ 11 → bits_of 63 result ≡ sent }
    ensures fits { result < 2 ^ 63 }
{
    let locator = wrong_locator(&syndromes_of(received), 22, 63);
    received ^ zeros_of(&locator)
}
