//! The values of words: octets in hexadecimal, and decimal numbers.

ghost use Rattle.std.specs.{Prelude.{◌≡◌, ◌≢◌, ℕ, ◌≤◌, List, length, take, drop, decimal, IfSome, MatchOption}, Bool.{OnTrue, OnFalse}, List.{list_all}};
ghost use Rattle.std.specs.Option.{option_map};
ghost use Rattle.hex.specs.Hex.{encode_lower};
ghost use Rattle.p25_line.specs.{Octets.{octets_up_to}, Values.{AllOctets, is_lower_digit}};

use super::comma_lists::is_dash;
use crate::decimal::{DIGITS_MOST, decimal_text};
use std::str;

/// Writes to `out` the octets whose lower-case hexadecimal text a word is, and returns whether there are as many as
/// `out` has. If the word is no such text, the result is false and `out` is unchanged.
pub fn hex_value(word: &[u8], out: &mut [u8]) -> bool
    ensures value { OnTrue result (encode_lower out.new ≡ word.now) }
    ensures octets { OnTrue result (AllOctets out.new) }
    ensures refused { OnFalse result ((octets : List ℕ) → length octets ≡ length out.old → AllOctets octets → encode_lower octets ≢ word.now) }
    ensures same { OnFalse result (out.new ≡ out.old) }
{
    if word.len() != 2 * out.len() || !is_lower_hex(word) {
        return false;
    }
    let _ = hex::decode_to_slice(word, out);
    true
}

/// Writes to the beginning of `out` the octets that a word represents, two lower-case hexadecimal digits each or `-`
/// for none, and returns their number. `None` is returned if and only if the word is neither, or there are more octets
/// than `out` has; then `out` is unchanged.
pub fn octets_or_dash(word: &[u8], out: &mut [u8]) -> Option<usize>
    ensures value { option_map (λ count. take count out.new) result ≡ octets_up_to (length out.old) word.now }
    ensures few { IfSome result (λ count. count ≤ length out.new) }
    ensures rest { MatchOption result (out.new ≡ out.old) (λ count. drop count out.new ≡ drop count out.old) }
{
    if is_dash(word) {
        return Some(0);
    }
    let count = word.len() / 2;
    if count == 0 || count > out.len() {
        return None;
    }
    hex_value(word, &mut out[..count]).then_some(count)
}

/// Returns the number whose decimal text a word is. `None` is returned if and only if the word is not the text of a
/// number up to `most`, without a leading zero or a sign.
pub fn number_value(word: &[u8], most: u64) -> Option<u64>
    ensures { MatchOption result ((number : ℕ) → number ≤ most → decimal number ≢ word.now)
        (λ number. (number ≤ most) × (decimal number ≡ word.now)) }
{
    let Ok(text) = str::from_utf8(word) else {
        return None;
    };
    let Ok(number) = text.parse::<u64>() else {
        return None;
    };
    let mut room = [0; DIGITS_MOST];
    if number <= most && decimal_text(number, &mut room) == word {
        Some(number)
    } else {
        None
    }
}

// Returns whether a word has lower-case hexadecimal digits alone.
fn is_lower_hex(word: &[u8]) -> bool
    ensures { result ≡ list_all is_lower_digit word.now }
{
    word.iter()
        .all(|digit| matches!(*digit, b'0'..=b'9' | b'a'..=b'f'))
}
