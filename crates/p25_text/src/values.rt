//! The values of the keys of a unit line.

ghost use Rattle.std.specs.{Prelude.{◌≡◌, ℕ, ◌+◌, ◌<◌, ◌≤◌, List, length, drop, map, slice_get, IfSome}, Option.{option_map}};
ghost use Rattle.p25_text.specs.{Grammar.{behind, values_behind}, Names.{key_text}, Values.{nac_in, octets_in}};

use super::names::UnitKey;
use arrayvec::ArrayVec;
use p25_line::{LineWords, hex_value};
use std::marker::Model;

// The most values of a unit line.
const VALUES_MOST: usize = 6;

/// The values of a line, in the order of their keys.
#[derive(Drop)]
pub struct Values<'a> {
    values: ArrayVec<&'a [u8], VALUES_MOST>,
}

impl<'a> Model for Values<'a> {
    ghost use Rattle.std.specs.Prelude.{List, ℕ, map};

    ghost Value = { List (List ℕ) };

    ghost view = { λ s. map (λ value. value.now) s.values.items };
}

impl<'a> Values<'a> {
    /// Returns value `i`, counted from 0. It requires `i` below their number.
    pub fn get(&self, i: usize) -> &'a [u8]
        requires { i < length self.now }
        ensures { slice_get self.now i ≡ Some result.now }
    {
        self.values.as_slice()[i]
    }
}

/// Returns the values after keys in the words of a line but the first. `None` is returned if and only if some word does
/// not begin with its key.
pub fn values_of_words<'a>(words: &LineWords<'a>, keys: &[UnitKey]) -> Option<Values<'a>>
    requires count { length words.now ≡ length keys.now + 1 }
    requires few { length keys.now ≤ 6 }
    ensures { result ≡ values_behind keys.now (drop 1 words.now) }
{
    let mut values = ArrayVec::new();
    for (i, key) in keys.iter().enumerate() {
        values.push(value_after(words.get(i + 1), *key)?);
    }
    Some(Values { values })
}

// Returns the part of a word after a key, if the word begins with it.
fn value_after(word: &[u8], key: UnitKey) -> Option<&[u8]>
    ensures { option_map (λ value. value.now) result ≡ behind (key_text key) word.now }
{
    word.strip_prefix(key.text())
}

/// Returns the network access code (NAC) of a word. `None` is returned if and only if the word is not three digits.
pub fn nac_value(word: &[u8]) -> Option<u16>
    ensures value { result ≡ nac_in word.now }
    ensures fits { IfSome result (λ nac. nac < 4096) }
{
    if word.len() != 3 {
        return None;
    }
    let octets = octets_value::<2>(&[b'0', word[0], word[1], word[2]])?;
    Some(u16::from_be_bytes(octets))
}

/// Returns the octets of a word, two digits each. `None` is returned if and only if it is not the text of `N` octets.
pub fn octets_value<const N: usize>(word: &[u8]) -> Option<[u8; N]>
    ensures value { result ≡ octets_in N word.now }
    ensures len { IfSome result (λ octets. length octets ≡ N) }
{
    let mut octets = [0; N];
    hex_value(word, &mut octets).then_some(octets)
}
