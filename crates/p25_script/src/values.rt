//! The values of script lines.

ghost use Rattle.std.specs.Prelude.{◌≡◌, ◌^◌, ◌<◌, ◌≤◌, length, IfSome};
ghost use Rattle.p25_line.specs.Octets.{octets_up_to};
ghost use Rattle.p25_script.specs.Values.{place_in, places_in};

use p25_line::{comma_part, is_dash, number_value, octets_or_dash};
use p25_messages::{Flips, MessageOf};

/// Returns the message of a word. `None` is returned in exactly two cases: the word is neither `-` nor an even number
/// of lower-case hexadecimal digits, two for each octet, or it writes more than `MOST` octets.
pub fn message_value<const MOST: usize>(word: &[u8]) -> Option<MessageOf<MOST>>
    requires { MOST ≤ 2 ^ 32 }
    ensures { result ≡ octets_up_to MOST word.now }
{
    let mut room = [0; MOST];
    let count = octets_or_dash(word, &mut room)?;
    Some(MessageOf::beginning_of(room, count))
}

// Returns the position of a text: a number below 25,920.
fn place_value(text: &[u8]) -> Option<u16>
    ensures place { result ≡ place_in text.now }
    ensures below { IfSome result (λ place. place < 25920) }
    ensures some { IfSome result (λ place. 0 < length text.now) }
{
    let place = number_value(text, 25_919)?;
    Some(place as u16)
}

/// Returns the positions of a word. `None` is returned if and only if the word is neither `-` nor numbers below 25,920
/// without leading zeros, strictly ascending, with commas between them.
pub fn places_value(word: &[u8]) -> Option<Flips>
    requires { length word.now ≤ 8192 }
    ensures { result ≡ places_in word.now }
{
    let mut places = Flips::new();
    if is_dash(word) {
        return Some(places);
    }
    let mut start = 0;
    let mut least = 0;
    while start <= word.len() {
        let part = comma_part(word, start);
        let place = place_value(part)?;
        if place < least {
            return None;
        }
        places.push(place);
        least = place + 1;
        start += part.len() + 1;
    }
    Some(places)
}
