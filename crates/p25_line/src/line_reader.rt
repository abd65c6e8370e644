//! Lines that are read whole.

ghost use Rattle.std.specs.Prelude.{◌≡◌, ◌≢◌, ◌↔◌, ℕ, ◌<◌, List, length, Result, Err};
ghost use Rattle.p25_line.specs.{LineReadings.{line_read}, declared.fault.LineFault.{LineFault as fault_type}, declared.fault.LineFault.TheVariants.{Long}};

use super::fault::LineFault;
use super::line_words::LineWords;

/// A reader of the words of lines of one form. A type represents a form and holds no value.
pub trait LineReader {
    /// The value that a line decodes to.
    type Value;

    // The value that words decode to, or the reason for refusing them.
    ghost words_read: { List (List ℕ) → Result Self.Value fault_type };

    // Words are never refused as a line that is too long.
    ghost not_long: { (words : List (List ℕ)) → words_read words ≢ Err Long };

    /// Returns the value that the words of a line decode to, or the reason for refusing them.
    fn read_words(words: &LineWords) -> Result<Self::Value, LineFault>
        ensures { result ≡ words_read words.now };
}

/// Returns the value that a whole line decodes to, or the first reason for refusing it. `Long` is returned if and only
/// if the line has more than 8,192 octets. `Form` is returned if and only if the line is not longer and is not one or
/// more words of octets 21 to 7E hex with single spaces between them. Otherwise the result is that of its words.
pub fn read_whole<R: LineReader>(line: &[u8]) -> Result<R::Value, LineFault>
    ensures read { result ≡ line_read R.words_read line.now }
    ensures long { (result ≡ Err Long) ↔ (8192 < length line.now) }
{
    R::read_words(&LineWords::read(line)?)
}
