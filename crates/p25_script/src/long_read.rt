//! Events of long messages read from lines.

ghost use Rattle.std.specs.{Prelude.{◌≡◌, ◌↔◌, ◌<◌, ◌≤◌, IfOk, Err, length, drop, slice_get}, Str.{bytes_eq}};
ghost use Rattle.p25_line.specs.declared.fault.LineFault.TheVariants.{Long};
ghost use Rattle.p25_fragments.specs.declared.long_step.LongEvent.{LongEvent as event_type};
ghost use Rattle.p25_script.specs.LongScript.{IsLongScripted, long_event_by_words, long_event_of, long_event_text, other_event};
ghost use Rattle.p25_script.specs.LongReadLaws.{long_event_not_long};

use super::shown::{LongEventLine, ScriptEvent};
use super::values::message_value;
use p25_fragments::LongEvent;
use p25_line::{LineFault, LineWords, read_whole};
use p25_stations::Event;

/// Returns the event whose line this is. Each line that is accepted is the line of its event, and the line of each
/// event is accepted if it is not too long. The error is the first of these reasons that applies:
///
/// - `Long`: the line has more than 8,192 octets.
/// - `Form`: it is not one or more words of octets 21 to 7E hex with single spaces between them.
/// - `Kind`: the first word is none of `long`, `timeout`, `reopen` and `deliver`.
/// - `Key`: the number of words does not fit, or the second word of `deliver` is neither `data` nor `answer`.
/// - `Value`: the long message is neither `-` nor 2 to 8,000 lower-case hexadecimal digits, an even number, or the
///   positions do not have their form.
pub fn read_long_event(line: &[u8]) -> Result<LongEvent, LineFault>
    ensures event { result ≡ long_event_of line.now }
    ensures long { (result ≡ Err Long) ↔ (8192 < length line.now) }
    ensures text { IfOk result (λ event. long_event_text event ≡ line.now) }
    ensures fits { IfOk result (λ event. IsLongScripted event) }
    ensures each { (event : event_type) → IsLongScripted event → length line.now ≤ 8192 → long_event_text event ≡ line.now → result ≡ Ok event }
{
    read_whole::<LongEventLine>(line)
}

// Returns whether two words are the same.
fn is_same(word: &[u8], other: &[u8]) -> bool
    ensures { result ≡ bytes_eq word.now other.now }
{
    word == other
}

// Returns the event of words that begin with another word.
fn read_other(first: &[u8], words: &LineWords) -> Result<LongEvent, LineFault>
    requires { slice_get words.now 0 ≡ Some first.now }
    ensures { result ≡ other_event first.now (drop 1 words.now) }
{
    if is_same(first, b"send") {
        return Err(LineFault::Kind);
    }
    Ok(LongEvent::Inner(Event::read_words(words)?))
}

impl ScriptEvent for LongEvent {
    ghost by_words = { long_event_by_words };

    ghost not_long = { long_event_not_long };

    #[inline(never)]
    fn read_words(words: &LineWords) -> Result<LongEvent, LineFault> {
        let first = words.first();
        if !is_same(first, b"long") {
            return read_other(first, words);
        }
        if words.count() != 2 {
            return Err(LineFault::Key);
        }
        match message_value(words.get(1)) {
            Some(message) => Ok(LongEvent::Long(message)),
            None => Err(LineFault::Value),
        }
    }
}
