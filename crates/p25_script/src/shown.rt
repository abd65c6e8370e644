//! Steps as `{}` writes them, and events as `parse` reads them, of each form of scripts. A trait of the kit can be
//! implemented for types of this crate alone, so a step and an event each have a newtype here.

ghost use Rattle.std.specs.Prelude.{◌≡◌, ◌≢◌, ◌++◌, ℕ, List, Some, Result, Ok, Err, MatchResult};
ghost use Rattle.p25_line.specs.{LineReadings.{line_read}, declared.fault.LineFault.{LineFault as fault_type}, declared.fault.LineFault.TheVariants.{Long}};

use p25_duplex::{DuplexEvent, DuplexStep};
use p25_fragments::{LongEvent, LongStep};
use p25_line::{Line, LineFault, LineReader, LineWords, read_whole};
use p25_stations::{Event, Step};
use std::fmt;
use std::str::FromStr;

/// A step of one of the forms of scripts.
pub trait ScriptStep {
    // The text of a step.
    ghost shown: { Self → List ℕ };

    /// Writes to `out` and `behind` the two parts of the text of a step, one after the other. A text in one part leaves
    /// `behind` empty.
    fn put_text(&self, out: &mut Line, behind: &mut Line)
        ensures { out.new ++ behind.new ≡ shown self.now };
}

/// A step as its text, which `{}` writes.
#[derive_where(Clone, Copy)]
pub struct StepText<'a, S = Step>(pub &'a S);

/// A step of long messages as its text, one or two lines each with its end.
pub type LongStepText<'a> = StepText<'a, LongStep>;

/// A step of stations that both send as its text.
pub type DuplexStepText<'a> = StepText<'a, DuplexStep>;

impl<S: ScriptStep> fmt::Display for StepText<'_, S> {
    ghost output = { λ text. Some (S.shown text.0.now) };

    fn fmt<W: fmt::Write>(&self, f: &mut fmt::Formatter<W>) -> fmt::Result {
        let mut out = Line::new();
        let mut behind = Line::new();
        self.0.put_text(&mut out, &mut behind);
        fmt::Display::fmt(&out, f)?;
        fmt::Display::fmt(&behind, f)
    }
}

/// An event of one of the forms of scripts.
pub trait ScriptEvent {
    // The decoding of the words of a line, or the reason for refusing them.
    ghost by_words: { List (List ℕ) → Result Self fault_type };

    // Words are never refused as a line that is too long.
    ghost not_long: { (words : List (List ℕ)) → by_words words ≢ Err Long };

    /// Returns the event of the words of a line, or the reason for refusing them. It is called apart: an event is
    /// large, and each function that returns one has a buffer for it.
    fn read_words(words: &LineWords) -> Result<Self, LineFault>
        ensures { result ≡ by_words words.now };
}

/// An event that `parse` reads from its line, as `read_event` and its variants do.
#[derive(Drop)]
pub struct EventLine<E = Event>(pub E);

/// An event of long messages that `parse` reads from its line.
pub type LongEventLine = EventLine<LongEvent>;

/// An event of stations that both send, which `parse` reads from its line.
pub type DuplexEventLine = EventLine<DuplexEvent>;

// The trait is that of the form of such lines. The result is the event alone, which `from_str` converts to this type.
impl<E: ScriptEvent> LineReader for EventLine<E> {
    type Value = E;

    ghost words_read = { E.by_words };

    ghost not_long = { E.not_long };

    fn read_words(words: &LineWords) -> Result<E, LineFault> {
        E::read_words(words)
    }
}

impl<E: ScriptEvent> FromStr for EventLine<E> {
    type Err = LineFault;

    ghost from_str_gives = { λ line result. MatchResult result (λ event. line_read E.by_words line ≡ Ok event.0)
        (λ fault. line_read E.by_words line ≡ Err fault) };

    fn from_str(line: &str) -> Result<EventLine<E>, LineFault> {
        Ok(EventLine(read_whole::<EventLine<E>>(line.as_bytes())?))
    }
}
