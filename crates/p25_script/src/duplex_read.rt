//! Events of the duplex world read from lines.

ghost use Rattle.std.specs.Prelude.{◌≡◌, ◌↔◌, ◌<◌, ◌≤◌, [], ◌∷◌, IfOk, Err, length};
ghost use Rattle.p25_line.specs.declared.fault.LineFault.TheVariants.{Long};
ghost use Rattle.p25_duplex.specs.{DuplexRuns.{IsDuplexEvent}, declared.event.DuplexEvent.{DuplexEvent as event_type}};
ghost use Rattle.p25_script.specs.DuplexLines.{IsDuplexScripted, direction_word, duplex_by_words, duplex_event_of, duplex_text, event_behind, start_named, start_word};
ghost use Rattle.p25_script.specs.DuplexReadLaws.{duplex_not_long};

use super::names::EventKind;
use super::shown::{DuplexEventLine, ScriptEvent};
use super::values::{message_value, places_value};
use p25_duplex::{DuplexEvent, Side};
use p25_line::{LineFault, LineWords, read_whole};

/// The meaning of the first word of a line.
#[derive(Clone, Copy)]
enum DuplexStart {
    /// A side acts.
    Acts(Side),
    /// A transmission is delivered.
    Delivery,
}

// All meanings of a first word.
const STARTS: [DuplexStart; 3] = [
    DuplexStart::Acts(Side::A),
    DuplexStart::Acts(Side::B),
    DuplexStart::Delivery,
];

impl DuplexStart {
    // Returns the meaning of the first word of a line. `None` is returned if and only if it has none.
    fn named(word: &[u8]) -> Option<DuplexStart>
        ensures { result ≡ start_named word.now }
    {
        STARTS.iter().copied().find(|start| word == start.word())
    }

    // Returns the word with this meaning.
    fn word(self) -> &'static [u8]
        ensures { result.now ≡ start_word self }
    {
        match self {
            DuplexStart::Acts(side) => side.word(),
            DuplexStart::Delivery => EventKind::Deliver.word(),
        }
    }
}

// Returns the word for the direction to a side.
fn direction(to: Side) -> &'static [u8]
    ensures { result.now ≡ direction_word to }
{
    match to {
        Side::A => b"ba",
        Side::B => b"ab",
    }
}

/// Returns the event whose line this is. Each line that is accepted is the line of its event, and the line of each
/// event is accepted if it is not too long. The laws of the duplex world hold for each event that is read. The error is
/// the first of these reasons that applies:
///
/// - `Long`: the line has more than 8,192 octets.
/// - `Form`: it is not one or more words of octets 21 to 7E hex with single spaces between them.
/// - `Kind`: the first word is none of `a`, `b` and `deliver`.
/// - `Key`: the second word is not one that may follow, or the number of words does not fit.
/// - `Value`: the message or the positions do not have their form.
pub fn read_duplex_event(line: &[u8]) -> Result<DuplexEvent, LineFault>
    ensures event { result ≡ duplex_event_of line.now }
    ensures long { (result ≡ Err Long) ↔ (8192 < length line.now) }
    ensures text { IfOk result (λ event. duplex_text event ≡ line.now) }
    ensures fits { IfOk result (λ event. IsDuplexScripted event) }
    ensures kept { IfOk result (λ event. IsDuplexEvent event) }
    ensures each { (event : event_type) → IsDuplexScripted event → length line.now ≤ 8192 → duplex_text event ≡ line.now → result ≡ Ok event }
{
    read_whole::<DuplexEventLine>(line)
}

// Returns the event that a side sends a message.
fn read_message(side: Side, second: &[u8], message: &[u8]) -> Result<DuplexEvent, LineFault>
    ensures { result ≡ event_behind (DuplexStart.Acts side) (second.now ∷ message.now ∷ []) }
{
    match EventKind::named(second) {
        Some(EventKind::Send) => {}
        _ => return Err(LineFault::Key),
    }
    match message_value(message) {
        Some(message) => Ok(DuplexEvent::Send(side, message)),
        None => Err(LineFault::Value),
    }
}

// Returns the delivery of a direction and of positions.
fn read_delivery(second: &[u8], places: &[u8]) -> Result<DuplexEvent, LineFault>
    requires { length places.now ≤ 8192 }
    ensures { result ≡ event_behind DuplexStart.Delivery (second.now ∷ places.now ∷ []) }
{
    let sides = [Side::A, Side::B];
    let Some(to) = sides.iter().copied().find(|to| second == direction(*to)) else {
        return Err(LineFault::Key);
    };
    match places_value(places) {
        Some(flips) => Ok(DuplexEvent::Deliver { to, flips }),
        None => Err(LineFault::Value),
    }
}

impl ScriptEvent for DuplexEvent {
    ghost by_words = { duplex_by_words };

    ghost not_long = { duplex_not_long };

    #[inline(never)]
    fn read_words(words: &LineWords) -> Result<DuplexEvent, LineFault> {
        let Some(start) = DuplexStart::named(words.first()) else {
            return Err(LineFault::Kind);
        };
        match (start, words.count()) {
            (DuplexStart::Acts(side), 2) => match EventKind::named(words.get(1)) {
                Some(EventKind::Timeout) => Ok(DuplexEvent::Timeout(side)),
                Some(EventKind::Reopen) => Ok(DuplexEvent::Reopen(side)),
                _ => Err(LineFault::Key),
            },
            (DuplexStart::Acts(side), 3) => read_message(side, words.get(1), words.get(2)),
            (DuplexStart::Delivery, 3) => read_delivery(words.get(1), words.get(2)),
            _ => Err(LineFault::Key),
        }
    }
}
