//! Events read from lines.

ghost use Rattle.std.specs.Prelude.{◌≡◌, ◌↔◌, ◌<◌, ◌≤◌, IfOk, Err, length, drop};
ghost use Rattle.p25_line.specs.{LineReadings.{keyed_or_fault}, declared.fault.LineFault.TheVariants.{Long}};
ghost use Rattle.p25_stations.specs.declared.step.Event.{Event as event_type};
ghost use Rattle.p25_script.specs.{Script.{IsScripted, delivery, event_by_words, event_in, event_of, event_text, way_named, word_count}, Values.{places_in}};
ghost use Rattle.p25_script.specs.ScriptReadLaws.{event_not_long};

use super::names::{EventKind, named_way};
use super::shown::{EventLine, ScriptEvent};
use super::values::{message_value, places_value};
use p25_line::{LineFault, LineWords, read_whole};
use p25_stations::{Event, Way};

/// Returns the event whose line this is. Each line that is accepted is the line of its event, and the line of each
/// event is accepted if it is not too long. The error is the first of these reasons that applies:
///
/// - `Long`: the line has more than 8,192 octets.
/// - `Form`: it is not one or more words of octets 21 to 7E hex with single spaces between them.
/// - `Kind`: the first word is none of `send`, `timeout`, `reopen` and `deliver`.
/// - `Key`: the number of words does not fit, or the second word of `deliver` is neither `data` nor `answer`.
/// - `Value`: the message or the positions do not have their form.
pub fn read_event(line: &[u8]) -> Result<Event, LineFault>
    ensures event { result ≡ event_of line.now }
    ensures long { (result ≡ Err Long) ↔ (8192 < length line.now) }
    ensures text { IfOk result (λ event. event_text event ≡ line.now) }
    ensures fits { IfOk result (λ event. IsScripted event) }
    ensures each { (event : event_type) → IsScripted event → length line.now ≤ 8192 → event_text event ≡ line.now → result ≡ Ok event }
{
    read_whole::<EventLine>(line)
}

// Returns the event of a line of a type. It requires as many words as that type has.
fn read_kind(kind: EventKind, words: &LineWords) -> Result<Event, LineFault>
    requires { length words.now ≡ word_count kind }
    ensures { result ≡ event_in kind (drop 1 words.now) }
{
    match kind {
        EventKind::Send => match message_value(words.get(1)) {
            Some(message) => Ok(Event::Send(message)),
            None => Err(LineFault::Value),
        },
        EventKind::Timeout => Ok(Event::Timeout),
        EventKind::Reopen => Ok(Event::Reopen),
        EventKind::Deliver => read_delivery(words.get(1), words.get(2)),
    }
}

// Returns the delivery of a direction and of positions.
fn read_delivery(way: &[u8], places: &[u8]) -> Result<Event, LineFault>
    requires { length places.now ≤ 8192 }
    ensures { result ≡ keyed_or_fault delivery (way_named way.now) (places_in places.now) }
{
    let Some(way) = named_way(way) else {
        return Err(LineFault::Key);
    };
    let Some(flips) = places_value(places) else {
        return Err(LineFault::Value);
    };
    match way {
        Way::Packets => Ok(Event::ToReceiver(flips)),
        Way::Answers => Ok(Event::ToSender(flips)),
    }
}

impl ScriptEvent for Event {
    ghost by_words = { event_by_words };

    ghost not_long = { event_not_long };

    #[inline(never)]
    fn read_words(words: &LineWords) -> Result<Event, LineFault> {
        let Some(kind) = EventKind::named(words.first()) else {
            return Err(LineFault::Kind);
        };
        if words.count() != kind.words() {
            return Err(LineFault::Key);
        }
        read_kind(kind, words)
    }
}
