//! The words of script lines.

ghost use Rattle.std.specs.Prelude.{◌≡◌, ◌≤◌, length};
ghost use Rattle.p25_script.specs.Script.{event_named, event_word, way_named, way_word, word_count};

use p25_stations::Way;

/// A type of script line.
#[derive(Clone, Copy)]
pub enum EventKind {
    /// A message is offered.
    Send,
    /// A timeout.
    Timeout,
    /// The session is to be reopened.
    Reopen,
    /// The newest transmission of one direction is delivered.
    Deliver,
}

// All types.
const KINDS: [EventKind; 4] = [
    EventKind::Send,
    EventKind::Timeout,
    EventKind::Reopen,
    EventKind::Deliver,
];

impl EventKind {
    /// Returns the type that a word names. `None` is returned if and only if it names none.
    pub fn named(word: &[u8]) -> Option<EventKind>
        ensures { result ≡ event_named word.now }
    {
        KINDS.iter().copied().find(|kind| word == kind.word())
    }

    /// Returns the word that begins a line of this type.
    pub fn word(self) -> &'static [u8]
        ensures { result.now ≡ event_word self }
    {
        match self {
            EventKind::Send => b"send",
            EventKind::Timeout => b"timeout",
            EventKind::Reopen => b"reopen",
            EventKind::Deliver => b"deliver",
        }
    }

    /// Returns the number of words of a line of this type.
    pub fn words(self) -> usize
        ensures count { result ≡ word_count self }
        ensures few { result ≤ 3 }
    {
        match self {
            EventKind::Send => 2,
            EventKind::Timeout | EventKind::Reopen => 1,
            EventKind::Deliver => 3,
        }
    }
}

/// Returns the direction that a word of a line names. `None` is returned if and only if it names none.
pub fn named_way(word: &[u8]) -> Option<Way>
    ensures { result ≡ way_named word.now }
{
    let ways = [Way::Packets, Way::Answers];
    ways.iter().copied().find(|way| word == word_of_way(*way))
}

/// Returns the word that names a direction.
pub fn word_of_way(way: Way) -> &'static [u8]
    ensures word { result.now ≡ way_word way }
    ensures short { length result.now ≤ 6 }
{
    match way {
        Way::Packets => b"data",
        Way::Answers => b"answer",
    }
}
