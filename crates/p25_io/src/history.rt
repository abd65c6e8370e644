//! A history that exists only in proofs: a list of events to which calls append.

// The events of a port. They exist only in proofs.
ghost use Rattle.std.specs.Prelude.{◌≡◌, List, [], ◌∷◌, ◌++◌};
ghost use base.Fml.{ftrue};
ghost use Rattle.p25_io.specs.{Events.{Event}, Histories.{events_code}};

use std::marker::Model;

// The events so far.
#[derive(Debug, Drop)]
pub(crate) struct History {
    pub ghost events: { List Event } by { events_code },
}

impl Model for History {
    ghost also_owns = { λ _. ftrue };
}

// A call that was made: a read that returned these octets, a read that failed, a write of this chunk, or a write that
// failed after this number of its octets.
#[derive(Clone, Copy, Drop)]
pub(crate) enum Note<'a> {
    Read(&'a [u8]),
    ReadFailed,
    Wrote(&'a [u8]),
    WriteFailed(&'a [u8], usize),
}

impl History {
    ghost use Rattle.p25_io.specs.Notes.{noted_event};

    pub(crate) fn new() -> History
        ensures { result.events ≡ [] }
    {
        History {}
    }

    // Returns the events so far and this call.
    pub(crate) fn then(&self, _note: &Note<'_>) -> History
        ensures { result.events ≡ self.now.events ++ noted_event _note.now ∷ [] }
    {
        History {}
    }
}
