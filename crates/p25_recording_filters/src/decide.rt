//! The work of `decide` on a soft recording: its bits, followed, with the coded fields of data units decoded from its
//! levels.

ghost use Rattle.std.specs.Prelude.{◌≡◌, ◌≢◌, [], length};
ghost use Rattle.p25_stream.specs.Scan.{given};
ghost use Rattle.p25_recording_filters.specs.{declared.recording.Phase.TheVariants.{Ended}, Decides.{PutDecided, PutLast, fresh_decide}};

#[cfg(test)]
mod tests;

use crate::hearing::{fill, hear_some};
use crate::held_levels::HeldLevels;
use crate::recording::Phase;
use crate::reports::{put_behind, put_item};
use p25_bits::BitBuf;
use p25_decide::Decider;
use p25_filter::{Ending, Filter, Refusal};
use p25_line::Line;
use p25_stream::laws::item_laws;
use p25_stream::{Item, Scanner};
use std::marker::Model;

/// The work on a soft recording: a filter that returns the bits that `follow` returns for its bits, with the coded fields
/// of voice data units, and failing blocks of packets (PDU), decoded from the levels. At most seven bits that do not fill
/// an octet are kept back.
#[derive(Drop)]
pub struct Decide {
    scanner: Scanner,
    decider: Decider,
    levels: HeldLevels,
    // The position of the scanner: the end of the last item.
    place: u64,
    kept: BitBuf,
    phase: Phase,
    // The last item, its bits, and the buffer for the bits before them. Their contents between items have no meaning.
    item: Item,
    raw: BitBuf,
    room: BitBuf,
}

impl Model for Decide {
    ghost use Rattle.std.specs.Prelude.{◌≡◌, ◌<◌, length};
    ghost use Rattle.p25_recording_filters.specs.{Decides.{DecideParts, IsDeciding}, Recordings.{HasClosed, has_ended}};

    ghost Value = { DecideParts };

    ghost view = { λ s. record { scan = s.scanner; follow = s.decider; levels = s.levels; kept = s.kept; phase = s.phase } };

    ghost invariant = { λ s. IsDeciding s.scanner s.decider s.levels
        × (length s.kept < 8)
        × (s.place ≡ s.scanner.place)
        × (s.scanner.finished ≡ has_ended s.phase)
        × HasClosed s.phase s.scanner };
}

impl Decide {
    /// Returns the work before the first octet.
    pub fn new() -> Decide
        ensures { result ≡ fresh_decide }
    {
        Decide {
            scanner: Scanner::new(),
            decider: Decider::new(),
            levels: HeldLevels::new(),
            place: 0,
            kept: BitBuf::new(),
            phase: Phase::Reading,
            item: Item::empty(),
            raw: BitBuf::new(),
            room: BitBuf::new(),
        }
    }

    // Writes to `out` the octets that the bits of the next item, and those that it settles before it, fill after those
    // kept back. It requires that there is such an item. Drops the levels before the group of the first bit that is not
    // written.
    fn put_next(&mut self, out: &mut Line)
        requires { given self.old.scan ≢ [] }
        ensures { PutDecided self.old out.new self.new }
    {
        if !self.scanner.next_in(&mut self.raw, &mut self.item) {
            unreachable!();
        }
        let start = self.place - self.decider.kept() as u64;
        self.decider.take(
            &self.item,
            &mut self.raw,
            (start % 8) as usize,
            self.levels.groups(),
            &mut self.room,
        );
        put_item(&self.item, &self.room, &self.raw, &mut self.kept, out);
        self.place += self.item.covered();
        let next = self.place - self.decider.kept() as u64;
        self.levels
            .drop_front((4 * (next / 8) - 4 * (start / 8)) as usize);
    }

    // Writes to `out` the octets that the bits that are left at the end fill after those kept back.
    fn put_last(&mut self, out: &mut Line)
        requires drained { given self.old.scan ≡ [] }
        requires ended { self.old.phase ≡ Ended }
        ensures { PutLast self.old out.new self.new }
    {
        let start = self.place - self.decider.kept() as u64;
        self.decider
            .finish((start % 8) as usize, self.levels.groups(), &mut self.room);
        put_behind(&mut self.kept, &self.room, out);
        self.phase = Phase::Closed;
    }
}

impl Filter for Decide {
    ghost use Rattle.std.specs.Prelude.{◌≡◌, ◌≢◌, ◌+◌, [], length};
    ghost use Rattle.p25_stream.specs.Scan.{given};
    ghost use Rattle.p25_recording_filters.specs.{declared.recording.Phase.TheVariants.{Ended}, Recordings.{has_ended, pieces_of}};
    ghost use Rattle.p25_recording_filters.specs.Decides.{decide_future, first_held};

    ghost future = { decide_future };

    ghost is_finished = { λ s. has_ended s.phase };

    ghost IsDrained = { λ s. (given s.scan ≡ []) × (s.phase ≢ Ended) };

    ghost pieces_left = { λ s. length s.scan.held + pieces_of s.phase };

    ghost size = { λ s. first_held s.scan.place s.follow + length s.levels };

    fn push_some(&mut self, octets: &[u8]) -> usize {
        // For the prover: 25,920 bits decide an item, so the scanner holds fewer.
        item_laws();
        let _ = self.decider.kept();
        hear_some(&mut self.levels, octets, &mut self.scanner)
    }

    fn finish(&mut self) {
        // For the prover: 25,920 bits decide an item, so the scanner holds fewer.
        item_laws();
        let _ = self.decider.kept();
        fill(&mut self.levels, &mut self.scanner);
        self.scanner.finish();
        self.phase = Phase::Ended;
    }

    fn next(&mut self, out: &mut Line) -> Result<bool, Refusal> {
        if !self.scanner.is_drained() {
            // For the prover: items lie end to end.
            item_laws();
            self.put_next(out);
            return Ok(true);
        }
        match self.phase {
            Phase::Ended => {
                self.put_last(out);
                Ok(true)
            }
            _ => Ok(false),
        }
    }

    fn ending(&self) -> Ending {
        Ending::Done
    }
}
