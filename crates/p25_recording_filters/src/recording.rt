//! The work of a command on a recording: its items, as they are decided, and the output of a report for them.

ghost use Rattle.std.specs.Prelude.{◌≡◌, []};
ghost use Rattle.p25_stream.specs.Scan.{given};
ghost use Rattle.p25_recording_filters.specs.Recordings.{fresh, IsClosing};

use crate::report::Report;
use p25_bits::BitBuf;
use p25_filter::{Ending, Filter, Refusal};
use p25_line::Line;
use p25_stream::Scanner;
use p25_stream::laws::item_laws;
use p25_units::Item;
use std::marker::Model;

// The state of the work.
#[derive(Clone, Copy, Debug, PartialEq, Eq)]
pub(crate) enum Phase {
    // More octets may come.
    Reading,
    // The input has ended.
    Ended,
    // The output at the end was returned.
    Closed,
}

/// A running report on a recording: a filter that scans the octets pushed to it and returns the output of the report.
#[derive(Drop)]
pub struct Recording<R: Report> {
    report: R,
    scanner: Scanner,
    // The last item, and its bits if the report uses them.
    item: Item,
    raw: BitBuf,
    phase: Phase,
}

impl<R: Report> Model for Recording<R> {
    ghost use Rattle.std.specs.Prelude.{◌≡◌, ◌+◌, ◌^◌, ◌<◌, ◌≤◌, length};
    ghost use Rattle.p25_recording_filters.specs.Recordings.{HasClosed, RecordingParts, has_ended};

    ghost Value = { RecordingParts R };

    ghost view = { λ s. record { report = s.report; scan = s.scanner; phase = s.phase } };

    ghost invariant = { λ s. (s.scanner.finished ≡ has_ended s.phase)
        × (R.counted s.report ≤ s.scanner.place)
        × (s.scanner.place + length s.scanner.held < 2 ^ 29)
        × HasClosed s.phase s.scanner
        × R.HasReached s.report s.scanner.place };
}

impl<R: Report> Recording<R> {
    /// Returns a report before the first octet, with all counts 0.
    pub fn new(report: R) -> Recording<R>
        requires counted { R.counted report ≡ 0 }
        requires reached { R.HasReached report 0 }
        ensures { result ≡ fresh report }
    {
        Recording {
            report,
            scanner: Scanner::new(),
            item: Item::empty(),
            raw: BitBuf::new(),
            phase: Phase::Reading,
        }
    }

    // Writes to `out` the output at the end of the input, once it has ended, and returns whether it did.
    fn close(&mut self, out: &mut Line) -> bool
        requires { given self.old.scan ≡ [] }
        ensures { IsClosing R.reporting self.old result out.new self.new }
    {
        match self.phase {
            Phase::Ended => {
                self.report.close(out);
                self.phase = Phase::Closed;
                true
            }
            Phase::Reading | Phase::Closed => false,
        }
    }
}

impl<R: Report> Filter for Recording<R> {
    ghost use Rattle.std.specs.Prelude.{◌≡◌, ◌≢◌, ◌+◌, [], length};
    ghost use Rattle.p25_stream.specs.Scan.{given};
    ghost use Rattle.p25_recording_filters.specs.{declared.recording.Phase.TheVariants.{Ended}, Recordings.{has_ended, pieces_of, recording_future}};

    ghost future = { recording_future R.reporting };

    ghost is_finished = { λ s. has_ended s.phase };

    ghost IsDrained = { λ s. (given s.scan ≡ []) × (s.phase ≢ Ended) };

    ghost pieces_left = { λ s. length s.scan.held + pieces_of s.phase };

    ghost size = { λ s. s.scan.place + length s.scan.held };

    fn push_some(&mut self, octets: &[u8]) -> usize {
        self.scanner.push_some(octets)
    }

    fn finish(&mut self) {
        self.scanner.finish();
        self.phase = Phase::Ended;
    }

    fn next(&mut self, out: &mut Line) -> Result<bool, Refusal> {
        // Usually no item is decided; then no buffer is made for one.
        if self.scanner.is_drained() {
            return Ok(self.close(out));
        }
        // For the prover: items lie end to end.
        item_laws();
        // Bits that nobody uses are not copied.
        let taken = if R::LOOKS_AT_BITS {
            self.scanner.next_in(&mut self.raw, &mut self.item)
        } else {
            self.scanner.next_item_in(&mut self.item)
        };
        if !taken {
            unreachable!();
        }
        self.report.put(&self.item, &mut self.raw, out);
        Ok(true)
    }

    fn ending(&self) -> Ending {
        self.report.ending()
    }
}
