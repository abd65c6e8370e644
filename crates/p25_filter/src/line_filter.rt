//! The work of a command on the lines of its input.

ghost use Rattle.std.specs.Prelude.{◌≡◌, ◌+◌, ◌^◌, ◌<◌, ◌≤◌, ◌++◌, [], Ok, drop, false, length, take, true};
ghost use Rattle.p25_filter.specs.{Futures.{NextPiece}, LineFilters.{first_line, is_ended_phase, line_future, lines_ready, texts_of, IsLineReady}};

use super::ending::{Ending, Refusal};
use super::filter::Filter;
use super::line_machine::{LineMachine, LineRefusal};
use super::text::Text;
use arrayvec::ArrayVec;
use p25_line::{LINE_MOST, Line};
use std::marker::Model;

// The most octets that are kept of a line. They suffice to refuse a longer one.
const KEPT_MOST: usize = 8_193;

// The state of the work.
#[derive(Clone, Copy, Debug, PartialEq, Eq)]
pub(crate) enum LinePhase {
    // A line has begun, or none; more octets may come.
    Reading,
    // A line is ready to be taken; more octets may come.
    Ready,
    // The last line is ready to be taken.
    ReadyLast,
    // The input has ended, and all lines were taken.
    Closing,
    // The output at the end was returned.
    Closed,
}

/// A command that takes the lines of its input one after the other. Each line ends with an LF, and octets after the last LF
/// are a last line. The first line that is refused ends the call, with its number, counted from 1.
#[derive(Drop)]
pub struct LineFilter<M: LineMachine> {
    machine: M,
    line: ArrayVec<u8, 8_193>,
    lines: u64,
    // The text for the last line, and the number of its octets that were returned.
    text: Text,
    given: usize,
    phase: LinePhase,
}

impl<M: LineMachine> Model for LineFilter<M> {
    ghost use Rattle.std.specs.Prelude.{◌+◌, ◌^◌, ◌≤◌, drop, length};
    ghost use Rattle.p25_filter.specs.LineFilters.{LineFiltering, lines_ready};

    ghost Value = { LineFiltering M };

    ghost view = { λ s. record { machine = s.machine; line = s.line.items; lines = s.lines; left = drop s.given s.text; phase = s.phase } };

    ghost invariant = { λ s. (s.lines + lines_ready s.phase ≤ 2 ^ 28) × (s.given ≤ length s.text) };
}

impl<M: LineMachine> LineFilter<M> {
    /// Returns the work of a machine before the first octet.
    pub fn new(machine: M) -> LineFilter<M>
        ensures { result ≡ first_line machine }
    {
        LineFilter {
            machine,
            line: ArrayVec::new(),
            lines: 0,
            text: Text::new(),
            given: 0,
            phase: LinePhase::Reading,
        }
    }

    // Keeps octets of the line that has begun, as many as are kept of a line, and changes to a phase.
    fn keep(&mut self, octets: &[u8], phase: LinePhase)
        requires { self.old.lines + lines_ready phase ≤ 2 ^ 28 }
        ensures { self.new ≡ record self.old { line = take 8193 (self.old.line ++ octets.now); phase = phase } }
    {
        let fits = octets.len().min(KEPT_MOST - self.line.len());
        self.line.try_extend_from_slice(&octets[..fits]).unwrap();
        self.phase = phase;
    }

    // Passes the line that is ready to the machine, keeps the text for it and changes to a phase, or returns the reason
    // why the line was not taken.
    fn take_line(&mut self, phase: LinePhase) -> Result<bool, Refusal>
        requires ready { lines_ready self.old.phase ≡ 1 }
        requires taken { lines_ready phase ≡ 0 }
        requires none { self.old.left ≡ [] }
        ensures { IsLineReady M.rules phase self.old result self.new }
    {
        self.text.clear();
        self.given = 0;
        match self.machine.take(self.line.as_slice(), &mut self.text) {
            Ok(()) => {
                self.line.clear();
                self.lines += 1;
                self.phase = phase;
                Ok(true)
            }
            Err(LineRefusal::Fault(fault)) => Err(Refusal::Ended(Ending::BadLine {
                line: self.lines + 1,
                fault,
            })),
            Err(LineRefusal::Memory) => Err(Refusal::Memory),
        }
    }

    // Prepares the next text, and returns whether there is one.
    fn ready(&mut self) -> Result<bool, Refusal>
        requires none { self.old.left ≡ [] }
        ensures piece { NextPiece (line_future M.rules self.old) result [] (line_future M.rules self.new) }
        ensures none { result ≡ Ok false → (self.new ≡ self.old) × (self.new.left ≡ []) × (texts_of self.new.phase ≡ 0) }
        ensures smaller { result ≡ Ok true → texts_of self.new.phase < texts_of self.old.phase }
        ensures same { is_ended_phase self.new.phase ≡ is_ended_phase self.old.phase }
        ensures size { self.new.lines + lines_ready self.new.phase ≤ self.old.lines + lines_ready self.old.phase }
    {
        match self.phase {
            LinePhase::Reading | LinePhase::Closed => Ok(false),
            LinePhase::Ready => self.take_line(LinePhase::Reading),
            LinePhase::ReadyLast => self.take_line(LinePhase::Closing),
            LinePhase::Closing => {
                self.text.clear();
                self.given = 0;
                self.machine.close(&mut self.text);
                self.phase = LinePhase::Closed;
                Ok(true)
            }
        }
    }

    // Returns the rest of the text.
    fn rest(&self) -> &[u8]
        ensures list { result.now ≡ self.now.left }
        ensures most { length result.now ≤ 16384 }
    {
        &self.text.octets()[self.given..]
    }

    // Writes to `out` the rest of the text, or as much of it as a line has capacity for.
    fn give(&mut self, out: &mut Line)
        ensures out { out.new ≡ take 8192 self.old.left }
        ensures left { self.new ≡ record self.old { left = drop (length out.new) self.old.left } }
        ensures most { length self.old.left ≤ 16384 }
    {
        // For the prover: a text has at most 16,384 octets.
        let _ = self.text.octets();
        let rest = self.rest();
        let count = rest.len().min(LINE_MOST);
        out.clear();
        out.put(&rest[..count]);
        self.given += count;
    }
}

impl<M: LineMachine> Filter for LineFilter<M> {
    ghost use Rattle.std.specs.Prelude.{◌≡◌, ◌+◌, ◌*◌, [], length};
    ghost use Rattle.p25_filter.specs.LineFilters.{line_future, is_ended_phase, lines_ready, texts_of};

    ghost future = { line_future M.rules };

    ghost is_finished = { λ s. is_ended_phase s.phase };

    ghost IsDrained = { λ s. (texts_of s.phase ≡ 0) × (s.left ≡ []) };

    // A text that is returned in chunks of at least one octet has at most as many chunks as octets; and one may be
    // empty.
    ghost pieces_left = { λ s. 16385 * texts_of s.phase + length s.left };

    ghost size = { λ s. s.lines + lines_ready s.phase };

    fn push_some(&mut self, octets: &[u8]) -> usize {
        // The octets before the first LF, or all of them if there is none.
        let count = octets
            .iter()
            .position(|octet| *octet == b'\n')
            .unwrap_or(octets.len());
        if count == octets.len() {
            self.keep(&octets[..count], LinePhase::Reading);
            return count;
        }
        self.keep(&octets[..count], LinePhase::Ready);
        count + 1
    }

    fn finish(&mut self) {
        if self.line.len() == 0 {
            self.phase = LinePhase::Closing;
            return;
        }
        self.phase = LinePhase::ReadyLast;
    }

    fn next(&mut self, out: &mut Line) -> Result<bool, Refusal> {
        if self.given < self.text.octets().len() {
            self.give(out);
            return Ok(true);
        }
        match self.ready() {
            Ok(true) => {
                self.give(out);
                Ok(true)
            }
            Ok(false) => Ok(false),
            Err(refusal) => Err(refusal),
        }
    }

    fn ending(&self) -> Ending {
        Ending::Done
    }
}
