//! A sink into borrowed memory, in which chosen calls fail.
ghost use Rattle.std.specs.Prelude.{◌≡◌, ◌+◌, ◌-◌, ◌<◌, ◌≤◌, ◌⊎◌, ◌↔◌, ◌++◌, [], length, take, Some, Contains, IsErr, OnOk, OnErr};
ghost use Rattle.p25_io.specs.{Faults.{counted, faults_after, HasCause}, Octets.{Appended, AppendedBeginning}};

use crate::{Failed, Sink};
use std::marker::Model;

/// A sink into borrowed memory, in which chosen calls fail.
///
/// Contracts see it as a `Storage`: the octets written, how many more fit, the numbers of the calls that fail, the
/// calls made and the faults. Calls are counted from 1; both counts saturate at 2^64 - 1.
#[derive(Debug, Drop)]
pub struct SliceSink<'a> {
    room: &'a mut [u8],
    len: usize,
    fails: &'a [u64],
    calls: u64,
    faults: u64,
}

impl<'a> Model for SliceSink<'a> {
    ghost use Rattle.std.specs.Prelude.{◌≤◌, ◌-◌, length, take};
    ghost use Rattle.p25_io.specs.SliceSink.{Storage};

    ghost Value = { Storage };

    ghost view = { λ s. record { written = take s.len s.room.now; room = length s.room.now - s.len; fails = s.fails.now; calls = s.calls; faults = s.faults } };

    ghost invariant = { λ s. s.len ≤ length s.room.now };
}

impl<'a> SliceSink<'a> {
    /// Returns a sink that writes into the buffer `room` from its first octet on, and fails at the calls numbered in
    /// `fails`, counted from 1.
    pub fn new(room: &'a mut [u8], fails: &'a [u64]) -> SliceSink<'a>
        ensures { result ≡ record { written = []; room = length room.old; fails = fails.now; calls = 0; faults = 0 } }
    {
        SliceSink {
            room,
            len: 0,
            fails,
            calls: 0,
            faults: 0,
        }
    }

    /// Returns the octets that were written.
    pub fn written(&self) -> &[u8]
        ensures { result.now ≡ self.now.written }
    {
        &self.room[..self.len]
    }
}

impl Sink for SliceSink<'_> {
    ghost written = { λ s. Some s.written };

    ghost faults = { λ s. s.faults };

    /// Appends the whole chunk. The call fails if and only if it is numbered in `fails` or the chunk does not fit. A
    /// numbered call appends nothing; otherwise as much of the chunk as fits is appended.
    fn write(&mut self, piece: &[u8]) -> Result<(), Failed>
        ensures ok { OnOk result (Appended (Some self.old.written) piece.now (Some self.new.written)) }
        ensures err { OnErr result (AppendedBeginning (Some self.old.written) piece.now (Some self.new.written)) }
        ensures cause { HasCause self.old.faults self.new.faults result }

        // The calls that fail, the number of octets that they write, and what is unchanged.
        ensures fails { IsErr result ↔ (Contains self.old.fails (counted self.old.calls) ⊎ (self.old.room < length piece.now)) }
        ensures numbered { Contains self.old.fails (counted self.old.calls) → self.new.written ≡ self.old.written }
        ensures others { ¬ Contains self.old.fails (counted self.old.calls) → self.new.written ≡ self.old.written ++ take self.old.room piece.now }
        ensures room { self.new.room + length self.new.written ≡ self.old.room + length self.old.written }
        ensures after { self.new
            ≡ record self.old {
              written = self.new.written;
              room = self.new.room;
              calls = counted self.old.calls;
              faults = faults_after result self.old.faults;
            } }
    {
        let number = self.calls.saturating_add(1);
        self.calls = number;
        if self.fails.contains(&number) {
            self.faults = self.faults.saturating_add(1);
            return Err(Failed);
        }
        let count = piece.len().min(self.room.len() - self.len);
        self.room[self.len..self.len + count].copy_from_slice(&piece[..count]);
        self.len += count;
        if count < piece.len() {
            self.faults = self.faults.saturating_add(1);
            return Err(Failed);
        }
        Ok(())
    }
}
