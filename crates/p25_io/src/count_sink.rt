//! A sink that keeps a number of octets, and no octet.
ghost use Rattle.std.specs.Prelude.{◌≡◌, ◌+◌, ◌-◌, ◌^◌, length, min, None, IsOk, OnOk, OnErr};
ghost use Rattle.p25_io.specs.{Faults.{HasCause}, Octets.{Appended, AppendedBeginning}};

use crate::{Failed, Sink};
use std::marker::Model;

/// A sink that counts the octets written to it, exposes none of them, and never fails. Its count of faults is 0.
///
/// Contracts see it as the number of octets, which saturates at 2^64 - 1.
#[derive(Clone, Debug, Default, Drop, PartialEq, Eq)]
pub struct CountSink {
    octets: u64,
}

impl Model for CountSink {
    ghost use Rattle.std.specs.Prelude.{ℕ};

    ghost Value = { ℕ };

    ghost view = { λ s. s.octets };

    ghost inverse = { λ octets. record { octets = octets } };
}

impl CountSink {
    /// Returns a sink to which nothing has been written.
    pub fn new() -> CountSink
        ensures { result ≡ 0 }
    {
        CountSink { octets: 0 }
    }

    /// Returns the number of octets written, or 2^64 - 1 if there are more.
    pub fn octets(&self) -> u64
        ensures { result ≡ self.now }
    {
        self.octets
    }
}

impl Sink for CountSink {
    ghost written = { λ s. None };

    ghost faults = { λ s. 0 };

    /// Adds the number of octets of the chunk.
    fn write(&mut self, piece: &[u8]) -> Result<(), Failed>
        ensures ok { OnOk result (Appended None piece.now None) }
        ensures err { OnErr result (AppendedBeginning None piece.now None) }
        ensures cause { HasCause 0 0 result }

        // The call never fails, and it counts.
        ensures never { IsOk result }
        ensures count { self.new ≡ min (self.old + length piece.now) (2 ^ 64 - 1) }
    {
        self.octets = self.octets.saturating_add(piece.len() as u64);
        Ok(())
    }
}
