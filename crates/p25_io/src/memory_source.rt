//! A source over octets in memory, in which chosen calls fail.
ghost use Rattle.std.specs.Prelude.{◌≡◌, ◌<◌, ◌↔◌, ◌++◌, length, take, drop, min, Some, Contains, IsErr, IfOk, OnErr};
ghost use Rattle.p25_io.specs.{Faults.{counted, faults_after, HasCause}, Octets.{Gives, Kept}};

use crate::{Failed, Source};
use std::marker::Model;

/// A source over octets in memory, in which chosen calls fail. It serves to test a user of a source at each of its
/// faults.
///
/// Contracts see it as a `Supply`: the octets left, the most that a read returns, the numbers of the calls that fail,
/// the calls made and the faults. Calls are counted from 1; both counts saturate at 2^64 - 1.
#[derive(Debug, Drop)]
pub struct MemorySource<'a> {
    rest: &'a [u8],
    piece: usize,
    fails: &'a [u64],
    calls: u64,
    faults: u64,
}

impl<'a> Model for MemorySource<'a> {
    ghost use Rattle.std.specs.Prelude.{◌<◌};
    ghost use Rattle.p25_io.specs.MemorySource.{Supply};

    ghost Value = { Supply };

    ghost view = { λ s. record { left = s.rest.now; piece = s.piece; fails = s.fails.now; calls = s.calls; faults = s.faults } };

    ghost invariant = { λ s. 0 < s.piece };
}

impl<'a> MemorySource<'a> {
    /// Returns a source of these octets, which returns at most `piece` of them in a read, and fails at the calls
    /// numbered in `fails`, counted from 1. It requires `piece` above 0.
    pub fn new(octets: &'a [u8], piece: usize, fails: &'a [u64]) -> MemorySource<'a>
        requires { 0 < piece }
        ensures { result ≡ record { left = octets.now; piece = piece; fails = fails.now; calls = 0; faults = 0 } }
    {
        MemorySource {
            rest: octets,
            piece,
            fails,
            calls: 0,
            faults: 0,
        }
    }

    /// Returns the octets that are left to be read.
    pub fn rest(&self) -> &[u8]
        ensures { result.now ≡ self.now.left }
    {
        self.rest
    }
}

impl Source for MemorySource<'_> {
    ghost left = { λ s. Some s.left };

    ghost faults = { λ s. s.faults };

    /// Reads as many octets as `piece`, `buf` and the octets left allow, and fails if and only if the call is numbered
    /// in `fails`.
    fn read(&mut self, buf: &mut [u8]) -> Result<usize, Failed>
        requires { 0 < length buf.old }
        ensures given { IfOk result (Gives (Some self.old.left) (Some self.new.left) buf.new) }
        ensures kept { OnErr result (Kept (Some self.old.left) (Some self.new.left)) }
        ensures cause { HasCause self.old.faults self.new.faults result }
        ensures room { length buf.new ≡ length buf.old }

        // The calls that fail, the number of octets that the others return, and what is unchanged.
        ensures fails { IsErr result ↔ Contains self.old.fails (counted self.old.calls) }
        ensures count { IfOk result (λ count. count ≡ min (min self.old.piece (length buf.old)) (length self.old.left)) }
        ensures copied { IfOk result (λ count. buf.new ≡ take count self.old.left ++ drop count buf.old) }
        ensures untouched { OnErr result (buf.new ≡ buf.old) }
        ensures after { self.new ≡ record self.old { left = self.new.left; calls = counted self.old.calls; faults = faults_after result self.old.faults } }
    {
        let number = self.calls.saturating_add(1);
        self.calls = number;
        if self.fails.contains(&number) {
            self.faults = self.faults.saturating_add(1);
            return Err(Failed);
        }
        let count = self.piece.min(buf.len()).min(self.rest.len());
        buf[..count].copy_from_slice(&self.rest[..count]);
        self.rest = &self.rest[count..];
        Ok(count)
    }
}
