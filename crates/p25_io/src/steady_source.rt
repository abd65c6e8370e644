//! A source over octets in memory that never fails.
ghost use Rattle.std.specs.Prelude.{◌≡◌, ◌<◌, ◌++◌, length, take, drop, min, Some, IfOk, OnErr};
ghost use Rattle.p25_io.specs.{Faults.{HasCause}, Octets.{Gives, Kept}};

use crate::{Failed, Source};
use std::marker::Model;

/// A source over octets in memory that never fails. Its count of faults is 0.
///
/// Contracts see it as a `SteadySupply`: the octets left, and the most that a read returns.
#[derive(Debug, Drop)]
pub struct SteadySource<'a> {
    rest: &'a [u8],
    piece: usize,
}

impl<'a> Model for SteadySource<'a> {
    ghost use Rattle.std.specs.Prelude.{◌<◌};
    ghost use Rattle.p25_io.specs.SteadySource.{SteadySupply};

    ghost Value = { SteadySupply };

    ghost view = { λ s. record { left = s.rest.now; piece = s.piece } };

    ghost invariant = { λ s. 0 < s.piece };
}

impl<'a> SteadySource<'a> {
    /// Returns a source of these octets, which returns at most `piece` of them in a read. It requires `piece` above 0.
    pub fn new(octets: &'a [u8], piece: usize) -> SteadySource<'a>
        requires { 0 < piece }
        ensures { result ≡ record { left = octets.now; piece = piece } }
    {
        SteadySource {
            rest: octets,
            piece,
        }
    }

    /// Returns the octets that are left to be read.
    pub fn rest(&self) -> &[u8]
        ensures { result.now ≡ self.now.left }
    {
        self.rest
    }
}

impl Source for SteadySource<'_> {
    ghost left = { λ s. Some s.left };

    ghost faults = { λ s. 0 };

    /// Reads as many octets as `piece`, `buf` and the octets left allow.
    fn read(&mut self, buf: &mut [u8]) -> Result<usize, Failed>
        requires { 0 < length buf.old }
        ensures given { IfOk result (Gives (Some self.old.left) (Some self.new.left) buf.new) }
        ensures kept { OnErr result (Kept (Some self.old.left) (Some self.new.left)) }
        ensures cause { HasCause 0 0 result }
        ensures room { length buf.new ≡ length buf.old }

        // The number of octets that each call returns.
        ensures count { result ≡ Ok (min (min self.old.piece (length buf.old)) (length self.old.left)) }
        ensures copied { IfOk result (λ count. buf.new ≡ take count self.old.left ++ drop count buf.old) }
        ensures same { self.new.piece ≡ self.old.piece }
    {
        let count = self.piece.min(buf.len()).min(self.rest.len());
        buf[..count].copy_from_slice(&self.rest[..count]);
        self.rest = &self.rest[count..];
        Ok(count)
    }
}
