//! Pseudorandom numbers, the same on every run.

ghost use Rattle.std.specs.Prelude.{◌≡◌, ◌%◌, ◌<◌, length};
ghost use Rattle.p25_vectors.specs.Draws.{draw, octets_drawn, state_after};

use std::marker::Model;

// Draws, one after the other. Contracts see the state before the next one.
#[derive(Clone, Debug, Drop)]
pub(crate) struct Draws {
    state: u64,
}

impl Model for Draws {
    ghost use Rattle.std.specs.Prelude.{ℕ, ◌<◌, ◌^◌};

    ghost Value = { ℕ };

    ghost view = { λ draws. draws.state };

    ghost invariant = { λ draws. draws.state < 2 ^ 32 };
}

impl Draws {
    // Returns the state before the first draw.
    pub(crate) fn new() -> Draws
        ensures { result ≡ 0 }
    {
        Draws { state: 0 }
    }

    // Draws a number and returns it modulo another.
    pub(crate) fn below(&mut self, modulus: u64) -> u64
        requires { 0 < modulus }
        ensures value { result ≡ draw 0 self.old % modulus }
        ensures below { result < modulus }
        ensures state { self.new ≡ state_after 1 self.old }
    {
        self.state = (1_664_525 * self.state + 1_013_904_223) % 0x1_0000_0000;
        self.state / 65_536 % modulus
    }

    // Draws an octet.
    pub(crate) fn octet(&mut self) -> u8
        ensures value { result ≡ draw 0 self.old % 256 }
        ensures state { self.new ≡ state_after 1 self.old }
    {
        self.below(256) as u8
    }

    // Draws as many octets as an array has.
    pub(crate) fn octets<const N: usize>(&mut self) -> [u8; N]
        ensures octets { result ≡ octets_drawn N self.old }
        ensures len { length result ≡ N }
        ensures state { self.new ≡ state_after N self.old }
    {
        let mut octets = [0; N];
        for i in 0..N {
            octets[i] = self.octet();
        }
        octets
    }
}
