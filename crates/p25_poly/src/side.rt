//! The sides of Euclid's algorithm.

ghost use Rattle.std.specs.Prelude.{◌≡◌, ◌≢◌, ℕ, ◌+◌, ◌<◌, ◌≤◌, length};

use crate::multiples::add_moved;
use p25_gf64::Sym;

/// A side: a remainder, the factor whose product with the series gives it, and a bound on the degree of the remainder.
/// Both are coefficients, lowest first, after 32 zeros, so a side moved up by some positions is a part of its list.
/// Each step goes over 16 positions of the factor and over 16 or 32 of the remainder. No others can be nonzero, and a
/// compiler makes a vector of 16.
#[derive(Clone, Copy, Debug)]
pub(crate) struct Side {
    pub(crate) rest: [Sym; 64],
    pub(crate) factor: [Sym; 64],
    pub(crate) degree: usize,
    pub ghost full_rest: { length rest ≡ 64 },
    pub ghost full_factor: { length factor ≡ 64 },
}

impl Side {
    ghost use Rattle.p25_gf64.specs.Gf64.{gf64};
    ghost use Rattle.p25_algebra.specs.Series.{coefficient};
    ghost use Rattle.p25_poly.specs.Euclid.{behind, IsReduced};

    /// Returns the power of x with the factor 0.
    pub(crate) fn power(exponent: usize) -> Side
        requires { exponent ≤ 22 }
        ensures at { behind result.rest exponent ≡ gf64.one }
        ensures others { (k : ℕ) → k ≢ 32 + exponent → coefficient gf64 result.rest k ≡ gf64.zero }
        ensures factor { (k : ℕ) → coefficient gf64 result.factor k ≡ gf64.zero }
        ensures degree { result.degree ≡ exponent }
    {
        let mut rest = [Sym::default(); 64];
        rest[32 + exponent] = Sym::ONE;
        Side {
            rest,
            factor: [Sym::default(); 64],
            degree: exponent,
        }
    }

    /// Returns the series with the factor 1.
    pub(crate) fn series(symbols: &[Sym]) -> Side
        requires some { 1 ≤ length symbols.now }
        requires few { length symbols.now ≤ 22 }
        ensures rest { (k : ℕ) → behind result.rest k ≡ coefficient gf64 symbols.now k }
        ensures front { (k : ℕ) → k < 32 → coefficient gf64 result.rest k ≡ gf64.zero }
        ensures at { behind result.factor 0 ≡ gf64.one }
        ensures others { (k : ℕ) → k ≢ 32 → coefficient gf64 result.factor k ≡ gf64.zero }
        ensures degree { result.degree + 1 ≡ length symbols.now }
    {
        let mut rest = [Sym::default(); 64];
        for i in 0..symbols.len() {
            rest[32 + i] = symbols[i];
        }
        let mut factor = [Sym::default(); 64];
        factor[32] = Sym::ONE;
        Side {
            rest,
            factor,
            degree: symbols.len() - 1,
        }
    }

    /// Returns the coefficient of the remainder at its degree.
    pub(crate) fn leading(&self) -> Sym
        requires { self.now.degree ≤ 22 }
        ensures { result ≡ behind self.now.rest self.now.degree }
    {
        self.rest[32 + self.degree]
    }

    /// Subtracts the multiple of another side, moved up to this side's degree, that cancels the leading coefficient,
    /// and lowers the degree by one.
    pub(crate) fn reduce(&mut self, other: &Side)
        requires positive { 1 ≤ self.old.degree }
        requires inside { self.old.degree ≤ 22 }
        requires lower { other.now.degree ≤ self.old.degree }
        requires live { behind other.now.rest other.now.degree ≢ gf64.zero }
        ensures { IsReduced self.old other.now self.new }
    {
        let shift = self.degree - other.degree;
        let multiple = self.leading().div(other.leading());
        add_moved(&mut self.factor, multiple, &other.factor, shift, 0);
        add_moved(&mut self.rest, multiple, &other.rest, shift, 0);
        if self.degree >= 16 {
            add_moved(&mut self.rest, multiple, &other.rest, shift, 16);
        }
        self.degree -= 1;
    }
}
