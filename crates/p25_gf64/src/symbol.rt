//! An element of GF(64): its type, its conversions from and to numbers, and the arithmetic of the field.

ghost use Rattle.std.specs.Prelude.{◌≡◌, ◌≢◌, ◌%◌, ◌<◌, ◌↔◌, IsTrue, IsSome, IfSome, bit_xor};

use crate::products::product;
use crate::tables::{LOGARITHMS, POWERS};
use std::error::Error;
use std::fmt;
use std::ops::{Add, Mul};

/// An element of GF(64): a number from 0 to 63, whose bit k is the coefficient of x^k.
#[derive(Clone, Copy, Debug, PartialEq, Eq)]
pub struct Sym {
    value: u8,
    pub ghost below: { value < 64 },
}

impl Default for Sym {
    ghost use Rattle.std.specs.Prelude.{◌≡◌};
    ghost use Rattle.p25_gf64.specs.Gf64.{gf64};

    ghost is_default = { λ symbol. symbol ≡ gf64.zero };

    fn default() -> Sym {
        Sym::ZERO
    }
}

impl Sym {
    ghost use Rattle.p25_gf64.specs.{Field.{power}, Product.{product}, Symbol.{number, alpha}, Gf64.{gf64}};

    /// The symbol 0.
    pub const ZERO: Sym = Sym { value: 0 };

    /// The symbol 1.
    pub const ONE: Sym = Sym { value: 1 };

    /// Returns the two symbols that have names, `Sym::ZERO` and `Sym::ONE`: the 0 and the 1 of the field.
    pub fn named() -> (Sym, Sym)
        ensures zero { result.0 ≡ gf64.zero }
        ensures one { result.1 ≡ gf64.one }
    {
        (Sym::ZERO, Sym::ONE)
    }

    /// Returns the symbol of a number. `None` is returned if and only if the number is above 63.
    pub fn new(value: u8) -> Option<Sym>
        ensures below { IsSome result ↔ (value < 64) }
        ensures number { IfSome result (λ symbol. number symbol ≡ value) }
    {
        if value < 64 {
            Some(Sym { value })
        } else {
            None
        }
    }

    /// Returns the symbol whose number is the low six bits of a number.
    pub fn of_low_bits(value: u128) -> Sym
        ensures { number result ≡ value % 64 }
    {
        Sym {
            value: (value % 64) as u8,
        }
    }

    /// Returns the number of the symbol, from 0 to 63.
    pub fn value(self) -> u8
        ensures number { result ≡ number self }
        ensures below { result < 64 }
    {
        self.value
    }

    /// Returns whether the symbol is 0.
    pub fn is_zero(self) -> bool
        ensures { IsTrue result ↔ (self ≡ gf64.zero) }
    {
        self.value == 0
    }

    /// Returns the sum of two symbols, which is their exclusive or. It is also their difference.
    pub fn add(self, other: Sym) -> Sym
        ensures sum { result ≡ gf64.add self other }
        ensures number { number result ≡ bit_xor (number self) (number other) }
    {
        Sym {
            value: self.value ^ other.value,
        }
    }

    /// Returns the product of two symbols, as polynomials modulo x^6 + x + 1.
    pub fn mul(self, other: Sym) -> Sym
        ensures product { result ≡ gf64.mul self other }
        ensures number { number result ≡ product (number self) (number other) }
    {
        Sym {
            value: product(self.value, other.value),
        }
    }

    /// Returns the inverse of a symbol other than 0: the one symbol whose product with it is 1.
    pub fn inv(self) -> Sym
        requires { self ≢ gf64.zero }
        ensures inverse { result ≡ gf64.inverse self }
        ensures one { gf64.mul self result ≡ gf64.one }
    {
        Sym::power_below((63 - self.logarithm()) % 63)
    }

    /// Returns the quotient by a symbol other than 0: the one symbol whose product with the divisor is this symbol.
    pub fn div(self, other: Sym) -> Sym
        requires { other ≢ gf64.zero }
        ensures quotient { result ≡ gf64.mul self (gf64.inverse other) }
        ensures product { gf64.mul result other ≡ self }
    {
        if self.is_zero() {
            return self;
        }
        let exponent = 63 + self.logarithm() - other.logarithm();
        if exponent < 63 {
            return Sym::power_below(exponent);
        }
        Sym::power_below(exponent - 63)
    }

    /// Returns α = 2 to any power. The powers repeat after 63.
    pub fn pow_alpha(exponent: u32) -> Sym
        ensures { result ≡ power gf64 alpha exponent }
    {
        Sym::power_below((exponent % 63) as u8)
    }

    // Returns α to a power below 63.
    fn power_below(exponent: u8) -> Sym
        requires { exponent < 63 }
        ensures { result ≡ power gf64 alpha exponent }
    {
        Sym {
            value: POWERS[exponent as usize],
        }
    }

    // Returns the exponent below 63 of the power of α that is the symbol.
    fn logarithm(self) -> u8
        requires { self ≢ gf64.zero }
        ensures below { result < 63 }
        ensures power { power gf64 alpha result ≡ self }
    {
        LOGARITHMS[self.value as usize]
    }
}

/// Returns the number of a symbol.
impl From<Sym> for u8 {
    ghost use Rattle.std.specs.Prelude.{◌≡◌};
    ghost use Rattle.p25_gf64.specs.Symbol.{number};

    ghost from_gives = { λ symbol value. value ≡ number symbol };

    fn from(symbol: Sym) -> u8 {
        symbol.value()
    }
}

/// Returns the symbol of a number, as `Sym::new` does. `NotASymbol` is returned with the number, if and only if the
/// number is above 63.
impl TryFrom<u8> for Sym {
    type Error = NotASymbol;

    ghost use Rattle.std.specs.Prelude.{◌≡◌, ◌≤◌, ◌<◌, MatchResult};
    ghost use Rattle.p25_gf64.specs.Symbol.{number};

    ghost try_from_gives = { λ value result. MatchResult result
        (λ symbol. (number symbol ≡ value) × (value < 64))
        (λ refused. (refused.0 ≡ value) × (64 ≤ value)) };

    fn try_from(value: u8) -> Result<Sym, NotASymbol> {
        Sym::new(value).ok_or(NotASymbol(value))
    }
}

/// A number above 63, which is the number of no symbol.
#[derive(Clone, Copy, Debug, PartialEq, Eq)]
pub struct NotASymbol(pub u8);

impl fmt::Display for NotASymbol {
    ghost use Rattle.std.specs.Prelude.{Some, ◌++◌, codes, decimal};

    ghost output = { λ refused. Some (decimal refused.0 ++ codes " is no symbol, since it is above 63") };

    fn fmt<W: fmt::Write>(&self, f: &mut fmt::Formatter<W>) -> fmt::Result {
        let value = self.0;
        write!(f, "{value} is no symbol, since it is above 63")
    }
}

impl Error for NotASymbol {}

/// Returns the sum, as `Sym::add` does.
impl Add for Sym {
    type Output = Sym;

    ghost use Rattle.std.specs.Prelude.{◌≡◌};
    ghost use Rattle.p25_gf64.specs.Gf64.{gf64};

    ghost add_gives = { λ a b sum. sum ≡ gf64.add a b };

    fn add(self, other: Sym) -> Sym {
        Sym::add(self, other)
    }
}

/// Returns the product, as `Sym::mul` does.
impl Mul for Sym {
    type Output = Sym;

    ghost use Rattle.std.specs.Prelude.{◌≡◌};
    ghost use Rattle.p25_gf64.specs.Gf64.{gf64};

    ghost mul_gives = { λ a b product. product ≡ gf64.mul a b };

    fn mul(self, other: Sym) -> Sym {
        Sym::mul(self, other)
    }
}
