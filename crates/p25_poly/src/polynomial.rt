//! A polynomial over GF(64) of bounded degree: its type, its coefficients and its arithmetic.

ghost use Rattle.std.specs.Prelude.{◌≡◌, ◌↔◌, ℕ, ◌+◌, ◌<◌, ◌≤◌, length, IsNone, IfSome};
ghost use Rattle.p25_gf64.specs.Gf64.{gf64};
ghost use Rattle.p25_algebra.specs.Series.{coefficient, value_at, product_at, IsZero, IsDegree};

use crate::multiples::add_multiple;
use p25_gf64::Sym;

/// A polynomial over GF(64) of degree below 64, by its 64 coefficients, lowest first.
#[derive(Clone, Copy, Debug, PartialEq, Eq)]
pub struct Poly {
    coefficients: [Sym; 64],
    pub ghost full: { length coefficients ≡ 64 },
}

impl Poly {
    ghost use Rattle.p25_poly.specs.{declared.polynomial.Poly.{Poly as Polynomial}, Polynomial.{coefficient_of, IsDivision}};

    /// Returns the polynomial zero.
    pub fn zero() -> Poly
        ensures { IsZero gf64 (coefficient_of result) }
    {
        Poly {
            coefficients: [Sym::default(); 64],
        }
    }

    /// Returns the polynomial of at most 64 coefficients, lowest first; the others are zero.
    pub fn from_symbols(low_first: &[Sym]) -> Poly
        requires { length low_first.now ≤ 64 }
        ensures { (i : ℕ) → coefficient_of result i ≡ coefficient gf64 low_first.now i }
    {
        let mut coefficients = [Sym::default(); 64];
        coefficients[..low_first.len()].copy_from_slice(low_first);
        Poly { coefficients }
    }

    /// Returns the coefficient of x^i, for i below 64.
    pub fn coefficient(&self, i: usize) -> Sym
        requires { i < 64 }
        ensures { result ≡ coefficient_of self.now i }
    {
        self.coefficients[i]
    }

    /// Returns the degree, the largest exponent whose coefficient is not zero, or `None` if and only if the polynomial
    /// is zero.
    pub fn degree(&self) -> Option<usize>
        ensures none { IsNone result ↔ IsZero gf64 (coefficient_of self.now) }
        ensures some { IfSome result (IsDegree gf64 (coefficient_of self.now)) }
        ensures below { IfSome result (λ degree. degree < 64) }
    {
        for i in (0..64).rev() {
            if !self.coefficients[i].is_zero() {
                return Some(i);
            }
        }
        None
    }

    /// Returns the value at x: the sum over the coefficients of coefficient times power of x.
    pub fn eval(&self, x: Sym) -> Sym
        ensures { result ≡ value_at gf64 64 (coefficient_of self.now) x }
    {
        let mut value = Sym::default();
        for i in (0..64).rev() {
            value = value.mul(x).add(self.coefficients[i]);
        }
        value
    }

    /// Returns the sum, coefficient by coefficient. It is also the difference.
    pub fn add(&self, other: &Poly) -> Poly
        ensures { (i : ℕ) → coefficient_of result i ≡ gf64.add (coefficient_of self.now i) (coefficient_of other.now i) }
    {
        let mut coefficients = self.coefficients;
        add_multiple(&mut coefficients, Sym::ONE, &other.coefficients, 0);
        Poly { coefficients }
    }

    /// Returns the product. It requires that one of the polynomials is zero or that the degrees add to less than 64.
    /// The coefficient of x^n is the sum of the products of coefficients whose exponents add to n.
    pub fn mul(&self, other: &Poly) -> Poly
        requires { (d e : ℕ) → IsDegree gf64 (coefficient_of self.now) d → IsDegree gf64 (coefficient_of other.now) e → d + e < 64 }
        ensures { (i : ℕ) → coefficient_of result i ≡ product_at gf64 (coefficient_of self.now) (coefficient_of other.now) i }
    {
        let mut coefficients = [Sym::default(); 64];
        for i in 0..64 {
            add_multiple(
                &mut coefficients,
                self.coefficients[i],
                &other.coefficients,
                i,
            );
        }
        Poly { coefficients }
    }

    /// Returns quotient and remainder by a polynomial other than zero. The polynomial is the divisor times the
    /// quotient, plus the remainder, whose degree is lower than the divisor's.
    pub fn divide(&self, by: &Poly) -> (Poly, Poly)
        requires { IsZero gf64 (coefficient_of by.now) → ⊥ }
        ensures division { IsDivision self.now by.now result.0 result.1 }
        ensures unique { (quotient remainder : Polynomial) → IsDivision self.now by.now quotient remainder
            → (quotient ≡ result.0) × (remainder ≡ result.1) }
    {
        let degree = by.degree().unwrap();
        let inverse = by.coefficients[degree].inv();
        let mut quotient = [Sym::default(); 64];
        let mut remainder = self.coefficients;
        for shift in (0..64 - degree).rev() {
            let factor = remainder[shift + degree].mul(inverse);
            quotient[shift] = factor;
            add_multiple(&mut remainder, factor, &by.coefficients, shift);
        }
        let quotient = Poly {
            coefficients: quotient,
        };
        let remainder = Poly {
            coefficients: remainder,
        };
        (quotient, remainder)
    }
}
