//! The laws of polynomials, for proofs about computations with them.

ghost use Rattle.std.specs.Prelude.{◌≡◌, ℕ, ◌<◌};
ghost use Rattle.p25_gf64.specs.Gf64.{gf64};
ghost use Rattle.p25_algebra.specs.Series.{IsShort};
ghost use Rattle.p25_poly.specs.{declared.polynomial.Poly.{Poly}, Polynomial.{coefficient_of}};

/// **Theorem.** A polynomial is determined by its coefficients, and has none from x^64 on.
pub fn polynomial_laws()
    ensures same { (p q : Poly) → ((i : ℕ) → i < 64 → coefficient_of p i ≡ coefficient_of q i) → p ≡ q }
    ensures short { (p : Poly) → IsShort gf64 64 (coefficient_of p) }
{}
