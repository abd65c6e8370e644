//! Polynomials at many points at once. Each step goes over all points, so that a compiler makes vector operations of it.

ghost use Rattle.std.specs.Prelude.{◌≡◌, ℕ, ◌+◌, ◌<◌, length};
ghost use Rattle.p25_gf64.specs.{Field.{power}, Symbol.{alpha}, Gf64.{gf64}};
ghost use Rattle.p25_algebra.specs.Series.{coefficient, value_at};

use p25_gf64::Sym;

// Writes to `powers` the powers of α from an exponent on.
pub(crate) fn fill_powers(first: u32, powers: &mut [Sym])
    ensures { (r : ℕ) → r < length powers.old → coefficient gf64 powers.new r ≡ power gf64 alpha (first + r) }
{
    let mut power = Sym::pow_alpha(first);
    let alpha = Sym::pow_alpha(1);
    for symbol in powers.iter_mut() {
        *symbol = power;
        power = power.mul(alpha);
    }
}

// Makes a step of Horner's rule at each point: the value times the point, plus the symbol.
pub(crate) fn horner_step(values: &mut [Sym], points: &[Sym], symbol: Sym)
    requires { length points.now ≡ length values.old }
    ensures { (r : ℕ) → r < length values.old
        → coefficient gf64 values.new r ≡ gf64.add (gf64.mul (coefficient gf64 values.old r) (coefficient gf64 points.now r)) symbol }
{
    for r in 0..values.len() {
        values[r] = values[r].mul(points[r]).add(symbol);
    }
}

// Writes to `values` the values at each point of a polynomial by its coefficients, lowest first.
pub(crate) fn fill_values(polynomial: &[Sym], points: &[Sym], values: &mut [Sym])
    requires { length points.now ≡ length values.old }
    ensures { (r : ℕ) → r < length values.old
        → coefficient gf64 values.new r ≡ value_at gf64 (length polynomial.now) (coefficient gf64 polynomial.now) (coefficient gf64 points.now r) }
{
    values.fill(Sym::default());
    for i in (0..polynomial.len()).rev() {
        horner_step(values, points, polynomial[i]);
    }
}
