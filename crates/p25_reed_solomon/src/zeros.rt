//! The positions at which a locator vanishes.

ghost use Rattle.std.specs.Prelude.{◌<◌, ◌≤◌, length};
ghost use Rattle.p25_gf64.specs.Gf64.{gf64};
ghost use Rattle.p25_algebra.specs.Series.{coefficient, IsZero};
ghost use Rattle.p25_reed_solomon.specs.Errors.{AreZeros};

use crate::points::{fill_powers, fill_values};
use arrayvec::ArrayVec;
use p25_gf64::Sym;

// Returns the positions among n at whose points a polynomial vanishes, in rising order. It requires a polynomial other
// than zero. There are fewer positions than its coefficients.
pub(crate) fn zeros(polynomial: &[Sym], n: usize) -> ArrayVec<usize, 24>
    requires places { n ≤ 63 }
    requires few { length polynomial.now ≤ 24 }
    requires nonzero { IsZero gf64 (coefficient gf64 polynomial.now) → ⊥ }
    ensures zeros { AreZeros n polynomial.now n result.items }
    ensures few { length result.items < length polynomial.now }
{
    // The points of the positions among n are powers of α, one after the other.
    let mut points = [Sym::default(); 64];
    fill_powers(64 - n as u32, &mut points);
    let mut values = [Sym::default(); 64];
    fill_values(polynomial, &points, &mut values);
    let mut places = ArrayVec::new();
    for j in 0..n {
        if values[j].is_zero() {
            places.push(j);
        }
    }
    places
}
