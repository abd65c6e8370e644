//! The errors at the zeros of a locator, by Forney's formula: the value of the evaluator divided by the slope of the locator.

ghost use Rattle.std.specs.Prelude.{◌≡◌, ◌≢◌, ℕ, ◌<◌, ◌≤◌, length, slice_index_or};
ghost use Rattle.p25_gf64.specs.Gf64.{gf64};
ghost use Rattle.p25_algebra.specs.Series.{coefficient, value_at, slope_at};
ghost use Rattle.p25_reed_solomon.specs.Errors.{point_of};

use crate::points::{fill_values, horner_step};
use p25_gf64::Sym;

// Writes to `out` the errors at listed positions among n, and zeros after them. Each error times the locator's slope at
// the point of its position, if this slope is not zero, is the evaluator's value there.
pub(crate) fn fill_errors(
    locator: &[Sym],
    evaluator: &[Sym],
    n: usize,
    places: &[usize],
    out: &mut [Sym],
)
    requires places { n ≤ 63 }
    requires few { length places.now ≤ 24 }
    requires inside { (c : ℕ) → c < length places.now → slice_index_or places.now c 0 < n }
    requires room { length out.old ≡ 32 }
    ensures errors { (c : ℕ) → c < length places.now
        → slope_at gf64 (length locator.now) (coefficient gf64 locator.now) (point_of n (slice_index_or places.now c 0)) ≢ gf64.zero
        → gf64.mul (coefficient gf64 out.new c) (slope_at gf64 (length locator.now) (coefficient gf64 locator.now) (point_of n (slice_index_or places.now c 0)))
        ≡ value_at gf64 (length evaluator.now) (coefficient gf64 evaluator.now) (point_of n (slice_index_or places.now c 0)) }
    ensures rest { (c : ℕ) → length places.now ≤ c → coefficient gf64 out.new c ≡ gf64.zero }
{
    let points = points_of(n, places);
    let slopes = slopes_of(locator, &points);
    let mut values = [Sym::default(); 32];
    fill_values(evaluator, &points, &mut values);
    out.fill(Sym::default());
    for c in 0..places.len() {
        if !slopes[c].is_zero() {
            out[c] = values[c].div(slopes[c]);
        }
    }
}

// Returns the points of listed positions among n, with zeros after them.
fn points_of(n: usize, places: &[usize]) -> [Sym; 32]
    requires places { n ≤ 63 }
    requires few { length places.now ≤ 24 }
    requires inside { (c : ℕ) → c < length places.now → slice_index_or places.now c 0 < n }
    ensures points { (c : ℕ) → c < length places.now → coefficient gf64 result c ≡ point_of n (slice_index_or places.now c 0) }
    ensures full { length result ≡ 32 }
{
    let mut points = [Sym::default(); 32];
    for c in 0..places.len() {
        points[c] = Sym::pow_alpha((64 - n + places[c]) as u32);
    }
    points
}

// Returns the slopes of a polynomial at each of 32 points.
fn slopes_of(polynomial: &[Sym], points: &[Sym]) -> [Sym; 32]
    requires { length points.now ≡ 32 }
    ensures slopes { (r : ℕ) → r < 32
        → coefficient gf64 result r ≡ slope_at gf64 (length polynomial.now) (coefficient gf64 polynomial.now) (coefficient gf64 points.now r) }
    ensures full { length result ≡ 32 }
{
    let mut slopes = [Sym::default(); 32];
    let mut values = [Sym::default(); 32];
    for i in (0..polynomial.len()).rev() {
        // Horner's rule for the slopes takes the values from before this step.
        for r in 0..32 {
            slopes[r] = slopes[r].mul(points[r]).add(values[r]);
        }
        horner_step(&mut values, points, polynomial[i]);
    }
    slopes
}
