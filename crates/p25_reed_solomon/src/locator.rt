//! The locator: a polynomial that vanishes at the inverse of the element of each position that is erased or has an
//! error, and its evaluator.

ghost use Rattle.std.specs.Prelude.{◌≡◌, ℕ, ◌+◌, ◌*◌, ◌/◌, ◌<◌, ◌≤◌, length};
ghost use Rattle.p25_gf64.specs.Gf64.{gf64};
ghost use Rattle.p25_algebra.specs.Series.{coefficient, IsShort};
ghost use Rattle.p25_poly.specs.{Key.{IsKey}, Polynomial.{coefficient_of}};
ghost use Rattle.p25_reed_solomon.specs.{Errors.{erased_below}, Locator.{IsLocator}};

use crate::erasures::{multiply_by_erasures, multiply_by_x_and_add};
use p25_gf64::Sym;
use p25_poly::{Key, Poly, key_solve};

// Writes to `locator` a locator of the first `checks` syndromes of a word with the given erasures, and to `evaluator`
// its evaluator. They come from the solution of the key equation of the syndromes times the factor of each erasure, and
// from this factor again. Returns the locator's degree, or 1 if it is lower.
pub(crate) fn locate(
    syndromes: &[Sym],
    checks: usize,
    erased: &[bool],
    erasures: usize,
    locator: &mut [Sym],
    evaluator: &mut [Sym],
) -> usize
    requires places { length erased.now ≤ 63 }
    requires count { erasures ≡ erased_below erased.now (length erased.now) }
    requires erasures { erasures ≤ checks }
    requires some { 2 ≤ checks }
    requires few { checks ≤ 22 }
    requires syndromes { length syndromes.now ≡ 32 }
    requires locator { length locator.old ≡ 32 }
    requires evaluator { length evaluator.old ≡ 32 }
    ensures locator { IsLocator (length erased.now) checks syndromes.now erased.now result (coefficient gf64 locator.new) (coefficient gf64 evaluator.new) }
    ensures most { 2 * result ≤ checks + erased_below erased.now (length erased.now) }
{
    let half = (checks - erasures) / 2;
    let mut lowered = [Sym::default(); 32];
    lowered.copy_from_slice(syndromes);
    multiply_by_erasures(&mut lowered, erased, erasures);
    let key = key_of(&lowered[erasures..erasures + 2 * half]);
    fill_front(&key.locator, locator);
    fill_front(&key.evaluator, evaluator);
    for i in (0..erasures).rev() {
        multiply_by_x_and_add(evaluator, lowered[i], locator);
    }
    multiply_by_erasures(locator, erased, erasures);
    degree_bound(locator)
}

// Returns the degree of a polynomial of 32 coefficients, or 1 if it is lower.
fn degree_bound(polynomial: &[Sym]) -> usize
    requires { length polynomial.now ≡ 32 }
    ensures some { 1 ≤ result }
    ensures short { IsShort gf64 (result + 1) (coefficient gf64 polynomial.now) }
    ensures least { (k : ℕ) → 1 ≤ k → IsShort gf64 (k + 1) (coefficient gf64 polynomial.now) → result ≤ k }
{
    for i in (2..32).rev() {
        if !polynomial[i].is_zero() {
            return i;
        }
    }
    1
}

// Returns the solution of the key equation, which without symbols is 1 with the evaluator 0.
fn key_of(symbols: &[Sym]) -> Key
    requires few { length symbols.now ≤ 22 }
    requires even { 2 * (length symbols.now / 2) ≡ length symbols.now }
    ensures { IsKey symbols.now result.locator result.evaluator }
{
    if symbols.is_empty() {
        return Key {
            locator: Poly::from_symbols(&[Sym::ONE]),
            evaluator: Poly::zero(),
        };
    }
    key_solve(symbols)
}

// Writes to `out` the first coefficients of a polynomial.
fn fill_front(polynomial: &Poly, out: &mut [Sym])
    requires { length out.old ≡ 32 }
    ensures { (k : ℕ) → k < 32 → coefficient gf64 out.new k ≡ coefficient_of polynomial.now k }
{
    for i in 0..32 {
        out[i] = polynomial.coefficient(i);
    }
}
