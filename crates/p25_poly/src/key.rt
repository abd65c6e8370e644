//! The key equation of Reed-Solomon and BCH codes, by Euclid's algorithm on x^(2t) and the polynomial of the syndromes.

ghost use Rattle.std.specs.Prelude.{◌≡◌, ℕ, ◌+◌, ◌*◌, ◌/◌, ◌<◌, ◌≤◌, length};
ghost use Rattle.p25_gf64.specs.declared.symbol.Sym.{Sym};
ghost use Rattle.p25_poly.specs.{Euclid.{behind, IsPair}, Key.{IsKey}, Polynomial.{coefficient_of}};

use crate::polynomial::Poly;
use crate::side::Side;
use p25_gf64::Sym;

/// A solution of a key equation: a locator, and its product with the polynomial of the syndromes modulo x^(2t).
#[derive(Clone, Copy, Debug, PartialEq, Eq)]
pub struct Key {
    pub locator: Poly,
    pub evaluator: Poly,
}

/// Returns a solution of the key equation of 2t syndromes, t from 1 to 11, the first of which is the coefficient of x^0
/// of a polynomial S. The locator is not zero and has degree at most t. The evaluator has degree below t or is zero.
/// The locator times S and the evaluator have the same coefficients below x^(2t). No symbol but 0 is a zero of both.
pub fn key_solve(syndromes: &[Sym]) -> Key
    requires some { 2 ≤ length syndromes.now }
    requires few { length syndromes.now ≤ 22 }
    requires even { 2 * (length syndromes.now / 2) ≡ length syndromes.now }
    ensures { IsKey syndromes.now result.locator result.evaluator }
{
    let mut front = Side::power(syndromes.len());
    let mut back = Side::series(syndromes);
    // Each side is reduced by the other in turn, until the degree of one is below half.
    while 2 * back.degree >= syndromes.len() && 2 * front.degree >= syndromes.len() {
        lower(&mut front, &mut back, syndromes.len());
        if 2 * back.degree >= syndromes.len() {
            lower(&mut back, &mut front, syndromes.len());
        }
    }
    if 2 * back.degree < syndromes.len() {
        key_of(&back)
    } else {
        key_of(&front)
    }
}

// Returns the factor and the remainder of a side.
fn key_of(side: &Side) -> Key
    ensures locator { (k : ℕ) → coefficient_of result.locator k ≡ behind side.now.factor k }
    ensures evaluator { (k : ℕ) → coefficient_of result.evaluator k ≡ behind side.now.rest k }
{
    Key {
        locator: Poly::from_symbols(&side.factor[32..]),
        evaluator: Poly::from_symbols(&side.rest[32..]),
    }
}

// Reduces the side `front` by the side `back`, until its degree is the lower one or that of `back` is below half.
fn lower(front: &mut Side, back: &mut Side, count: usize)
    requires some { 2 ≤ count }
    requires lower { back.old.degree ≤ front.old.degree }
    requires half { 2 * back.old.degree < count → count ≤ 2 * front.old.degree }
    requires inside { front.old.degree ≤ 22 }
    ensures pair { (series : ℕ → Sym) → IsPair count series front.old back.old → IsPair count series front.new back.new }
    ensures less { count ≤ 2 * back.old.degree → front.new.degree + back.new.degree < front.old.degree + back.old.degree }
    ensures lower { count ≤ 2 * back.new.degree → front.new.degree < back.new.degree }
    ensures half { 2 * back.new.degree < count → count ≤ 2 * front.new.degree }
    ensures front_most { front.new.degree ≤ front.old.degree }
    ensures back_most { back.new.degree ≤ back.old.degree }
{
    while back.degree <= front.degree && 2 * back.degree >= count {
        step(front, back);
    }
}

// Makes one step: one of the sides loses the coefficient of its degree. If that coefficient is zero, nothing has to be
// subtracted. This is so at every second step for the syndromes of a word of bits in reverse order.
fn step(front: &mut Side, back: &mut Side)
    requires positive { 1 ≤ back.old.degree }
    requires lower { back.old.degree ≤ front.old.degree }
    requires inside { front.old.degree ≤ 22 }
    ensures pair { (count : ℕ) (series : ℕ → Sym) → count ≤ 2 * back.old.degree → IsPair count series front.old back.old
        → IsPair count series front.new back.new }
    ensures less { front.new.degree + back.new.degree + 1 ≡ front.old.degree + back.old.degree }
    ensures front_most { front.new.degree ≤ front.old.degree }
    ensures back_most { back.new.degree ≤ back.old.degree }
{
    if back.leading().is_zero() {
        back.degree -= 1;
    } else if front.leading().is_zero() {
        front.degree -= 1;
    } else {
        front.reduce(back);
    }
}
