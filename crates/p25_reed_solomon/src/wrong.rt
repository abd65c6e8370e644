//! The positions of the errors of a received word, for codes whose errors are known once their positions are.

ghost use Rattle.std.specs.Prelude.{◌≡◌, ◌≢◌, ◌↔◌, ℕ, ◌<◌, ◌≤◌, length};
ghost use Rattle.p25_gf64.specs.{declared.symbol.Sym.{Sym}, Gf64.{gf64}};
ghost use Rattle.p25_algebra.specs.Series.{coefficient, value_at};
ghost use Rattle.p25_reed_solomon.specs.Errors.{AreErrors, point_of};

use p25_gf64::Sym;
use p25_poly::key_solve;

/// Returns a polynomial of degree at most 11, its lowest coefficient first, that locates the errors of a received word
/// of n symbols. Take any errors that explain the first `checks` syndromes and are at most half as many. The polynomial
/// vanishes at the point of a position if and only if there is an error at that position. The point of a position is
/// the inverse of α to the exponent of its coefficient. If no such errors exist, the contract leaves the polynomial
/// open. It requires at most 63 positions, the first that of the highest coefficient, and 32 `syndromes` as
/// `fill_syndromes` writes them.
///
/// The key equation of the syndromes is solved with the syndromes in reverse order. Its locator vanishes at the
/// elements of the positions instead of their points, and for a word of bits that takes half of the steps.
pub fn wrong_locator(syndromes: &[Sym], checks: usize, n: usize) -> [Sym; 12]
    requires places { n ≤ 63 }
    requires some { 2 ≤ checks }
    requires few { checks ≤ 22 }
    requires syndromes { length syndromes.now ≡ 32 }
    ensures zeros { (errors : ℕ → Sym) → AreErrors n checks syndromes.now errors
        → (j : ℕ) → j < n → (value_at gf64 12 (coefficient gf64 result) (point_of n j) ≡ gf64.zero) ↔ (errors j ≢ gf64.zero) }
    ensures full { length result ≡ 12 }
{
    let count = checks / 2 * 2;
    let mut turned = [Sym::default(); 22];
    for i in 0..count {
        turned[i] = syndromes[count - 1 - i];
    }
    let key = key_solve(&turned[..count]);
    let mut locator = [Sym::default(); 12];
    for i in 0..12 {
        locator[i] = key.locator.coefficient(11 - i);
    }
    locator
}
