//! The last test of errors: whether their power sums are the syndromes.

ghost use Rattle.std.specs.Prelude.{◌≡◌, ℕ, ◌+◌, ◌<◌, ◌≤◌, ◌↔◌, length, IsTrue, slice_index_or};
ghost use Rattle.p25_gf64.specs.Gf64.{gf64};
ghost use Rattle.p25_algebra.specs.{Sums.{power_sum}, Series.{coefficient}};
ghost use Rattle.p25_reed_solomon.specs.Errors.{element_of};

use p25_gf64::Sym;

// Returns whether the power sums of these values at the elements of listed positions among n, from the first power on,
// are the syndromes.
pub(crate) fn are_sums(syndromes: &[Sym], n: usize, places: &[usize], values: &[Sym]) -> bool
    requires places { n ≤ 63 }
    requires few { length places.now ≤ 24 }
    requires inside { (c : ℕ) → c < length places.now → slice_index_or places.now c 0 < n }
    requires values { length values.now ≡ 32 }
    requires rest { (c : ℕ) → length places.now ≤ c → coefficient gf64 values.now c ≡ gf64.zero }
    ensures { IsTrue result ↔ ((r : ℕ) → r < length syndromes.now
        → power_sum gf64 (length places.now) (λ c. element_of n (slice_index_or places.now c 0)) (coefficient gf64 values.now) (r + 1)
        ≡ coefficient gf64 syndromes.now r) }
{
    let elements = elements_of(n, places);
    let mut terms = [Sym::default(); 32];
    terms.copy_from_slice(values);
    for syndrome in syndromes {
        let mut sum = Sym::default();
        for r in 0..32 {
            terms[r] = terms[r].mul(elements[r]);
            sum = sum.add(terms[r]);
        }
        if !sum.add(*syndrome).is_zero() {
            return false;
        }
    }
    true
}

// Returns the elements of listed positions among n, with zeros after them.
fn elements_of(n: usize, places: &[usize]) -> [Sym; 32]
    requires places { n ≤ 63 }
    requires few { length places.now ≤ 24 }
    requires inside { (c : ℕ) → c < length places.now → slice_index_or places.now c 0 < n }
    ensures elements { (c : ℕ) → c < length places.now → coefficient gf64 result c ≡ element_of n (slice_index_or places.now c 0) }
    ensures full { length result ≡ 32 }
{
    let mut elements = [Sym::default(); 32];
    for c in 0..places.len() {
        elements[c] = Sym::pow_alpha((n - 1 - places[c]) as u32);
    }
    elements
}
