//! The errors of a received word: their positions, and the value added at each.

ghost use Rattle.std.specs.Prelude.{◌≡◌, ℕ, ◌<◌, ◌≤◌, length, IsTrue, slice_index_or};
ghost use Rattle.p25_gf64.specs.{declared.symbol.Sym.{Sym}, Gf64.{gf64}};
ghost use Rattle.p25_algebra.specs.Series.{coefficient};
ghost use Rattle.p25_reed_solomon.specs.Errors.{Explains, erased_below, placed};

use crate::erasures::count_erasures;
use crate::locator::locate;
use crate::sums::are_sums;
use crate::values::fill_errors;
use crate::zeros::zeros;
use p25_gf64::Sym;

// Writes to `out` errors that explain the first `checks` syndromes of a word with these erasures, and returns true, if
// and only if such errors exist.
pub(crate) fn find_errors(
    syndromes: &[Sym],
    checks: usize,
    erased: &[bool],
    out: &mut [Sym],
) -> bool
    requires places { length erased.now ≤ 63 }
    requires erasures { erased_below erased.now (length erased.now) ≤ checks }
    requires some { 2 ≤ checks }
    requires few { checks ≤ 22 }
    requires syndromes { length syndromes.now ≡ 32 }
    requires room { length out.old ≡ length erased.now }
    ensures found { IsTrue result → Explains (length erased.now) checks syndromes.now erased.now (coefficient gf64 out.new) }
    ensures complete { (errors : ℕ → Sym) → Explains (length erased.now) checks syndromes.now erased.now errors → IsTrue result }
    ensures places { length out.new ≡ length erased.now }
{
    let n = erased.len();
    let mut locator = [Sym::default(); 32];
    let mut evaluator = [Sym::default(); 32];
    let most = locate(
        syndromes,
        checks,
        erased,
        count_erasures(erased),
        &mut locator,
        &mut evaluator,
    );
    let locator = &locator[..most + 1];
    let listed = zeros(locator, n);
    let places = listed.as_slice();
    let mut values = [Sym::default(); 32];
    fill_errors(locator, &evaluator[..most], n, places, &mut values);
    if !are_sums(&syndromes[..checks], n, places, &values) {
        return false;
    }
    place(places, &values, out);
    true
}

// Writes to `out` zeros except for these values, each added at its position.
fn place(places: &[usize], values: &[Sym], out: &mut [Sym])
    requires as_many { length places.now ≤ length values.now }
    requires inside { (c : ℕ) → c < length places.now → slice_index_or places.now c 0 < length out.old }
    ensures { (j : ℕ) → j < length out.old → coefficient gf64 out.new j ≡ placed places.now (coefficient gf64 values.now) j }
{
    out.fill(Sym::default());
    for c in 0..places.len() {
        let j = places[c];
        out[j] = out[j].add(values[c]);
    }
}
