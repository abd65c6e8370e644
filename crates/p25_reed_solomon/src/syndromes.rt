//! Syndromes: the values of a received word at the powers of α at which each codeword vanishes.

ghost use Rattle.std.specs.Prelude.{◌≡◌, ℕ, ◌+◌, ◌<◌, ◌≤◌, length, true, false};
ghost use Rattle.p25_gf64.specs.Gf64.{gf64};
ghost use Rattle.p25_algebra.specs.Series.{coefficient};
ghost use Rattle.p25_reed_solomon.specs.Words.{value_of};

use crate::packed::{SYMBOLS_MOST, VALUES_MOST, are_zero, put_values, values_of};
use crate::points::{fill_powers, horner_step};
use p25_gf64::Sym;

/// Writes to `out`, of 32 symbols, the values of a word at α^1 to α^32. It requires a word of at most 63 symbols. The
/// first symbol of the word is the highest coefficient.
pub fn fill_syndromes(word: &[Sym], out: &mut [Sym])
    requires word { length word.now ≤ 63 }
    requires room { length out.old ≡ 32 }
    ensures values { (r : ℕ) → r < 32 → coefficient gf64 out.new r ≡ value_of (length word.now) word.now (r + 1) }
{
    let mut powers = [Sym::default(); 32];
    fill_powers(1, &mut powers);
    out.fill(Sym::default());
    for symbol in word {
        horner_step(out, &powers, *symbol);
    }
}

// Returns whether the first `checks` syndromes of a word are zero. If they are not, writes them to the first symbols of
// `out`.
pub(crate) fn are_syndromes_zero(word: &[Sym], checks: usize, out: &mut [Sym]) -> bool
    requires word { length word.now ≤ 63 }
    requires few { checks ≤ 32 }
    requires room { length out.old ≡ 32 }
    ensures clean { result ≡ true → (r : ℕ) → r < checks → value_of (length word.now) word.now (r + 1) ≡ gf64.zero }
    ensures values { result ≡ false → (r : ℕ) → r < checks → coefficient gf64 out.new r ≡ value_of (length word.now) word.now (r + 1) }
    ensures full { length out.new ≡ 32 }
{
    if word.len() > SYMBOLS_MOST || checks > VALUES_MOST {
        fill_syndromes(word, out);
        return out[..checks].iter().all(|symbol| symbol.is_zero());
    }
    let values = values_of(word);
    if are_zero(values, checks) {
        return true;
    }
    put_values(values, out);
    false
}
