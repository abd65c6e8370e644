//! Multiples of lists of symbols.

ghost use Rattle.std.specs.Prelude.{◌≡◌, ℕ, ◌+◌, ◌<◌, ◌≤◌, length};
ghost use Rattle.p25_gf64.specs.Gf64.{gf64};
ghost use Rattle.p25_algebra.specs.Series.{coefficient, shifted};
ghost use Rattle.p25_poly.specs.Euclid.{IsMoved};

use p25_gf64::Sym;

/// Adds the factor times the other list, moved up by the shift, as far as the list reaches.
pub(crate) fn add_multiple(into: &mut [Sym], factor: Sym, other: &[Sym], shift: usize)
    requires { length into.old ≡ length other.now }
    ensures { (k : ℕ) → k < length into.old
        → coefficient gf64 into.new k ≡ gf64.add (coefficient gf64 into.old k) (gf64.mul factor (shifted gf64 shift (coefficient gf64 other.now) k)) }
{
    for i in shift..into.len() {
        into[i] = into[i].add(factor.mul(other[i - shift]));
    }
}

/// Adds to 16 symbols after the first 32, from a position on, the multiple of the other list's symbols, moved up by the
/// shift. These are copied first, so no symbol is written before it is read, and a compiler makes vector operations of
/// the loop.
#[inline(always)]
pub(crate) fn add_moved(into: &mut [Sym], multiple: Sym, other: &[Sym], shift: usize, place: usize)
    requires into { length into.old ≡ 64 }
    requires other { length other.now ≡ 64 }
    requires shift { shift ≤ 32 }
    requires place { place ≤ 16 }
    ensures { IsMoved place (place + 16) multiple shift into.old other.now into.new }
{
    let mut moved = [Sym::default(); 16];
    moved.copy_from_slice(&other[32 + place - shift..48 + place - shift]);
    for i in 0..16 {
        into[32 + place + i] = into[32 + place + i].add(multiple.mul(moved[i]));
    }
}
