//! The erasures of a received word: their number, and the polynomial with a zero for each of them as a factor of
//! others.

ghost use Rattle.std.specs.Prelude.{◌≡◌, ℕ, ◌<◌, ◌≤◌, length};
ghost use Rattle.p25_gf64.specs.Gf64.{gf64};
ghost use Rattle.p25_algebra.specs.Series.{coefficient, shifted};
ghost use Rattle.p25_reed_solomon.specs.{Errors.{erased_below}, Locator.{times_erasures}};

use p25_gf64::Sym;

// Returns the number of erased positions.
pub(crate) fn count_erasures(erased: &[bool]) -> usize
    requires { length erased.now ≤ 63 }
    ensures count { result ≡ erased_below erased.now (length erased.now) }
    ensures few { result ≤ length erased.now }
{
    let mut count = 0;
    for gone in erased {
        if *gone {
            count += 1;
        }
    }
    count
}

// Multiplies a polynomial of 32 coefficients by 1 + x times the element of each erased position, of which there are
// `erasures`, as far as the coefficients reach.
pub(crate) fn multiply_by_erasures(polynomial: &mut [Sym], erased: &[bool], erasures: usize)
    requires room { length polynomial.old ≡ 32 }
    requires count { erasures ≡ erased_below erased.now (length erased.now) }
    requires places { length erased.now ≤ 63 }
    ensures { (k : ℕ) → k < 32 → coefficient gf64 polynomial.new k
        ≡ times_erasures (length erased.now) erased.now (length erased.now) (coefficient gf64 polynomial.old) k }
{
    if erasures == 0 {
        return;
    }
    for j in 0..erased.len() {
        if erased[j] {
            let element = Sym::pow_alpha((erased.len() - 1 - j) as u32);
            let below = moved_up(polynomial);
            for i in 0..32 {
                polynomial[i] = polynomial[i].add(element.mul(below[i]));
            }
        }
    }
}

// Multiplies a polynomial of 32 coefficients by x, as far as the coefficients reach, and adds a multiple of another.
pub(crate) fn multiply_by_x_and_add(polynomial: &mut [Sym], factor: Sym, other: &[Sym])
    requires room { length polynomial.old ≡ 32 }
    requires other { length other.now ≡ 32 }
    ensures { (k : ℕ) → k < 32 → coefficient gf64 polynomial.new k
        ≡ gf64.add (shifted gf64 1 (coefficient gf64 polynomial.old) k) (gf64.mul factor (coefficient gf64 other.now k)) }
{
    let below = moved_up(polynomial);
    for i in 0..32 {
        polynomial[i] = below[i].add(factor.mul(other[i]));
    }
}

// Returns the polynomial times x, with 33 coefficients.
fn moved_up(polynomial: &[Sym]) -> [Sym; 33]
    requires { length polynomial.now ≡ 32 }
    ensures moved { (k : ℕ) → coefficient gf64 result k ≡ shifted gf64 1 (coefficient gf64 polynomial.now) k }
    ensures full { length result ≡ 33 }
{
    let mut moved = [Sym::default(); 33];
    for i in 0..32 {
        moved[1 + i] = polynomial[i];
    }
    moved
}
