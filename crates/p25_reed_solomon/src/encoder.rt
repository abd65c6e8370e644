//! The check symbols of an information, by division by the generator polynomial.
//!
//! A list of symbols is used here as a polynomial in 1/x: the symbol at j is the coefficient of the j-th power of 1/x.
//! Times the highest power of x it is the usual polynomial, so both have the same zeros except 0.

ghost use Rattle.std.specs.Prelude.{◌≡◌, ℕ, ◌+◌, ◌≤◌, length, take};
ghost use Rattle.p25_gf64.specs.Gf64.{gf64};
ghost use Rattle.p25_algebra.specs.Series.{coefficient, shifted, IsShort};
ghost use Rattle.p25_reed_solomon.specs.{Generator.{IsGenerator}, Words.{IsCode, IsWord}};

use p25_gf64::Sym;

// The number of symbols that are added at once, more than a generator polynomial has. With this number a compiler makes
// vector operations of them.
const WIDTH: usize = 32;

// Encodes an information: writes to `word` the one codeword that begins with it. It takes 32 products for each symbol
// of information, and as many for each check symbol.
pub(crate) fn encode(info: &[Sym], word: &mut [Sym])
    requires code { IsCode (length word.old) (length info.now) }
    ensures word { IsWord (length word.old) (length info.now) word.new }
    ensures begins { take (length info.now) word.new ≡ info.now }
{
    let (k, n) = (info.len(), word.len());
    let generator = generator_of(n - k);
    let mut divided = [Sym::default(); 95];
    divided[..k].copy_from_slice(info);
    // Multiples of the generator polynomial are added, so that all symbols but the last n - k become zero. The values
    // at its zeros are unchanged, so the last symbols are the remainder.
    for i in 0..k {
        let factor = divided[i];
        add_multiple(&mut divided, factor, &generator, i);
    }
    word.copy_from_slice(&divided[..n]);
    word[..k].copy_from_slice(info);
}

// Returns the generator polynomial, whose zeros are α^1 to α^checks.
fn generator_of(checks: usize) -> [Sym; 64]
    requires { checks ≤ 22 }
    ensures generator { IsGenerator checks result }
    ensures length { length result ≡ 64 }
{
    let mut generator = [Sym::default(); 64];
    generator[0] = Sym::ONE;
    for i in 0..checks {
        let before = generator;
        let root = Sym::pow_alpha(i as u32 + 1);
        add_multiple(&mut generator, root, &before, 1);
    }
    generator
}

// Adds the factor times the other list, moved up by the shift. Only the first 32 symbols of the other list are not
// zero.
fn add_multiple(into: &mut [Sym], factor: Sym, other: &[Sym], shift: usize)
    requires short { IsShort gf64 32 (coefficient gf64 other.now) }
    requires inside { 32 ≤ length other.now }
    requires fits { shift + 32 ≤ length into.old }
    ensures { (j : ℕ) → coefficient gf64 into.new j
        ≡ gf64.add (coefficient gf64 into.old j) (gf64.mul factor (shifted gf64 shift (coefficient gf64 other.now) j)) }
{
    for i in 0..WIDTH {
        into[shift + i] = into[shift + i].add(factor.mul(other[i]));
    }
}
