//! The decoder of a received word, with erasures or without.

ghost use Rattle.std.specs.Prelude.{◌≡◌, ◌-◌, ◌≤◌, length};
ghost use Rattle.p25_gf64.specs.Gf64.{gf64};
ghost use Rattle.p25_algebra.specs.{Sums.{nonzeros}, Series.{coefficient}};
ghost use Rattle.p25_code.specs.{Words.{IsReading}, Erasures.{without_erased, IsErasedReading}};
ghost use Rattle.p25_reed_solomon.specs.Words.{IsCode, IsWord, radius_of, same_symbols};

use crate::erasures::count_erasures;
use crate::errors::find_errors;
use crate::syndromes::are_syndromes_zero;
use p25_code::Reading;
use p25_gf64::Sym;

// Decodes a received word of the code with k information symbols up to the correction radius, as a word without an
// erasure.
pub(crate) fn read(word: &mut [Sym], k: usize) -> Reading
    requires { IsCode (length word.old) k }
    ensures { IsReading same_symbols (IsWord (length word.old) k) (radius_of (length word.old) k) word.old word.new result }
{
    let n = word.len();
    read_erased(word, k, &[false; 63][..n])
}

// Decodes a received word with erasures of the code with k information symbols, up to a cost of the number of check
// symbols: the errors that explain its syndromes are subtracted.
pub(crate) fn read_erased(word: &mut [Sym], k: usize, erased: &[bool]) -> Reading
    requires code { IsCode (length word.old) k }
    requires erased { length erased.now ≡ length word.old }
    ensures { IsErasedReading same_symbols (IsWord (length word.old) k) (length word.old - k) (without_erased word.old erased.now) word.old word.new result }
{
    let checks = word.len() - k;
    if count_erasures(erased) > checks {
        return Reading::Beyond;
    }
    let mut syndromes = [Sym::default(); 32];
    if are_syndromes_zero(word, checks, &mut syndromes) {
        return Reading::Found { fixes: 0 };
    }
    let mut errors = [Sym::default(); 63];
    let errors = &mut errors[..erased.len()];
    if !find_errors(&syndromes, checks, erased, errors) {
        return Reading::Beyond;
    }
    for j in 0..errors.len() {
        word[j] = word[j].add(errors[j]);
    }
    Reading::Found {
        fixes: weight(errors),
    }
}

// Returns the number of symbols that are not zero.
fn weight(symbols: &[Sym]) -> u32
    requires { length symbols.now ≤ 63 }
    ensures { result ≡ nonzeros gf64 (length symbols.now) (coefficient gf64 symbols.now) }
{
    let mut count = 0;
    for symbol in symbols {
        if !symbol.is_zero() {
            count += 1;
        }
    }
    count
}
