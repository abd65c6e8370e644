//! Codewords written instead of others.

ghost use Rattle.std.specs.Prelude.{◌≡◌, ◌+◌, ◌*◌, ◌≤◌, ◌++◌, All, length, take, drop};
ghost use Rattle.p25_bits.specs.Bits.{part};
ghost use Rattle.p25_decide.specs.DecidedUnits.{with_words};

use p25_bits::BitBuf;

// Writes the `size` bits of `words` from position `from` on instead of those at position `at`.
fn put_word(words: &BitBuf, from: usize, size: usize, at: usize, bare: &mut BitBuf)
    requires from { from + size ≤ length words.now }
    requires there { at + size ≤ length bare.old }
    ensures list { bare.new ≡ take at bare.old ++ (part from size words.now ++ drop (at + size) bare.old) }
    ensures len { length bare.new ≡ length bare.old }
{
    // For the prover: the numbers of bits held bound all positions.
    let _ = (words.len(), bare.len());
    for i in 0..size {
        bare.set(at + i, words.get(from + i));
    }
}

// Writes codewords of `size` bits, one after the other, instead of the bits at some positions.
pub(crate) fn put_words(words: &BitBuf, size: usize, places: &[usize], bare: &mut BitBuf)
    requires words { size * length places.now ≤ length words.now }
    requires there { All (λ at. at + size ≤ length bare.old) places.now }
    ensures list { bare.new ≡ with_words size places.now words.now bare.old }
    ensures len { length bare.new ≡ length bare.old }
{
    // For the prover: the number of bits held bounds all positions.
    let _ = words.len();
    for (i, at) in places.iter().enumerate() {
        put_word(words, size * i, size, *at, bare);
    }
}
