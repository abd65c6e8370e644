//! Bits in words of 64, the first bit highest. A list of words is the list of all their bits, and positions count bits.
//! Every operation on words is in this file, so the contracts of `BitBuf` are about lists of bits alone.

ghost use Rattle.std.specs.Prelude.{◌≡◌, ◌+◌, ◌-◌, ◌*◌, ◌/◌, ◌<◌, ◌≤◌, ◌++◌, length, take};
ghost use Rattle.p25_bits.specs.{Bits.{bits_of, part}, Distance.{distance_of}, Numbers.{number_bits}};

// Returns the 64 bits from position `at` on.
pub(crate) fn window(words: &[u64], at: usize) -> u64
    requires { at / 64 + 1 < length words.now }
    ensures { bits_of 64 result ≡ part at 64 (number_bits 64 words.now) }
{
    let inner = at % 64;
    (words[at / 64] << inner) | ((words[at / 64 + 1] >> 1) >> (63 - inner))
}

// Writes the bits of a word to the 64 bits from position `at` on. The bits before them are unchanged; the contract
// leaves those after them open.
pub(crate) fn put_window(words: &mut [u64], at: usize, word: u64)
    requires { at / 64 + 1 < length words.old }
    ensures { take (at + 64) (number_bits 64 words.new) ≡ take at (number_bits 64 words.old) ++ bits_of 64 word }
{
    let inner = (at % 64) as u32;
    words[at / 64] = beginning(words[at / 64], inner, word);
    // The last `inner` bits begin the next word. There are two shifts because `inner` may be 0.
    words[at / 64 + 1] = (word << 1) << (63 - inner);
}

// Returns the first `at` bits of a word followed by the first bits of another.
pub(crate) fn beginning(word: u64, at: u32, next: u64) -> u64
    requires { at < 64 }
    ensures { bits_of 64 result ≡ take at (bits_of 64 word) ++ take (64 - at) (bits_of 64 next) }
{
    (word & ((u64::MAX << 1) << (63 - at))) | (next >> at)
}

// Appends `count` words of bits of another list, from its position `from` on, to the first `at` bits.
pub(crate) fn append_windows(words: &mut [u64], at: usize, other: &[u64], from: usize, count: usize)
    requires room { at / 64 + count < length words.old }
    requires there { from / 64 + count < length other.now }
    requires few { (length words.old ≤ 65536) × (length other.now ≤ 65536) }
    ensures { take (at + 64 * count) (number_bits 64 words.new) ≡ take at (number_bits 64 words.old) ++ part from (64 * count) (number_bits 64 other.now) }
{
    for k in 0..count {
        put_window(words, at + 64 * k, window(other, from + 64 * k));
    }
}

// Moves `count` words of bits from position `by` on to the beginning.
pub(crate) fn shift_down(words: &mut [u64], by: usize, count: usize)
    requires there { by / 64 + count < length words.old }
    requires few { length words.old ≤ 65536 }
    ensures { take (64 * count) (number_bits 64 words.new) ≡ part by (64 * count) (number_bits 64 words.old) }
{
    for k in 0..count {
        words[k] = window(words, by + 64 * k);
    }
}

// Returns the number of positions in which the bits of the first `count` words of two lists differ.
pub(crate) fn differing(a: &[u64], b: &[u64], count: usize) -> u32
    requires left { count ≤ length a.now }
    requires right { count ≤ length b.now }
    requires fits { count ≤ 65536 }
    ensures value { result ≡ distance_of (take (64 * count) (number_bits 64 a.now)) (take (64 * count) (number_bits 64 b.now)) }
    ensures most { result ≤ 64 * count }
{
    let mut places: u32 = 0;
    for k in 0..count {
        places += (a[k] ^ b[k]).count_ones();
    }
    places
}
