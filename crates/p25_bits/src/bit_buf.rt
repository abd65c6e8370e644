//! A list of bits of bounded length, packed into words of 64: its type and its methods. Callers see it only as the list
//! of its bits.

ghost use Rattle.std.specs.{Prelude.{◌≡◌, ⊤, ◌+◌, ◌^◌, ◌<◌, ◌≤◌, ◌↔◌, Bool, IsTrue, List, [], ◌∷◌, ◌++◌, length, take, drop, slice_get, slice_set}, Bool.{beq}};
ghost use Rattle.std.specs.{Cmp.{bool_eq_equiv, partial_equiv_from_equiv}, Cmp.Lexicographic.{pointwise, lists_equiv}};
ghost use Rattle.p25_bits.specs.{Bits.{bits_of, field_of, part, flipped}, Distance.{distance_of}, Numbers.{number_bits}};

use super::numbers::number_of;
use super::words::{append_windows, beginning, differing, put_window, shift_down, window};
use std::alloc::AllocError;
use std::fmt;
use std::marker::Model;

/// The most bits that a `BitBuf` holds: those of the longest data unit, 25,920, and one octet more.
pub const BITS_MOST: usize = 25_928;

/// A list of at most 25,928 bits.
#[derive(Drop)]
pub struct BitBuf {
    words: [u64; 407],
    len: usize,
}

impl Model for BitBuf {
    ghost Value = { List Bool };

    ghost view = { λ b. take b.len (number_bits 64 b.words) };

    ghost invariant = { λ b. b.len ≤ 25928 };
}

impl BitBuf {
    /// Returns an empty list.
    pub fn new() -> BitBuf
        ensures { result ≡ [] }
    {
        BitBuf {
            words: [0; 407],
            len: 0,
        }
    }

    /// Returns the number of bits held, at most `BITS_MOST`.
    pub fn len(&self) -> usize
        ensures value { result ≡ length self.now }
        ensures most { result ≤ 25928 }
        ensures limit { BITS_MOST ≡ 25928 }
    {
        self.len
    }

    /// Returns whether the list holds no bit.
    pub fn is_empty(&self) -> bool
        ensures { IsTrue result ↔ (self.now ≡ []) }
    {
        self.len() == 0
    }

    /// Empties the list.
    pub fn clear(&mut self)
        ensures { self.new ≡ [] }
    {
        self.len = 0;
    }

    /// Appends a bit.
    pub fn push(&mut self, bit: bool)
        requires { length self.old < 25928 }
        ensures list { self.new ≡ self.old ++ bit ∷ [] }
        ensures len { length self.new ≡ length self.old + 1 }
    {
        let word = self.len / 64;
        self.words[word] = beginning(
            self.words[word],
            (self.len % 64) as u32,
            u64::from(bit) << 63,
        );
        self.len += 1;
    }

    /// Returns the bit at position `i`.
    pub fn get(&self, i: usize) -> bool
        requires { i < length self.now }
        ensures { slice_get self.now i ≡ Some result }
    {
        (self.words[i / 64] >> (63 - i % 64)) & 1 == 1
    }

    /// Replaces the bit at position `i`.
    pub fn set(&mut self, i: usize, bit: bool)
        requires { i < length self.old }
        ensures list { self.new ≡ slice_set self.old i bit }
        ensures len { length self.new ≡ length self.old }
    {
        if self.get(i) != bit {
            self.flip(i);
        }
    }

    /// Inverts the bit at position `i`.
    pub fn flip(&mut self, i: usize)
        requires { i < length self.old }
        ensures list { self.new ≡ flipped self.old i }
        ensures len { length self.new ≡ length self.old }
    {
        self.words[i / 64] ^= 1 << (63 - i % 64);
    }
}

impl BitBuf {
    /// Returns the number that is written by `width` bits from position `at` on, the first bit highest.
    pub fn field(&self, at: usize, width: u32) -> u64
        requires width { width ≤ 64 }
        requires there { at + width ≤ length self.now }
        ensures value { result ≡ field_of (part at width self.now) }
        ensures fits { result < 2 ^ width }
    {
        if width == 0 {
            return 0;
        }
        window(&self.words, at) >> (64 - width)
    }

    /// Appends `width` bits of a number, the highest first.
    pub fn put_field(&mut self, value: u64, width: u32)
        requires width { width ≤ 64 }
        requires fits { value < 2 ^ width }
        requires room { length self.old + width ≤ 25928 }
        ensures list { self.new ≡ self.old ++ bits_of width value }
        ensures len { length self.new ≡ length self.old + width }
    {
        if width == 0 {
            return;
        }
        put_window(&mut self.words, self.len, value << (64 - width));
        self.len += width as usize;
    }

    /// Appends `count` bits of another list, from its position `at` on.
    pub fn append(&mut self, other: &BitBuf, at: usize, count: usize)
        requires there { at + count ≤ length other.now }
        requires room { length self.old + count ≤ 25928 }
        ensures list { self.new ≡ self.old ++ part at count other.now }
        ensures len { length self.new ≡ length self.old + count }
    {
        let words = count.div_ceil(64);
        append_windows(&mut self.words, self.len, &other.words, at, words);
        self.len += count;
    }

    /// Appends the bits of a slice, in order.
    pub fn extend(&mut self, bits: &[bool])
        requires { length self.old + length bits.now ≤ 25928 }
        ensures list { self.new ≡ self.old ++ bits.now }
        ensures len { length self.new ≡ length self.old + length bits.now }
    {
        for k in 0..bits.len() / 64 {
            self.put_field(number_of(&bits[64 * k..64 * k + 64]), 64);
        }
        let rest = &bits[64 * (bits.len() / 64)..];
        self.put_field(number_of(rest), rest.len() as u32);
    }

    /// Removes the first `n` bits.
    pub fn drop_front(&mut self, n: usize)
        requires { n ≤ length self.old }
        ensures list { self.new ≡ drop n self.old }
        ensures len { length self.new + n ≡ length self.old }
    {
        let left = self.len - n;
        shift_down(&mut self.words, n, left.div_ceil(64));
        self.len = left;
    }

    /// Returns the number of positions in which two lists of the same length differ (their Hamming distance).
    pub fn distance(a: &BitBuf, b: &BitBuf) -> u32
        requires { length a.now ≡ length b.now }
        ensures { result ≡ distance_of a.now b.now }
    {
        let words = a.len / 64;
        let rest = (a.len % 64) as u32;
        differing(&a.words, &b.words, words)
            + (a.field(64 * words, rest) ^ b.field(64 * words, rest)).count_ones()
    }
}

/// Two lists are equal if they hold the same bits, whatever they held before.
impl PartialEq for BitBuf {
    ghost eq = { pointwise beq };

    ghost laws = { partial_equiv_from_equiv (lists_equiv bool_eq_equiv) };

    fn eq(&self, other: &BitBuf) -> bool {
        self.len() == other.len() && BitBuf::distance(self, other) == 0
    }
}

impl Eq for BitBuf {
    ghost laws = { lists_equiv bool_eq_equiv };
}

impl Default for BitBuf {
    ghost is_default = { λ bits. bits ≡ [] };

    /// Returns an empty list.
    fn default() -> BitBuf {
        BitBuf::new()
    }
}

impl Clone for BitBuf {
    ghost is_clone = { λ bits copy. copy ≡ bits };

    ghost is_infallible = { λ _. ⊤ };

    fn clone(&self) -> Result<BitBuf, AllocError> {
        Ok(BitBuf {
            words: self.words,
            len: self.len,
        })
    }
}

/// Writes the bits of a list, as `BitBuf(0101)`. No contract states this.
impl fmt::Debug for BitBuf {
    fn fmt<W: fmt::Write>(&self, f: &mut fmt::Formatter<W>) -> fmt::Result {
        f.write_str("BitBuf(")?;
        for i in 0..self.len() {
            f.write_str(if self.get(i) { "1" } else { "0" })?;
        }
        f.write_str(")")
    }
}
