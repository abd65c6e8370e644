//! The nibbles of a path, read from the bits of its block and written to them. Every fourth nibble is side by side
//! there, so a word holds 13 or 12 of them.

ghost use Rattle.std.specs.Prelude.{◌≡◌, ◌≢◌, ℕ, ◌+◌, ◌*◌, ◌^◌, ◌<◌, ◌≤◌, ◌++◌, All, length, drop};
ghost use Rattle.p25_bits.specs.{Bits.{bits_of}, Numbers.{number_bits, numbers_from}};
ghost use Rattle.p25_trellis.specs.Interleave.{each_fourth, interleaved};

use p25_bits::BitBuf;

// Writes every fourth nibble from number `from` on, `count` of them, from the low bits of a number, the first one
// highest.
#[inline(always)]
fn put_fourths(number: u64, from: usize, count: usize, nibbles: &mut [u8; 49])
    requires from { from < 4 }
    requires there { from + 4 * count ≤ 52 }
    requires all { 49 ≤ from + 4 * count }
    ensures set { each_fourth from nibbles.new ≡ numbers_from 4 count (bits_of (4 * count) number) }
    ensures others { (other : ℕ) → other < 4 → other ≢ from → each_fourth other nibbles.new ≡ each_fourth other nibbles.old }
{
    for k in 0..count {
        nibbles[from + 4 * k] = ((number >> (4 * (count - 1 - k))) % 16) as u8;
    }
}

// Returns the nibbles of a path, before interleaving, from the bits of its block, which begin at a position.
pub(crate) fn take_nibbles(bits: &BitBuf, at: usize) -> [u8; 49]
    requires { at + 196 ≤ length bits.now }
    ensures sent { interleaved result ≡ numbers_from 4 49 (drop at bits.now) }
    ensures len { length result ≡ 49 }
{
    // For the prover: the number of bits held bounds every position below.
    let _ = bits.len();
    let mut nibbles = [0; 49];
    put_fourths(bits.field(at, 52), 0, 13, &mut nibbles);
    put_fourths(bits.field(at + 52, 48), 1, 12, &mut nibbles);
    put_fourths(bits.field(at + 100, 48), 2, 12, &mut nibbles);
    put_fourths(bits.field(at + 148, 48), 3, 12, &mut nibbles);
    nibbles
}

// Returns the number that every fourth nibble from number `from` on, `count` of them, write, the first one highest.
#[inline(always)]
fn fourths_joined(nibbles: &[u8; 49], from: usize, count: usize) -> u64
    requires small { All (λ n. n < 16) nibbles.now }
    requires from { from < 4 }
    requires there { from + 4 * count ≤ 52 }
    requires all { 49 ≤ from + 4 * count }
    ensures bits { bits_of (4 * count) result ≡ number_bits 4 (each_fourth from nibbles.now) }
    ensures fits { result < 2 ^ (4 * count) }
{
    let mut whole = 0;
    for k in 0..count {
        whole = (whole << 4) + u64::from(nibbles[from + 4 * k]);
    }
    whole
}

// Appends the block of a path with the given nibbles.
pub(crate) fn append_nibbles(nibbles: &[u8; 49], out: &mut BitBuf)
    requires small { All (λ n. n < 16) nibbles.now }
    requires room { length out.old + 196 ≤ 25928 }
    ensures list { out.new ≡ out.old ++ number_bits 4 (interleaved nibbles.now) }
    ensures len { length out.new ≡ length out.old + 196 }
{
    out.put_field(fourths_joined(nibbles, 0, 13), 52);
    out.put_field(fourths_joined(nibbles, 1, 12), 48);
    out.put_field(fourths_joined(nibbles, 2, 12), 48);
    out.put_field(fourths_joined(nibbles, 3, 12), 48);
}
