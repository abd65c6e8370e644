//! Blocks: octets to transmitted bits, and received bits to the octets of the first nearest path.

ghost use Rattle.std.specs.Prelude.{◌≡◌, ◌+◌, ◌≤◌, List, Bool, ◌++◌, length};
ghost use Rattle.p25_bits.specs.Bits.{part};
ghost use Rattle.p25_trellis.specs.Trellis.{IsBlock, IsFirstLeastReading, IsNearReading, distance_from};
ghost use Rattle.p25_trellis.specs.Nearest.{nearest_octets, nearest_distance, block_from};

use super::exact::path_along;
use super::groups::regroup;
use super::near::read_near;
use super::nibbles::{append_nibbles, take_nibbles};
use super::path::{nibbles_of, octets_of};
use super::rate::Rate;
use p25_bits::BitBuf;

/// Encodes octets: appends their block of 196 bits, the transmitted bits of the one path that carries them
/// (TIA-102.BAAA, Trellis Coding of data blocks). It requires 12 octets at half rate and 18 at three-quarter rate; the
/// most significant bit of each is first.
pub fn encode_block<R: Rate>(octets: &[u8], out: &mut BitBuf)
    requires octets { length octets.now ≡ R.OCTETS }
    requires room { length out.old + 196 ≤ 25928 }
    ensures block { (block : List Bool) × IsBlock R.STATES R.BITS_PER_SYMBOL R.point_of octets.now block × (out.new ≡ out.old ++ block) }
    ensures only { (block : List Bool) → IsBlock R.STATES R.BITS_PER_SYMBOL R.point_of octets.now block → out.new ≡ out.old ++ block }
    ensures value { out.new ≡ out.old ++ block_from R.BITS_PER_SYMBOL R.point_of octets.now }
    ensures len { length out.new ≡ length out.old + 196 }
{
    // The symbols that the bits of the octets write, and then 0.
    let mut path = [0; 49];
    regroup(octets, 8, R::BITS_PER_SYMBOL, &mut path[..48]);
    append_nibbles(&nibbles_of::<R>(&path), out);
}

/// Decodes the 196 bits from position `at` on: writes to `octets` those of the first nearest path, and returns its
/// distance. The distance is the number of bits in which the path's transmitted bits differ. No path's transmitted bits
/// are nearer; if several are as near, it is the first in dictionary order of symbols. So a block with at most 2 bit
/// errors at half rate, or 1 at three-quarter rate, decodes to the transmitted octets. TIA-102.BAAA, Trellis Coding.
pub fn read_block<R: Rate>(bits: &BitBuf, at: usize, octets: &mut [u8]) -> u32
    requires there { at + 196 ≤ length bits.now }
    requires octets { length octets.old ≡ R.OCTETS }
    ensures nearest { IsFirstLeastReading R.STATES R.BITS_PER_SYMBOL (distance_from R.point_of (part at 196 bits.now)) octets.new result }
    ensures octets { octets.new ≡ nearest_octets R.STATES R.BITS_PER_SYMBOL R.point_of (part at 196 bits.now) }
    ensures distance { result ≡ nearest_distance R.STATES R.point_of (part at 196 bits.now) }
    ensures near { IsNearReading R.STATES R.BITS_PER_SYMBOL R.point_of R.APART (part at 196 bits.now) octets.new result }
{
    let received = take_nibbles(bits, at);
    // Usually they are the nibbles of a path; then no other path is as near.
    match path_along::<R>(&received) {
        Some(path) => {
            octets_of::<R>(&path, octets);
            0
        }
        None => read_near::<R>(&received, octets),
    }
}

#[cfg(test)]
mod tests;
