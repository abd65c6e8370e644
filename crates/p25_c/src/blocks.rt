//! Blocks of packets
//!
//! A block at half rate carries 12 octets, one at three-quarter rate 18, by a trellis path of 196 bits, interleaved in the order
//! of transmission. The bits fill 25 octets, the most significant bit first, but for the last four bits of the last octet.

ghost use Rattle.std.specs.Prelude.{◌≡◌, ◌++◌};
ghost use Rattle.p25_bits.specs.Bits.{bits_of, octet_bits};
ghost use Rattle.p25_trellis.specs.Nearest.{half_block, half_octets, nearest_distance, three_quarter_block, three_quarter_octets};
ghost use Rattle.p25_trellis.specs.{Tables.{half_point, three_quarter_point}, Trellis.{IsFirstLeastReading}};
ghost use Rattle.p25_soft.specs.SoftPaths.{soft_cost, soft_octets};
ghost use Rattle.p25_c.specs.Blocks.{block_bits};

use crate::word_calls::{read_octet_block, write_octet_block};
use p25_soft::read_soft;
use p25_trellis::{Half, ThreeQuarter};

/// Sets the octets to those of the first path at half rate that differs from the bits in the fewest, and returns in how many.
/// There always is one: the CRC of the block decides. Two bit errors are corrected in any case. The call does not look at the
/// last four bits of the last octet.
#[unsafe(no_mangle)]
pub extern "C" fn p25_half_rate_read(bits: &[u8; 25], octets: &mut [u8; 12]) -> u32
    ensures octets { octets.new ≡ half_octets (block_bits bits.now) }
    ensures distance { result ≡ nearest_distance 4 half_point (block_bits bits.now) }
{
    read_octet_block::<Half>(bits, octets)
}

/// Sets the octets to those of the first path at three-quarter rate that differs from the bits in the fewest, and returns in how
/// many. There always is one: the CRC of the block decides. One bit error is corrected in any case. The call does not look at the
/// last four bits of the last octet.
#[unsafe(no_mangle)]
pub extern "C" fn p25_three_quarter_rate_read(bits: &[u8; 25], octets: &mut [u8; 18]) -> u32
    ensures octets { octets.new ≡ three_quarter_octets (block_bits bits.now) }
    ensures distance { result ≡ nearest_distance 8 three_quarter_point (block_bits bits.now) }
{
    read_octet_block::<ThreeQuarter>(bits, octets)
}

/// Sets the octets to those of the first path at half rate that is nearest to 98 soft symbols, one for each two bits in the order
/// of transmission: 96 is 01, 32 is 00, -32 is 10 and -96 is 11. Returns its distance: the sum of the squares of the differences,
/// which no path has smaller.
#[unsafe(no_mangle)]
pub extern "C" fn p25_half_rate_read_levels(levels: &[i8; 98], octets: &mut [u8; 12]) -> u32
    ensures least { IsFirstLeastReading 4 2 (soft_cost half_point levels.now) octets.new result }
    ensures octets { octets.new ≡ soft_octets 4 2 half_point levels.now }
{
    read_soft::<Half>(levels, octets)
}

/// Sets the octets to those of the first path at three-quarter rate that is nearest to 98 soft symbols, and returns its distance,
/// as `p25_half_rate_read_levels` does.
#[unsafe(no_mangle)]
pub extern "C" fn p25_three_quarter_rate_read_levels(
    levels: &[i8; 98],
    octets: &mut [u8; 18],
) -> u32
    ensures least { IsFirstLeastReading 8 3 (soft_cost three_quarter_point levels.now) octets.new result }
    ensures octets { octets.new ≡ soft_octets 8 3 three_quarter_point levels.now }
{
    read_soft::<ThreeQuarter>(levels, octets)
}

/// Sets the bits to the block of 12 octets at half rate, and the last four bits of the last octet to 0.
#[unsafe(no_mangle)]
pub extern "C" fn p25_half_rate_write(octets: &[u8; 12], bits: &mut [u8; 25])
    ensures { octet_bits bits.new ≡ half_block octets.now ++ bits_of 4 0 }
{
    write_octet_block::<Half>(octets, bits);
}

/// Sets the bits to the block of 18 octets at three-quarter rate, and the last four bits of the last octet to 0.
#[unsafe(no_mangle)]
pub extern "C" fn p25_three_quarter_rate_write(octets: &[u8; 18], bits: &mut [u8; 25])
    ensures { octet_bits bits.new ≡ three_quarter_block octets.now ++ bits_of 4 0 }
{
    write_octet_block::<ThreeQuarter>(octets, bits);
}

#[cfg(test)]
mod tests;
