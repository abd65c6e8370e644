//! Blocks of packets (PDU) by the trellis codes, whose 196 bits are in 25 octets, the highest bit of the first octet first.

ghost use Rattle.std.specs.Prelude.{◌≡◌, ◌++◌, length};
ghost use Rattle.p25_bits.specs.Bits.{bits_of, octet_bits};
ghost use Rattle.p25_trellis.specs.Nearest.{block_from, nearest_distance, nearest_octets};
ghost use Rattle.p25_c.specs.Blocks.{block_bits};

use p25_bits::BitBuf;
use p25_trellis::{Rate, encode_block, read_block};

/// Decodes the 196 bits of a block, in 25 octets: writes to `octets` those of the first nearest path, and returns the
/// number of bits in which the two differ. The last four bits of the last octet are ignored.
pub(crate) fn read_octet_block<R: Rate>(bits: &[u8], octets: &mut [u8]) -> u32
    requires bits { length bits.now ≡ 25 }
    requires octets { length octets.old ≡ R.OCTETS }
    ensures octets { octets.new ≡ nearest_octets R.STATES R.BITS_PER_SYMBOL R.point_of (block_bits bits.now) }
    ensures distance { result ≡ nearest_distance R.STATES R.point_of (block_bits bits.now) }
{
    let mut received = BitBuf::new();
    received.put_numbers(bits, 8);
    read_block::<R>(&received, 0, octets)
}

/// Encodes octets: writes to 25 octets the 196 bits of their block, and 0 to the last four bits.
pub(crate) fn write_octet_block<R: Rate>(octets: &[u8], bits: &mut [u8])
    requires octets { length octets.now ≡ R.OCTETS }
    requires bits { length bits.old ≡ 25 }
    ensures { octet_bits bits.new ≡ block_from R.BITS_PER_SYMBOL R.point_of octets.now ++ bits_of 4 0 }
{
    let mut block = BitBuf::new();
    encode_block::<R>(octets, &mut block);
    block.put_field(0, 4);
    block.take_numbers(0, 8, bits);
}

#[cfg(test)]
mod tests;
