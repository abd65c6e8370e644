//! Decoding of packets (PDU) from data units without status symbols.

ghost use Rattle.std.specs.Prelude.{◌≡◌, ◌+◌, ◌*◌, ◌≤◌, ◌==◌, length, take, drop, IfOk};
ghost use Rattle.p25_bits.specs.{Bits.{part}, Numbers.{octets_number}};
ghost use Rattle.p25_crc.specs.Values.{crc32_of};
ghost use Rattle.p25_packet_blocks.specs.Fixes.{three_quarter_distance};
ghost use Rattle.p25_packet_blocks.specs.Reading.{head_reading_of, read_head_of, slot_from, slots_read, packet_reading_of, HasItsLength};

use crate::block::{Block, Slot, Slots};
use crate::head::{PacketHead, ReadHead};
use crate::packet::Packet;
use p25_bits::BitBuf;
use p25_crc::{crc9, crc16, crc32};
use p25_status::Field;
use p25_trellis::{Half, ThreeQuarter, read_block};

/// The position of the header block in the data unit of a packet (PDU) without status symbols, after sync and NID.
/// TIA-102.BAAA, Packet Data.
pub const HEADER_AT: usize = 112;

/// The position of the blocks to follow in the data unit of a packet (PDU) without status symbols. TIA-102.BAAA, Packet
/// Data.
pub const BLOCKS_AT: usize = 308;

/// The number of bits of a block of a packet (PDU): 98 dibits. TIA-102.BAAA, Trellis Coding.
pub const BLOCK_LENGTH: usize = 196;

// Returns the header in the block at a position, and the number of bit errors of the block.
pub(crate) fn read_header(bits: &BitBuf, at: usize) -> Result<ReadHead, Field>
    requires { at + 196 ≤ length bits.now }
    ensures read { result ≡ read_head_of (part at 196 bits.now) }
    ensures few { IfOk result (λ read. read.wrong ≤ 196) }
{
    let mut octets = [0; 12];
    let wrong = read_block::<Half>(bits, at, &mut octets);
    let mut head = [0; 10];
    head.copy_from_slice(&octets[..10]);
    if u16::from_be_bytes([octets[10], octets[11]]) == crc16(&head) {
        Ok(ReadHead {
            head: PacketHead(head),
            wrong,
        })
    } else {
        Err(Field::PacketHeader)
    }
}

/// Decodes the header of a packet (PDU) from the header block of its data unit. It requires in `bare` at least the 308
/// bits of sync, NID and header block, without status symbols. `PacketHeader` is returned if and only if the last two
/// octets of the block are not the header CRC of the others. TIA-102.BAAA, Packet Data, Header Block.
pub fn read_head(bare: &BitBuf) -> Result<PacketHead, Field>
    requires { 308 ≤ length bare.now }
    ensures { result ≡ head_reading_of bare.now }
{
    Ok(read_header(bare, HEADER_AT)?.head)
}

// Returns the slot of the octets of a block of a confirmed packet (PDU).
fn slot_in(octets: &[u8; 18]) -> Slot
    ensures { result ≡ slot_from octets.now }
{
    let serial = octets[0] / 2;
    let check = 256 * u16::from(octets[0] % 2) + u16::from(octets[1]);
    let mut carried = [0; 16];
    carried.copy_from_slice(&octets[2..]);
    if check == crc9(serial, &carried) {
        Slot::Good(Block::new(serial, carried))
    } else {
        Slot::Bad
    }
}

// Decodes the blocks to follow of a confirmed packet (PDU) into `slots`, and returns the number of bit errors of the
// blocks.
pub(crate) fn read_slots(bare: &BitBuf, blocks: usize, slots: &mut Slots) -> u32
    requires blocks { blocks ≤ 127 }
    requires there { 308 + 196 * blocks ≤ length bare.now }
    ensures list { slots.new ≡ slots_read blocks bare.now }
    ensures len { length slots.new ≡ blocks }
    ensures wrong { result ≡ three_quarter_distance blocks bare.now }
    ensures few { result ≤ 25088 }
{
    slots.clear();
    let mut wrong = 0;
    let mut octets = [0; 18];
    for j in 0..blocks {
        wrong += read_block::<ThreeQuarter>(bare, BLOCKS_AT + BLOCK_LENGTH * j, &mut octets);
        slots.push(slot_in(&octets));
    }
    wrong
}

// Returns whether the last four octets of a packet (PDU) are the packet CRC of the others.
pub(crate) fn check_agrees(octets: &[u8], count: usize) -> bool
    requires { length octets.now ≡ count + 4 }
    ensures { result ≡ (octets_number (drop count octets.now) == crc32_of (take count octets.now)) }
{
    let mut check = [0; 4];
    check.copy_from_slice(&octets[count..]);
    u32::from_be_bytes(check) == crc32(&octets[..count])
}

/// Decodes the packet (PDU) of a data unit without status symbols, from its sync on. It requires at least 308 bits and,
/// if the header is decoded, at least as many bits as the blocks to follow need. The errors are tested in this order:
///
/// - `PacketHeader` is returned if and only if the header CRC does not agree.
/// - `Format` is returned if and only if the format is none of 16, 15 and 03 hex.
/// - `PacketCrc` is returned if and only if the format is 15 or 03 hex, there are blocks to follow and the packet CRC
///   does not agree.
///
/// The slot of a confirmed block is `Bad` if and only if its CRC-9 does not agree. TIA-102.BAAA, Packet Data.
pub fn read_packet(bare: &BitBuf) -> Result<Packet, Field>
    requires header { 308 ≤ length bare.now }
    requires blocks { HasItsLength bare.now }
    ensures { result ≡ packet_reading_of bare.now }
{
    let read = read_header(bare, HEADER_AT)?;
    let mut packet = Packet::empty();
    packet.read_blocks(read, bare)?;
    Ok(packet)
}
