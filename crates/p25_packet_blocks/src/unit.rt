//! Decoding of packets (PDU) from transmitted data units with their status symbols.

ghost use Rattle.std.specs.Prelude.{◌≡◌, ◌+◌, ◌≤◌, length, drop, IfOk};
ghost use Rattle.p25_packet_blocks.specs.UnitReading.{sent_read_of, packet_unit_of};

use crate::head::ReadHead;
use crate::image::packet_length;
use crate::packet::Packet;
use crate::read::read_header;
use p25_bch_nid::PDU;
use p25_bits::BitBuf;
use p25_status::{BARE_BLOCK_LENGTH, Field, SENT_BLOCK_LENGTH, Statuses, is_sync, unweave};
use p25_unit_front::{SENT_FRONT_LENGTH, read_front};

/// Decodes the header of the packet (PDU) whose transmitted data unit begins at position `at`, and returns it with the
/// number of bit errors of its block. It requires the 316 bits of sync, NID and header block. `PacketHeader` is
/// returned if and only if the last two octets of the block are not the header CRC of the others. TIA-102.BAAA, Packet
/// Data, Header Block.
pub fn read_head_at(bits: &BitBuf, at: usize) -> Result<ReadHead, Field>
    requires { at + 316 ≤ length bits.now }
    ensures read { result ≡ sent_read_of (drop at bits.now) }
    ensures few { IfOk result (λ read. read.wrong ≤ 196) }
{
    // For the prover: the number of bits held bounds every position below.
    let _ = bits.len();
    // The 196 bits of the header block, without the status symbols among them.
    let mut header = BitBuf::new();
    header.append(bits, at + SENT_FRONT_LENGTH, 28);
    header.append(bits, at + 2 * SENT_BLOCK_LENGTH, BARE_BLOCK_LENGTH);
    header.append(bits, at + 3 * SENT_BLOCK_LENGTH, BARE_BLOCK_LENGTH);
    header.append(bits, at + 4 * SENT_BLOCK_LENGTH, 28);
    read_header(&header, 0)
}

/// Decodes the data unit that begins at position 0, as transmitted, with its status symbols, and returns its network
/// access code (NAC) and packet (PDU). It requires at least 360 bits, as many as the shortest data unit has; bits after
/// the data unit are ignored. The errors are tested in this order:
///
/// - `Sync` is returned if and only if more than four bits of the sync are wrong.
/// - `Nid` is returned if and only if no NID lies within 11 bits.
/// - `Duid` is returned if and only if the DUID is not C.
/// - `PacketHeader` is returned if and only if the header CRC does not agree.
/// - `Length` is returned if and only if the header requires more bits than there are.
/// - `Format` and `PacketCrc` are returned as by `read_packet`.
///
/// TIA-102.BAAA, Packet Data.
pub fn read_packet_unit(bits: &BitBuf) -> Result<(u16, Packet), Field>
    requires { 360 ≤ length bits.now }
    ensures { result ≡ packet_unit_of bits.now }
{
    if !is_sync(bits, 0) {
        return Err(Field::Sync);
    }
    let nid = match read_front(bits, 0) {
        Some(front) => front.nid,
        None => return Err(Field::Nid),
    };
    if nid.duid != PDU {
        return Err(Field::Duid);
    }
    let read = read_head_at(bits, 0)?;
    let len = packet_length(&read.head);
    if bits.len() < len {
        return Err(Field::Length);
    }
    let mut bare = BitBuf::new();
    unweave(bits, 0, len, &mut bare, &mut Statuses::new());
    let mut packet = Packet::empty();
    packet.read_blocks(read, &bare)?;
    Ok((nid.nac, packet))
}
