//! Packets built

ghost use Rattle.std.specs.Prelude.{◌≡◌, ℕ, ◌-◌, ◌*◌, ◌<◌, ◌≤◌, pos, IfSome, slice_index, take, true};
ghost use Rattle.p25_c.specs.{Building.{IsWritingUnder}, Packets.{confirmed_of, is_sendable_at, packet_built, packet_held, slot_held, slots_held}};
ghost use Rattle.p25_packet_blocks.specs.{Heads.{confirmed_format, head_blocks, head_format}, Kinds.{IsPlainFormat}, Reading.{plain_by_parts}};
ghost use Rattle.p25_packet_blocks.specs.Whole.{IsWholePacket};

use crate::answers::WRONG_PACKET;
use crate::building::{sent_symbol, write_whole};
use crate::packets::PacketParts;
use p25_packet_blocks::{
    Block, CONFIRMED_FORMAT, Confirmed, Octets, PLAIN_FORMAT, Packet, PacketHead, Plain,
    RESPONSE_FORMAT, Slot, Slots,
};
use p25_units::{Body, Unit};

/// Writes the octets of the data unit of a packet (PDU), with the status symbol `status`, 0 to 3, everywhere, and with its CRCs.
/// The call looks at the members nac, head and octets of `packet`, and of a confirmed packet at good and serials too; head states
/// the format and how many blocks there are. Returns how many octets it wrote, 45 to `P25_UNIT_ROOM`; the octets of the buffer
/// after them stay.
///
/// Else it writes nothing and returns the first of these that applies: `P25_WRONG_NAC`; `P25_WRONG_STATUS`; `P25_WRONG_PACKET`,
/// if the format is none of the three, or a block of a confirmed packet is 0 in good or has a serial number above 127;
/// `P25_NO_ROOM`. Since 1.1.
#[unsafe(no_mangle)]
pub extern "C" fn p25_build_packet(packet: &PacketParts, status: u8, octets: &mut [u8]) -> i32
    ensures built { IsWritingUnder packet.now.nac status (λ symbol. packet_built symbol packet.now) octets.old octets.new result }
    ensures count { (count : ℕ) → result ≡ pos count → (45 ≤ count) × (count ≤ 3240) }
{
    match sent_symbol(packet.nac, status) {
        Ok(symbol) => match packet_held(packet) {
            Some(held) => write_whole(Unit::new(packet.nac, Body::Packet(held)), symbol, octets),
            None => WRONG_PACKET,
        },
        Err(answer) => answer,
    }
}

// The packet of numbers and octets.
fn packet_held(packet: &PacketParts) -> Option<Packet>
    ensures value { result ≡ packet_held packet.now }
    ensures whole { IfSome result IsWholePacket }
{
    let octets = packet.head;
    let head = PacketHead(octets);
    match head.format() {
        CONFIRMED_FORMAT => confirmed_held(head, packet),
        PLAIN_FORMAT | RESPONSE_FORMAT => Some(plain_held(head, packet)),
        _ => None,
    }
}

// The confirmed packet of numbers and octets.
fn confirmed_held(head: PacketHead, packet: &PacketParts) -> Option<Packet>
    requires { head_format head ≡ confirmed_format }
    ensures value { result ≡ confirmed_of head (slots_held (head_blocks head) packet.now) }
    ensures whole { IfSome result IsWholePacket }
{
    let mut slots = Slots::new();
    for j in 0..usize::from(head.blocks()) {
        if !is_sendable_at(packet, j) {
            return None;
        }
        slots.push(slot_held(packet, j));
    }
    Some(Packet::Confirmed(Confirmed::new(head, slots)))
}

// Whether the block at an index can be sent: it is good, and its serial number has seven bits.
fn is_sendable_at(packet: &PacketParts, j: usize) -> bool
    requires { j < 127 }
    ensures value { result ≡ is_sendable_at packet.now j }
    ensures serial { result ≡ true → slice_index packet.now.serials j < 128 }
{
    packet.good[j] != 0 && packet.serials[j] < 128
}

// The block at an index of numbers and octets.
fn slot_held(packet: &PacketParts, j: usize) -> Slot
    requires there { j < 127 }
    requires serial { slice_index packet.now.serials j < 128 }
    ensures { result ≡ slot_held packet.now j }
{
    let mut octets = [0; 16];
    octets.copy_from_slice(&packet.octets[16 * j..16 * j + 16]);
    Slot::Good(Block::new(packet.serials[j], octets))
}

// The packet that is not confirmed, of numbers and octets.
fn plain_held(head: PacketHead, packet: &PacketParts) -> Packet
    requires { IsPlainFormat (head_format head) }
    ensures value { result ≡ plain_by_parts head (take (12 * head_blocks head - 4) packet.now.octets) }
    ensures whole { IsWholePacket result }
{
    let mut octets = Octets::new();
    let count = (12 * usize::from(head.blocks())).saturating_sub(4);
    octets.extend(&packet.octets[..count]);
    Packet::Plain(Plain::new(head, octets))
}
