//! Encoding of packets (PDU) as data units without status symbols.

ghost use Rattle.std.specs.Prelude.{◌≡◌, ◌+◌, ◌*◌, ◌<◌, ◌≤◌, ◌++◌, length};
ghost use Rattle.p25_bits.specs.Numbers.{joined_below};
ghost use Rattle.p25_trellis.specs.Nearest.{three_quarter_block};
ghost use Rattle.p25_packet_blocks.specs.{declared.packet.Packet.TheVariants.{Confirmed as confirmed_packet, Plain as plain_packet}, Heads.{head_blocks}};
ghost use Rattle.p25_packet_blocks.specs.{Whole.{packet_head, AreGood, IsWholePacket}, Lengths.{packet_bare_length, packet_sent_length}};
ghost use Rattle.p25_packet_blocks.specs.Image.{confirmed_octets, body_block, packet_image_of};
ghost use Rattle.p25_packet_blocks.specs.Sendable.{IsHead, IsDataBlock, IsSendableConfirmed, IsSendablePlain, IsSendable};

use crate::block::{Block, Slot};
use crate::head::PacketHead;
use crate::packet::{Confirmed, Packet, Plain};
use crate::read::{BLOCK_LENGTH, HEADER_AT};
use p25_bch_nid::{Nid, PDU};
use p25_bits::BitBuf;
use p25_bits::laws::octets_fit;
use p25_crc::{crc9, crc16, crc32};
use p25_status::{BARE_BLOCK_LENGTH, BoundedList, SENT_BLOCK_LENGTH};
use p25_trellis::{Half, ThreeQuarter, encode_block};
use p25_unit_front::put_front;

/// Returns the length of the transmitted data unit of a packet (PDU), by the blocks to follow of its header. It is 112
/// bits, and 196 for each block and the header block, filled to a multiple of 70, with two status bits for each 70.
/// TIA-102.BAAA, Packet Data, Status Symbols.
pub fn packet_length(head: &PacketHead) -> usize
    ensures value { result ≡ packet_sent_length (head_blocks head.now) }
    ensures least { 360 ≤ result }
    ensures most { result ≤ 25920 }
{
    SENT_BLOCK_LENGTH * parts(head)
}

// Returns the number of groups of 70 bits that the data unit of a packet (PDU) fills.
fn parts(head: &PacketHead) -> usize
    ensures parts { 70 * result ≡ packet_bare_length (head_blocks head.now) }
    ensures sent { 72 * result ≡ packet_sent_length (head_blocks head.now) }
    ensures least { 5 ≤ result }
    ensures most { result ≤ 360 }
{
    (HEADER_AT + BLOCK_LENGTH * (1 + usize::from(head.blocks())) + BARE_BLOCK_LENGTH - 1)
        / BARE_BLOCK_LENGTH
}

// Appends a block of a confirmed packet (PDU).
fn put_block(block: &Block, out: &mut BitBuf)
    requires { length out.old + 196 ≤ 25928 }
    ensures list { out.new ≡ out.old ++ three_quarter_block (confirmed_octets block.now) }
    ensures len { length out.new ≡ length out.old + 196 }
    ensures block { IsDataBlock block.now }
{
    let carried = block.octets();
    // For the prover, here and below: octets are below 256.
    octets_fit(carried);
    let first = 512 * u16::from(block.serial()) + crc9(block.serial(), carried);
    let mut octets: BoundedList<u8, 18> = BoundedList::new();
    octets.extend(&first.to_be_bytes());
    octets.extend(carried);
    encode_block::<ThreeQuarter>(octets.as_slice(), out);
}

// Appends the blocks to follow of a confirmed packet (PDU).
fn put_confirmed(packet: &Confirmed, out: &mut BitBuf)
    requires whole { AreGood packet.now.slots }
    requires room { length out.old + 196 * head_blocks packet.now.head ≤ 25928 }
    ensures list { out.new ≡ out.old ++ joined_below (head_blocks packet.now.head) (body_block (confirmed_packet packet.now)) }
    ensures len { length out.new ≡ length out.old + 196 * head_blocks packet.now.head }
    ensures blocks { IsHead packet.now.head → IsSendableConfirmed packet.now }
{
    let slots = packet.slots();
    for j in 0..slots.len() {
        match slots.get(j) {
            Slot::Good(block) => put_block(&block, out),
            Slot::Bad => unreachable!(),
        }
    }
}

// Appends the blocks to follow of an unconfirmed packet (PDU).
fn put_plain(packet: &Plain, out: &mut BitBuf)
    requires { length out.old + 196 * head_blocks packet.now.head ≤ 25928 }
    ensures list { out.new ≡ out.old ++ joined_below (head_blocks packet.now.head) (body_block (plain_packet packet.now)) }
    ensures len { length out.new ≡ length out.old + 196 * head_blocks packet.now.head }
    ensures octets { IsHead packet.now.head → IsSendablePlain packet.now }
{
    let carried = packet.octets().octets();
    octets_fit(carried);
    let mut octets: BoundedList<u8, 1524> = BoundedList::new();
    octets.extend(carried);
    octets.extend(&crc32(carried).to_be_bytes());
    let octets = octets.as_slice();
    for j in 0..usize::from(packet.head().blocks()) {
        encode_block::<Half>(&octets[12 * j..12 * j + 12], out);
    }
}

// Appends the blocks to follow of a packet (PDU).
fn put_body(packet: &Packet, out: &mut BitBuf)
    requires whole { IsWholePacket packet.now }
    requires room { length out.old + 196 * head_blocks (packet_head packet.now) ≤ 25928 }
    ensures list { out.new ≡ out.old ++ joined_below (head_blocks (packet_head packet.now)) (body_block packet.now) }
    ensures len { length out.new ≡ length out.old + 196 * head_blocks (packet_head packet.now) }
    ensures sendable { IsHead (packet_head packet.now) → IsSendable packet.now }
{
    match packet {
        Packet::Confirmed(packet) => put_confirmed(packet, out),
        Packet::Plain(packet) => put_plain(packet, out),
    }
}

/// Encodes a packet (PDU): writes to `out` its data unit without status symbols, from its sync on. It consists of sync
/// and NID with DUID C, the header block, the blocks to follow in order, and nulls up to a multiple of 70 bits. It
/// requires a network access code below 4,096 and no slot that is `Bad`. TIA-102.BAAA, Packet Data.
pub fn packet_image(nac: u16, packet: &Packet, out: &mut BitBuf)
    requires nac { nac < 4096 }
    requires whole { IsWholePacket packet.now }
    ensures list { out.new ≡ packet_image_of nac packet.now }
    ensures len { length out.new ≡ packet_bare_length (head_blocks (packet_head packet.now)) }
    ensures sendable { IsSendable packet.now }
{
    let head = packet.head();
    out.clear();
    put_front(&Nid { nac, duid: PDU }, out);
    octets_fit(&head.0);
    // The header block: the header's ten octets and the header CRC.
    let mut octets: BoundedList<u8, 12> = BoundedList::new();
    octets.extend(&head.0);
    octets.extend(&crc16(&head.0).to_be_bytes());
    encode_block::<Half>(octets.as_slice(), out);
    put_body(packet, out);
    let nulls = BARE_BLOCK_LENGTH * parts(&head) - out.len();
    out.extend(&[false; BARE_BLOCK_LENGTH][..nulls]);
}
