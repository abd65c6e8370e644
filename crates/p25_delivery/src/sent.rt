//! The packets (PDU) that stations transmit.
#![tactic(auto, unfolding(crate::specs::SentPackets::opening_packet, crate::specs::SentPackets::short_response, crate::specs::SentPackets::retry_packet))]

ghost use Rattle.std.specs.Prelude.{◌≡◌, ◌<◌, ◌≤◌, length};
ghost use Rattle.p25_delivery.specs.{MessageBlocks.{block_count}, SentPackets.{message_packet, blocks_packet, opening_packet, short_response, retry_packet}};

use crate::LLID;
use crate::message_octets::{MessageOctets, blocks_for, pad_for};
use p25_messages::Message;
use p25_packet_blocks::{
    Confirmed, Flags, Octets, Packet, PacketHead, Plain, Slot, Slots, flags_make,
};

// Returns the whole packet (PDU) of a message.
pub(crate) fn message(number: u8, message: &Message) -> Packet
    requires { number < 8 }
    ensures { result ≡ message_packet number message.now }
{
    let octets = MessageOctets::of(message);
    let count = blocks_for(message);
    let mut slots = Slots::new();
    for serial in 0..count {
        slots.push(Slot::Good(octets.block(serial)));
    }
    let head = PacketHead::confirmed(LLID, true, count, pad_for(message), number);
    Packet::Confirmed(Confirmed::new(head, slots))
}

// Returns the packet (PDU) of the requested blocks of a message, in the order of their serial numbers.
pub(crate) fn blocks(number: u8, message: &Message, wanted: &Flags) -> Packet
    requires number { number < 8 }
    requires flags { block_count (length message.now) ≤ length wanted.now }
    ensures { result ≡ blocks_packet number message.now wanted.now }
{
    let octets = MessageOctets::of(message);
    let mut slots = Slots::new();
    for serial in 0..blocks_for(message) {
        if wanted.get(serial as usize) {
            slots.push(Slot::Good(octets.block(serial)));
        }
    }
    let head = PacketHead::confirmed(LLID, false, slots.len() as u8, pad_for(message), number);
    Packet::Confirmed(Confirmed::new(head, slots))
}

// Returns the packet (PDU) that opens the session anew.
pub(crate) fn opening(number: u8) -> Packet
    requires { number < 8 }
    ensures { result ≡ opening_packet number }
{
    Packet::Confirmed(Confirmed::new(PacketHead::opening(LLID, number), Slots::new()))
}

// The class and the type of ACK; of NACK for a wrong packet CRC; and of NACK for a number out of sequence.
pub(crate) const ACK: (u8, u8) = (0, 1);

pub(crate) const CRC_NACK: (u8, u8) = (1, 1);

pub(crate) const ORDER_NACK: (u8, u8) = (1, 5);

// The class of selective retry.
pub(crate) const RETRY_CLASS: u8 = 2;

// Returns a response of no blocks, by its class and its type.
pub(crate) fn short(kind: (u8, u8), status: u8) -> Packet
    requires class { kind.0 < 4 }
    requires kind { kind.1 < 8 }
    requires status { status < 8 }
    ensures { result ≡ short_response kind.0 kind.1 status }
{
    let head = PacketHead::response(LLID, kind.0, kind.1, status, 0);
    Packet::Plain(Plain::new(head, Octets::new()))
}

// Returns a selective retry, with the flags of the received blocks.
pub(crate) fn retry(status: u8, flags: &Flags) -> Packet
    requires { status < 8 }
    ensures { result ≡ retry_packet status flags.now }
{
    let blocks = if flags.len() <= 64 { 1 } else { 2 };
    let head = PacketHead::response(LLID, RETRY_CLASS, 0, status, blocks);
    Packet::Plain(Plain::new(head, flags_make(flags)))
}
