//! The packets (PDU) by their formats: confirmed packets, unconfirmed packets and responses.

ghost use Rattle.std.specs.Prelude.{◌≡◌, ℕ, ◌+◌, ◌-◌, ◌*◌, ◌≤◌, [], length, Ok, IfOk};
ghost use Rattle.p25_packet_blocks.specs.{Fixes.{half_distance, packet_fixes_of}, Heads.{head_format, head_blocks, response_head}, Kinds.{IsPlainFormat}};
ghost use Rattle.p25_packet_blocks.specs.Outcomes.{body_distance, failing_blocks_of, packet_or, packet_outcome_of};
ghost use Rattle.p25_packet_blocks.specs.Reading.{header_bits, octets_read, read_head_of, plain_by_parts, packet_of_head, plain_from};
ghost use Rattle.p25_status.specs.Outcomes.{IfRead, outcome_of};

use crate::block::{Slot, Slots};
use crate::head::{CONFIRMED_FORMAT, PLAIN_FORMAT, PacketHead, RESPONSE_FORMAT, ReadHead};
use crate::read::{BLOCK_LENGTH, BLOCKS_AT, check_agrees, read_slots};
use p25_bits::BitBuf;
use p25_status::{BoundedList, Field, FieldList, ReadOutcome};
use p25_trellis::{Half, read_block};
use std::marker::Model;

/// A list of at most 1,520 octets, as many as an unconfirmed packet (PDU) of 127 blocks has before its CRC.
pub type Octets = BoundedList<u8, 1520>;

/// A confirmed packet (PDU): a header of format 16 hex, and a slot for each block to follow. TIA-102.BAAA, Packet Data.
#[derive(Clone, Debug, Drop, PartialEq, Eq)]
pub struct Confirmed {
    head: PacketHead,
    slots: Slots,
}

impl Model for Confirmed {
    ghost use Rattle.p25_packet_blocks.specs.{ConfirmedParts.{ConfirmedParts}, Kinds.{IsConfirmed}};

    ghost Value = { ConfirmedParts };

    ghost view = { λ packet. record { head = packet.head; slots = packet.slots } };

    ghost invariant = { λ packet. IsConfirmed (record { head = packet.head; slots = packet.slots }) };

    ghost inverse = { λ parts. record { head = parts.head; slots = parts.slots } };
}

impl Confirmed {
    ghost use Rattle.p25_packet_blocks.specs.Kinds.{IsConfirmed};

    /// Returns the confirmed packet of a header and its slots. It requires format 16 hex, and as many slots as blocks
    /// to follow.
    pub fn new(head: PacketHead, slots: Slots) -> Confirmed
        requires { IsConfirmed (record { head = head; slots = slots }) }
        ensures { result ≡ record { head = head; slots = slots } }
    {
        Confirmed { head, slots }
    }

    /// Returns the header.
    pub fn head(&self) -> PacketHead
        ensures value { result ≡ self.now.head }
        ensures kind { IsConfirmed self.now }
    {
        self.head
    }

    /// Returns the slots, in the order of transmission.
    pub fn slots(&self) -> &Slots
        ensures value { result.now ≡ self.now.slots }
        ensures kind { IsConfirmed self.now }
    {
        &self.slots
    }
}

/// An unconfirmed packet (PDU) or a response: a header of format 15 or 03 hex, and its octets before the packet CRC.
/// These are twelve for each block to follow less four, or none if there is no block to follow. TIA-102.BAAA, Packet
/// Data.
#[derive(Clone, Debug, Drop, PartialEq, Eq)]
pub struct Plain {
    head: PacketHead,
    octets: Octets,
}

impl Model for Plain {
    ghost use Rattle.p25_packet_blocks.specs.{Parts.{PlainParts}, Kinds.{IsPlain}};

    ghost Value = { PlainParts };

    ghost view = { λ packet. record { head = packet.head; octets = packet.octets } };

    ghost invariant = { λ packet. IsPlain (record { head = packet.head; octets = packet.octets }) };

    ghost inverse = { λ parts. record { head = parts.head; octets = parts.octets } };
}

impl Plain {
    ghost use Rattle.p25_packet_blocks.specs.Kinds.{IsPlain};

    /// Returns the packet of a header and its octets. It requires format 15 or 03 hex, and twelve octets for each block
    /// to follow less four, or none if there is no block to follow.
    pub fn new(head: PacketHead, octets: Octets) -> Plain
        requires { IsPlain (record { head = head; octets = octets }) }
        ensures { result ≡ record { head = head; octets = octets } }
    {
        Plain { head, octets }
    }

    /// Returns the header.
    pub fn head(&self) -> PacketHead
        ensures value { result ≡ self.now.head }
        ensures kind { IsPlain self.now }
    {
        self.head
    }

    /// Returns the octets before the packet CRC, in order.
    pub fn octets(&self) -> &Octets
        ensures value { result.now ≡ self.now.octets }
        ensures kind { IsPlain self.now }
    {
        &self.octets
    }
}

/// A packet (PDU), confirmed or not. TIA-102.BAAA, Packet Data.
#[derive(Clone, Debug, Drop, PartialEq, Eq)]
pub enum Packet {
    /// A packet whose blocks are confirmed one by one.
    Confirmed(Confirmed),
    /// An unconfirmed packet or a response.
    Plain(Plain),
}

impl Packet {
    /// Returns a response of no blocks, as a buffer into which a packet is decoded.
    pub fn empty() -> Packet
        ensures { result ≡ plain_by_parts (response_head 0 0 0 0 0) [] }
    {
        Packet::Plain(Plain::new(PacketHead::response(0, 0, 0, 0, 0), Octets::new()))
    }

    /// Decodes a data unit without status symbols, whose header was decoded before, into this packet (PDU). Returns the
    /// fields of it that fail, or the number of corrected bits of its header block and its other blocks. `Format` and
    /// `PacketCrc` are returned as by `read_packet`, alone. Otherwise a block fails if and only if its slot is `Bad`,
    /// and the packet is written nevertheless. A packet is large, so it is written in its buffer and not moved.
    /// TIA-102.BAAA, Packet Data.
    pub fn read(&mut self, read: ReadHead, bare: &BitBuf) -> ReadOutcome
        requires head { read_head_of (header_bits bare.now) ≡ Ok read }
        requires there { 308 + 196 * head_blocks read.head ≤ length bare.now }
        ensures outcome { result ≡ packet_outcome_of read bare.now }
        ensures packet { IfOk (packet_of_head read.head bare.now) (λ packet. self.new ≡ packet) }
        ensures wrong { IfRead result (λ wrong. (nac : ℕ) → wrong ≡ packet_fixes_of nac self.new bare.now) }
    {
        match self.read_blocks(read, bare) {
            Err(field) => ReadOutcome::failing(field),
            Ok(wrong) => self.outcome(wrong),
        }
    }

    // Returns the outcome of decoding the packet (PDU) with `wrong` bit errors: a block fails for each slot that is
    // `Bad`.
    fn outcome(&self, wrong: u32) -> ReadOutcome
        ensures { result ≡ outcome_of (failing_blocks_of self.now) wrong }
    {
        let Packet::Confirmed(packet) = self else {
            return ReadOutcome::Read { wrong };
        };
        let slots = packet.slots();
        let mut failing = FieldList::new();
        for j in 0..slots.len() {
            if let Slot::Bad = slots.get(j) {
                failing.push(Field::Block(j as u8));
            }
        }
        ReadOutcome::of(failing, wrong)
    }

    // Decodes the blocks of a data unit whose header was decoded. Returns the number of bit errors, or the field for
    // which there is no packet: `Format` or `PacketCrc`. If the packet was of the same type before, no buffer is moved.
    pub(crate) fn read_blocks(&mut self, read: ReadHead, bare: &BitBuf) -> Result<u32, Field>
        requires few { read.wrong ≤ 196 }
        requires there { 308 + 196 * head_blocks read.head ≤ length bare.now }
        ensures packet { packet_or result self.new ≡ packet_of_head read.head bare.now }
        ensures wrong { IfOk result (λ wrong. wrong ≡ read.wrong + body_distance read.head bare.now) }
    {
        match read.head.format() {
            CONFIRMED_FORMAT => {
                let blocks = usize::from(read.head.blocks());
                match self {
                    Packet::Confirmed(held) => {
                        held.head = read.head;
                        Ok(read.wrong + read_slots(bare, blocks, &mut held.slots))
                    }
                    Packet::Plain(_) => {
                        let mut slots = Slots::new();
                        let wrong = read_slots(bare, blocks, &mut slots);
                        *self = Packet::Confirmed(Confirmed::new(read.head, slots));
                        Ok(read.wrong + wrong)
                    }
                }
            }
            PLAIN_FORMAT | RESPONSE_FORMAT => self.read_plain(read, bare),
            _ => Err(Field::Format),
        }
    }

    // Decodes the blocks to follow of an unconfirmed packet, as `read_blocks` does. The last four octets of its blocks
    // are the packet CRC of the others; if there is no block, there is none.
    fn read_plain(&mut self, read: ReadHead, bare: &BitBuf) -> Result<u32, Field>
        requires format { IsPlainFormat (head_format read.head) }
        requires few { read.wrong ≤ 196 }
        requires there { 308 + 196 * head_blocks read.head ≤ length bare.now }
        ensures packet { packet_or result self.new ≡ plain_from read.head (octets_read (head_blocks read.head) bare.now) }
        ensures wrong { IfOk result (λ wrong. wrong ≡ read.wrong + half_distance (head_blocks read.head) bare.now) }
    {
        let blocks = usize::from(read.head.blocks());
        let count = (12 * blocks).saturating_sub(4);
        let mut room = [0; 1524];
        let octets = &mut room[..12 * blocks];
        let mut wrong = 0;
        for j in 0..blocks {
            wrong += read_block::<Half>(
                bare,
                BLOCKS_AT + BLOCK_LENGTH * j,
                &mut octets[12 * j..12 * j + 12],
            );
        }
        if blocks > 0 && !check_agrees(octets, count) {
            return Err(Field::PacketCrc);
        }
        self.set_plain(read.head, &octets[..count]);
        Ok(read.wrong + wrong)
    }

    // Becomes the packet of an unconfirmed header and its octets. If it was one before, no buffer is moved.
    fn set_plain(&mut self, head: PacketHead, octets: &[u8])
        requires format { IsPlainFormat (head_format head) }
        requires count { length octets.now ≡ 12 * head_blocks head - 4 }
        requires most { length octets.now ≤ 1520 }
        ensures { self.new ≡ plain_by_parts head octets.now }
    {
        match self {
            Packet::Plain(held) => {
                held.head = head;
                held.octets.clear();
                held.octets.extend(octets);
            }
            Packet::Confirmed(_) => {
                let mut carried = Octets::new();
                carried.extend(octets);
                *self = Packet::Plain(Plain::new(head, carried));
            }
        }
    }
}
