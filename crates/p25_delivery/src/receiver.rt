//! The receiver of confirmed delivery: its state, and its response to each packet.

#![tactic(auto, unfolding(crate::specs::ReceiverRules::opening_heard, crate::specs::ReceiverRules::data_heard, crate::specs::ReceiverRules::finished))]

ghost use Rattle.std.specs.Prelude.{◌≡◌, ◌<◌, IfNone};
ghost use Rattle.p25_delivery.specs.Halves.{Receiving, first_receiving};
ghost use Rattle.p25_delivery.specs.ReceiverRules.{keeping_for, finished, filled, opening_heard, data_heard, receiver_heard};

use crate::block_places::BlockPlaces;
use crate::{LLID, sent};
use p25_messages::{Heard, Message};
use p25_packet_blocks::{Confirmed, Packet, PacketHead};
use std::marker::Model;

/// A receiver of messages.
#[derive(Clone, Debug, PartialEq, Eq, Drop)]
pub struct Receiver {
    // V(R), the number of the last delivered message
    last: u8,
    kept: Option<BlockPlaces>,
}

impl Model for Receiver {
    ghost Value = { Receiving };

    ghost view = { λ s. record { last = s.last; kept = s.kept } };

    ghost invariant = { λ s. s.last < 8 };

    ghost inverse = { λ s. record { last = s.last; kept = s.kept } };
}

impl Receiver {
    /// Returns a receiver before its first message: V(R) is 7.
    pub fn new() -> Receiver
        ensures { result ≡ first_receiving }
    {
        Receiver {
            last: 7,
            kept: None,
        }
    }

    /// Receives a packet, and returns the result, with the response to transmit. Each result is determined by the rule
    /// on Syn or one of the rules on numbers, blocks and the packet CRC.
    #[tactic(auto, unfolding(crate::specs::ReceiverRules::receiver_heard))]
    pub fn hear(&mut self, packet: &Packet) -> Heard
        ensures { (self.new, result) ≡ receiver_heard self.old packet.now }
    {
        match packet {
            Packet::Confirmed(packet) if packet.head().llid() == LLID => {
                if packet.head().syn() {
                    self.hear_opening(packet.head())
                } else {
                    self.hear_data(packet)
                }
            }
            _ => Heard::Ignored,
        }
    }

    // Receives a packet with Syn.
    fn hear_opening(&mut self, head: PacketHead) -> Heard
        ensures { (self.new, result) ≡ opening_heard self.old head }
    {
        if head.blocks() != 0 {
            return Heard::Ignored;
        }
        let number = head.number();
        self.last = number;
        self.kept = None;
        Heard::Opened {
            number,
            answer: sent::short(sent::ACK, number),
        }
    }

    // Receives a packet without Syn.
    fn hear_data(&mut self, packet: &Confirmed) -> Heard
        ensures { (self.new, result) ≡ data_heard self.old packet.now }
    {
        let last = self.last;
        let number = packet.head().number();
        if number == last {
            Heard::Again {
                number: last,
                answer: sent::short(sent::ACK, last),
            }
        } else if number == (last + 1) % 8 {
            self.fill(packet)
        } else {
            Heard::RefusedOrder {
                last,
                answer: sent::short(sent::ORDER_NACK, last),
            }
        }
    }

    // Receives a packet of the next message.
    #[tactic(auto, unfolding(crate::specs::ReceiverRules::filled, crate::specs::ReceiverRules::completed))]
    fn fill(&mut self, packet: &Confirmed) -> Heard
        ensures { (self.new, result) ≡ filled self.old packet.now (keeping_for self.old.kept packet.now.head) }
    {
        let Some(mut kept) = self.take_kept(packet.head()) else {
            return Heard::Ignored;
        };
        let number = packet.head().number();
        kept.put(packet.slots());
        match kept.octets() {
            Some(octets) => self.finish(number, octets.message(kept.pad())),
            None => {
                let flags = kept.flags();
                let answer = sent::retry(number, &flags);
                self.kept = Some(kept);
                Heard::Kept {
                    number,
                    flags,
                    answer,
                }
            }
        }
    }

    // Takes out the blocks that are kept while a packet of the next message is received. Returns `None` if the packet
    // is ignored, and then nothing is taken out.
    #[tactic(auto, unfolding(crate::specs::ReceiverRules::keeping_for, crate::specs::ReceiverRules::keeping_full))]
    fn take_kept(&mut self, head: PacketHead) -> Option<BlockPlaces>
        ensures kept { result ≡ keeping_for self.old.kept head }
        ensures last { self.new.last ≡ self.old.last }
        ensures ignored { IfNone result (self.new ≡ self.old) }
    {
        if !head.is_full() {
            return self.kept.take();
        }
        let blocks = head.blocks();
        let pad = head.pad();
        if blocks == 0 {
            return None;
        }
        match self.kept.take() {
            Some(kept) if kept.is_of(blocks, pad) => Some(kept),
            _ => Some(BlockPlaces::new(blocks, pad)),
        }
    }

    // Delivers the message whose blocks are all there, or refuses it.
    fn finish(&mut self, number: u8, message: Option<Message>) -> Heard
        requires { number < 8 }
        ensures { (self.new, result) ≡ finished self.old number message }
    {
        self.kept = None;
        match message {
            Some(message) => {
                self.last = number;
                Heard::Delivered {
                    number,
                    message,
                    answer: sent::short(sent::ACK, number),
                }
            }
            None => Heard::RefusedCrc {
                number,
                answer: sent::short(sent::CRC_NACK, number),
            },
        }
    }
}
