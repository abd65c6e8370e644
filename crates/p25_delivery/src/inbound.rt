//! The half of a station that receives: a receiver and the messages that it delivered.

ghost use Rattle.std.specs.Prelude.{◌≡◌, ◌+◌, ◌<◌, ◌≤◌, OnOk, OnErr, IfSome};
ghost use Rattle.p25_packet_blocks.specs.Sendable.{IsSendable};
ghost use Rattle.p25_delivery.specs.{Halves.{first_incoming}, ReceiverRules.{receiver_heard}, HalfRules.{after_data}};

use crate::receiver::Receiver;
use p25_messages::{Heard, MessageList, StepKind};
use p25_packet_blocks::Packet;
use std::alloc::{AllocError, Global};
use std::marker::Model;

/// The half of a station that receives: its receiver, and the messages that it delivered.
#[derive(Debug, Drop)]
pub struct Inbound {
    receiver: Receiver,
    received: MessageList,
}

impl Model for Inbound {
    ghost use Rattle.p25_delivery.specs.Halves.{Roomy, Incoming};

    ghost Value = { Roomy Incoming };

    ghost use Rattle.p25_delivery.specs.SoundHalves.{IsIncoming, incoming_of};

    ghost view = { λ i. record { state = incoming_of i; spare = i.received.spare } };

    ghost invariant = { λ i. IsIncoming (incoming_of i) };
}

impl Inbound {
    /// Returns a half before the first message, without an allocation.
    pub fn new(alloc: Global) -> Inbound
        ensures { result.state ≡ first_incoming }
    {
        Inbound {
            receiver: Receiver::new(),
            received: MessageList::new(alloc),
        }
    }

    /// Returns the messages that it delivered, in order.
    pub fn received(&self) -> &MessageList
        ensures { result.now.list ≡ self.now.state.received }
    {
        &self.received
    }

    /// Reserves capacity for 1 to 16 more calls. `AllocError` is returned if and only if the allocation fails, which
    /// can happen only if there was no such capacity; the state is unchanged, and no capacity is lost.
    pub fn reserve(&mut self, calls: u32) -> Result<(), AllocError>
        requires some { 0 < calls }
        requires most { calls ≤ 16 }
        ensures state { self.new.state ≡ self.old.state }
        ensures spare { self.old.spare ≤ self.new.spare }
        ensures ok { OnOk result (calls ≤ self.new.spare) }
        ensures err { OnErr result (self.old.spare < calls) }
    {
        self.received.reserve(calls)
    }

    /// Passes a packet (PDU) to its receiver, and returns the type of step and the response to transmit, if there is
    /// one: it becomes the newest transmission. It requires capacity for a call.
    #[tactic(auto, unfolding(crate::specs::HalfRules::after_data))]
    pub fn hear(&mut self, packet: &Packet) -> (StepKind, Option<Packet>)
        requires { 0 < self.old.spare }
        ensures step { (self.new.state, result) ≡ after_data self.old.state (receiver_heard self.old.state.receiver packet.now) }
        ensures sendable { IfSome result.1 IsSendable }
        ensures spare { self.old.spare ≤ self.new.spare + 1 }
    {
        let heard = self.receiver.hear(packet);
        if let Heard::Delivered { message, .. } = &heard {
            self.received.push(message);
        }
        heard.into()
    }
}
