//! The half of a station that sends: a sender, the messages that it sent, and the ends of its sessions.

#![tactic(auto, unfolding(crate::specs::HalfRules::after_offer, crate::specs::HalfRules::after_timeout, crate::specs::HalfRules::after_answer))]

ghost use Rattle.std.specs.Prelude.{◌≡◌, ◌+◌, ◌<◌, ◌≤◌, length, OnOk, OnErr, IfSome};
ghost use Rattle.p25_packet_blocks.specs.Sendable.{IsSendable};
ghost use Rattle.p25_delivery.specs.{Halves.{first_outgoing}, SenderRules.{offered, timed_out, sender_heard, reopened, is_opening}};
ghost use Rattle.p25_delivery.specs.HalfRules.{after_offer, after_timeout, after_reopening, after_answer};

use crate::sender::Sender;
use p25_bits::laws::octets_fit;
use p25_messages::{Message, MessageList, Offer, Reopen, SenderHeard, StepKind};
use p25_packet_blocks::Packet;
use std::alloc::{AllocError, Global};
use std::marker::Model;

/// The end of a session: the numbers of messages sent, delivered and acknowledged up to it.
#[derive(Clone, Copy, Debug, PartialEq, Eq)]
pub struct Mark {
    /// The number of messages sent.
    pub sent: u64,
    /// The number of messages delivered.
    pub delivered: u64,
    /// The number of messages acknowledged.
    pub acknowledged: u64,
}

/// The half of a station that sends. It has a sender, the messages that it sent, the number of them that were
/// acknowledged, and the ends of the sessions before the present one.
///
/// Each call returns the type of step, and the packet to transmit, if there is one: it becomes the newest transmission.
#[derive(Debug, Drop)]
pub struct Outbound {
    sender: Sender,
    sent: MessageList,
    acknowledged: u64,
    marks: Vec<Mark>,
}

impl Model for Outbound {
    ghost use Rattle.p25_delivery.specs.Halves.{Roomy, Outgoing};

    ghost Value = { Roomy Outgoing };

    ghost use Rattle.p25_delivery.specs.SoundHalves.{IsOutgoing, outgoing_of, outgoing_spare};

    ghost view = { λ o. record { state = outgoing_of o; spare = outgoing_spare o } };

    ghost invariant = { λ o. IsOutgoing (outgoing_of o) };
}

impl Outbound {
    /// Returns a half before its first message, without an allocation.
    pub fn new(alloc: Global) -> Outbound
        ensures { result.state ≡ first_outgoing }
    {
        Outbound {
            sender: Sender::new(),
            sent: MessageList::new(alloc),
            acknowledged: 0,
            marks: Vec::new(alloc),
        }
    }

    /// Returns the messages that it sent, in order.
    pub fn sent(&self) -> &MessageList
        ensures { result.now.list ≡ self.now.state.sent }
    {
        &self.sent
    }

    /// Returns the number of its messages that were acknowledged.
    pub fn acknowledged(&self) -> u64
        ensures { result ≡ self.now.state.acknowledged }
    {
        self.acknowledged
    }

    /// Returns the number of sessions of its messages: one more than the number of messages that were given up.
    pub fn sessions(&self) -> u64
        ensures { result ≡ length self.now.state.marks + 1 }
    {
        self.marks.len() as u64 + 1
    }

    /// Reserves capacity for 1 to 16 more calls. `AllocError` is returned if and only if the allocation fails, which
    /// can happen only if there was no such capacity; the state is unchanged, and no capacity is lost.
    pub fn reserve(&mut self, calls: u32) -> Result<(), AllocError>
        requires some { 0 < calls }
        requires most { calls ≤ 16 }
        ensures state { self.new.state ≡ self.old.state }
        ensures spare { self.old.spare ≤ self.new.spare }
        ensures ok { OnOk result (calls ≤ self.new.spare) }
        ensures err { OnErr result (self.old.spare < calls) }
    {
        self.sent.reserve(calls)?;
        self.marks.reserve(calls as usize)
    }

    /// Offers a message to its sender, and returns the result: if nothing is outstanding the message is taken, and its
    /// packet is to be transmitted. It requires capacity for a call.
    pub fn offer(&mut self, message: &Message) -> (StepKind, Option<Packet>)
        requires { 0 < self.old.spare }
        ensures step { (self.new.state, result) ≡ after_offer self.old.state message.now (offered self.old.state.sender message.now) }
        ensures sendable { IfSome result.1 IsSendable }
        ensures spare { self.old.spare ≤ self.new.spare + 1 }
    {
        // For the prover: octets are below 256.
        octets_fit(message.octets());
        let offer = self.sender.offer(message);
        if let Offer::Taken { .. } = offer {
            self.sent.push(message);
        }
        offer.into()
    }

    /// Passes a timeout to its sender, and returns the result: the outstanding packet is to be transmitted again, or
    /// the sender is down after 16 transmissions. It needs no capacity.
    pub fn time_out(&mut self) -> (StepKind, Option<Packet>)
        ensures step { (self.new.state, result) ≡ after_timeout self.old.state (timed_out self.old.state.sender) }
        ensures sendable { IfSome result.1 IsSendable }
        ensures spare { self.new.spare ≡ self.old.spare }
    {
        self.sender.timeout().into()
    }

    /// Reopens the session, and returns the result. `delivered` is the number of its messages that were delivered. If
    /// the sender is down, the opening packet is to be transmitted, and the session of a message that is given up ends.
    /// It requires capacity for a call.
    #[tactic(auto, unfolding(crate::specs::HalfRules::after_reopening))]
    pub fn reopen(&mut self, delivered: u64) -> (StepKind, Option<Packet>)
        requires { 0 < self.old.spare }
        ensures step { (self.new.state, result) ≡
            after_reopening self.old.state delivered (is_opening self.old.state.sender.outstanding) (reopened self.old.state.sender) }
        ensures sendable { IfSome result.1 IsSendable }
        ensures spare { self.old.spare ≤ self.new.spare + 1 }
    {
        let is_opening = self.sender.is_opening();
        let reopen = self.sender.reopen();
        if let Reopen::Sent { .. } = reopen {
            if !is_opening {
                self.marks
                    .push(Mark {
                        sent: self.sent.len() as u64,
                        delivered,
                        acknowledged: self.acknowledged,
                    })
                    .unwrap();
            }
        }
        reopen.into()
    }

    /// Passes a packet (PDU) to its sender, and returns the result. It needs no capacity.
    pub fn hear(&mut self, packet: &Packet) -> (StepKind, Option<Packet>)
        ensures step { (self.new.state, result) ≡ after_answer self.old.state (sender_heard self.old.state.sender packet.now) }
        ensures sendable { IfSome result.1 IsSendable }
        ensures spare { self.new.spare ≡ self.old.spare }
    {
        let heard = self.sender.hear(packet);
        if let SenderHeard::Acknowledged { .. } = heard {
            // For the prover: at most as many messages are acknowledged as were sent, and their number fits.
            let _ = self.sent.len();
            self.acknowledged += 1;
        }
        heard.into()
    }
}
