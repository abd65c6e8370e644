//! The sender of confirmed delivery: its state, and its transmission at each event.

#![tactic(auto, unfolding(crate::specs::Halves::IsNumbered, crate::specs::SenderRules::resent, crate::specs::SenderRules::retried))]

ghost use Rattle.std.specs.Prelude.{◌≡◌, ◌<◌, if◌then◌else◌};
ghost use Rattle.p25_delivery.specs.Halves.{Sending, IsSending, first_sending};
ghost use Rattle.p25_delivery.specs.SenderRules.{sending_after, tried, fallen, may_send, offered_beside, offered, resent, timed_out, repeated, retried, response_heard, sender_heard, reopened, is_opening};

use crate::asked::{Asked, acknowledges, answers, asked_by};
use crate::message_octets::blocks_for;
use crate::sent;
use p25_messages::{Message, Offer, Reopen, Resend, SenderHeard};
use p25_packet_blocks::{Flags, Packet, Plain};
use std::marker::Model;

/// The outstanding packet of a sender, for which it waits for a response.
#[derive(Clone, Debug, PartialEq, Eq, Drop)]
pub enum Outstanding {
    /// Nothing: a message may be offered.
    Nothing,
    /// A message.
    Message(Message),
    /// The packet that opens the session anew, by its number.
    Opening(u8),
}

/// The most transmissions of a message or an opening packet.
const MOST_TRIES: u8 = 16;

/// A sender of messages, at most one of which is outstanding.
#[derive(Clone, Debug, PartialEq, Eq, Drop)]
pub struct Sender {
    // the number of the next message, or of the outstanding one
    next: u8,
    outstanding: Outstanding,
    // the number of transmissions of the outstanding packet
    tries: u8,
    down: bool,
}

impl Model for Sender {
    ghost Value = { Sending };

    ghost view = { λ s. record { next = s.next; outstanding = s.outstanding; tries = s.tries; down = s.down } };

    ghost invariant = { λ s. IsSending (record { next = s.next; outstanding = s.outstanding; tries = s.tries; down = s.down }) };

    ghost inverse = { λ s. record { next = s.next; outstanding = s.outstanding; tries = s.tries; down = s.down } };
}

impl Sender {
    /// Returns a sender before its first message, whose number is 0.
    pub fn new() -> Sender
        ensures { result ≡ first_sending }
    {
        Sender {
            next: 0,
            outstanding: Outstanding::Nothing,
            tries: 0,
            down: false,
        }
    }

    /// Takes a message, and returns its first packet. `Down` is returned if and only if the sender is down, and `Busy`
    /// if and only if it is not down, but a message or the opening packet is outstanding. Then nothing changes.
    #[tactic(auto, unfolding(crate::specs::SenderRules::offered, crate::specs::SenderRules::offered_beside, crate::specs::Halves::IsNumbered))]
    pub fn offer(&mut self, message: &Message) -> Offer
        ensures { (self.new, result) ≡ offered self.old message.now }
    {
        if self.down {
            return Offer::Down;
        }
        let Outstanding::Nothing = self.outstanding else {
            return Offer::Busy;
        };
        self.outstanding = Outstanding::Message(message.clone().unwrap());
        self.tries = 1;
        Offer::Taken {
            number: self.next,
            blocks: blocks_for(message),
            packet: sent::message(self.next, message),
        }
    }

    /// Returns the outstanding packet, to be transmitted again whole. `Down` is returned if and only if the sender is
    /// down or 16 transmissions were made, and then it is down. `Idle` is returned if and only if it is not down and
    /// nothing is outstanding.
    #[tactic(auto, unfolding(crate::specs::SenderRules::timed_out, crate::specs::SenderRules::timed_out_with, crate::specs::Halves::IsNumbered))]
    pub fn timeout(&mut self) -> Resend
        ensures { (self.new, result) ≡ timed_out self.old }
    {
        if self.down {
            return Resend::Down;
        }
        match &self.outstanding {
            Outstanding::Nothing => Resend::Idle,
            Outstanding::Message(message) => {
                let packet = sent::message(self.next, message);
                self.resend(self.next, packet)
            }
            Outstanding::Opening(number) => {
                let number = *number;
                self.resend(number, sent::opening(number))
            }
        }
    }

    /// Receives a packet, and returns the result. `Down` is returned if and only if a response requires a transmission
    /// and 16 were made. `Ignored` is returned if and only if the packet is not a response with this LLID or requires
    /// nothing of the outstanding packet, or the sender is down or has nothing outstanding.
    #[tactic(auto, unfolding(crate::specs::SenderRules::sender_heard))]
    pub fn hear(&mut self, packet: &Packet) -> SenderHeard
        ensures { (self.new, result) ≡ sender_heard self.old packet.now }
    {
        match packet {
            Packet::Plain(packet) if !self.down && answers(packet.head()) => {
                self.hear_response(packet)
            }
            _ => SenderHeard::Ignored,
        }
    }

    /// Opens the session again, and returns the opening packet. Its number is four more than that of the message that
    /// is given up, or it is the opening packet that was transmitted before. `Up` is returned if and only if the sender
    /// is not down, and then nothing changes.
    #[tactic(auto, unfolding(crate::specs::SenderRules::reopened, crate::specs::SenderRules::opening_number, crate::specs::Halves::IsNumbered))]
    pub fn reopen(&mut self) -> Reopen
        ensures { (self.new, result) ≡ reopened self.old }
    {
        if !self.down {
            return Reopen::Up;
        }
        let number = match self.outstanding {
            Outstanding::Opening(number) => number,
            _ => (self.next + 4) % 8,
        };
        self.outstanding = Outstanding::Opening(number);
        self.tries = 1;
        self.down = false;
        Reopen::Sent {
            number,
            packet: sent::opening(number),
        }
    }

    /// Returns whether the opening packet is outstanding.
    pub fn is_opening(&self) -> bool
        ensures { result ≡ is_opening self.now.outstanding }
    {
        matches!(&self.outstanding, Outstanding::Opening(_))
    }

    // Counts one more transmission, or goes down if 16 were made. Returns whether there is one more.
    fn count(&mut self) -> bool
        ensures more { result ≡ may_send self.old }
        ensures state { self.new ≡ (if may_send self.old then tried self.old else fallen self.old) }
    {
        if self.tries < MOST_TRIES {
            self.tries += 1;
            true
        } else {
            self.down = true;
            false
        }
    }

    // Transmits a packet again at a timeout.
    fn resend(&mut self, number: u8, packet: Packet) -> Resend
        ensures { (self.new, result) ≡ resent self.old number packet }
    {
        if !self.count() {
            return Resend::Down;
        }
        Resend::Sent {
            number,
            tries: self.tries,
            packet,
        }
    }

    // Receives a response.
    #[tactic(auto, unfolding(crate::specs::SenderRules::response_heard, crate::specs::SenderRules::answered, crate::specs::Halves::IsNumbered))]
    fn hear_response(&mut self, response: &Plain) -> SenderHeard
        ensures { (self.new, result) ≡ response_heard self.old.outstanding self.old response.now }
    {
        match &self.outstanding {
            Outstanding::Message(message) => {
                match asked_by(response, self.next, blocks_for(message)) {
                    Asked::Nothing => SenderHeard::Ignored,
                    Asked::NextMessage => {
                        let number = self.next;
                        self.go_on_after(number);
                        SenderHeard::Acknowledged { number }
                    }
                    Asked::WholeMessage => {
                        let packet = sent::message(self.next, message);
                        self.repeat(packet)
                    }
                    Asked::Blocks(wanted) => {
                        let packet = sent::blocks(self.next, message, &wanted);
                        self.retry(wanted, packet)
                    }
                }
            }
            Outstanding::Opening(number) if acknowledges(response.head(), *number) => {
                let number = *number;
                self.go_on_after(number);
                SenderHeard::Opened { number }
            }
            _ => SenderHeard::Ignored,
        }
    }

    // Transmits the whole message again.
    #[tactic(auto, unfolding(crate::specs::SenderRules::repeated))]
    fn repeat(&mut self, packet: Packet) -> SenderHeard
        ensures { (self.new, result) ≡ repeated self.old packet }
    {
        if !self.count() {
            return SenderHeard::Down;
        }
        SenderHeard::Repeat {
            number: self.next,
            tries: self.tries,
            packet,
        }
    }

    // Transmits some blocks of the message again.
    fn retry(&mut self, wanted: Flags, packet: Packet) -> SenderHeard
        ensures { (self.new, result) ≡ retried self.old wanted packet }
    {
        if !self.count() {
            return SenderHeard::Down;
        }
        SenderHeard::Retry {
            number: self.next,
            wanted,
            tries: self.tries,
            packet,
        }
    }

    // Clears the outstanding packet.
    fn go_on_after(&mut self, number: u8)
        requires { number < 8 }
        ensures { self.new ≡ sending_after number }
    {
        self.next = (number + 1) % 8;
        self.outstanding = Outstanding::Nothing;
        self.tries = 0;
        self.down = false;
    }
}
