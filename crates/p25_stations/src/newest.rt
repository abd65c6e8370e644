//! The newest transmission of one direction of the channel.

ghost use Rattle.std.specs.Prelude.{◌≡◌, Option, None, IfSome};
ghost use Rattle.p25_packet_blocks.specs.Sendable.{IsSendable};
ghost use Rattle.p25_delivery.specs.Delivery.{newest_after};
ghost use Rattle.p25_stations.specs.Steps.{delivery_of, Packet};

use crate::air::{Carried, carry};
use p25_delivery::{StepKind, Way};
use p25_messages::Flips;
use p25_packet_blocks::Packet;
use std::marker::Model;

/// The newest transmission of a direction of the channel, if there is one. Contracts see it as that packet (PDU), which
/// is sendable.
#[derive(Clone, Debug, PartialEq, Eq, Drop)]
pub struct Newest {
    packet: Option<Packet>,
}

impl Model for Newest {
    ghost Value = { Option Packet };

    ghost view = { λ n. n.packet };

    ghost invariant = { λ n. IfSome n.packet IsSendable };

    ghost inverse = { λ packet. record { packet = packet } };
}

impl Newest {
    /// Returns a direction that has carried nothing.
    pub fn new() -> Newest
        ensures { result ≡ None }
    {
        Newest { packet: None }
    }

    /// Makes the transmission of a call of a half the newest one, and returns the type of step.
    #[tactic(auto, unfolding(p25_delivery::specs::Delivery::newest_after))]
    pub fn keep(&mut self, called: (StepKind, Option<Packet>)) -> StepKind
        requires { IfSome called.1 IsSendable }
        ensures newest { self.new ≡ newest_after called.1 self.old }
        ensures kind { result ≡ called.0 }
    {
        let (kind, sent) = called;
        if sent.is_some() {
            self.packet = sent;
        }
        kind
    }

    /// Returns the reception of the newest transmission in that direction: the received packet (PDU), and whether it is
    /// a false pass, as `carry` returns it. If nothing is received, the error is the step: `Lost` or `Ignored`, or
    /// `Nothing` if there is no transmission.
    #[tactic(auto, unfolding(crate::specs::Steps::delivery_of, crate::specs::Steps::heard_of))]
    pub fn deliver(&self, way: Way, flips: &Flips) -> Result<(Packet, bool), StepKind>
        ensures { result ≡ delivery_of way self.now flips.now }
    {
        let Some(packet) = &self.packet else {
            return Err(StepKind::Nothing { way });
        };
        match carry(packet, flips) {
            Carried::Lost(field) => Err(StepKind::Lost { way, field }),
            Carried::Foreign => Err(StepKind::Ignored { way }),
            Carried::Heard { packet, false_pass } => Ok((packet, false_pass)),
        }
    }
}
