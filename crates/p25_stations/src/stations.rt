//! Two stations and the channel between them, without the history of their events.

#![tactic(auto, unfolding(p25_delivery::specs::Delivery::happens, p25_delivery::specs::Delivery::with_outbound, p25_delivery::specs::Delivery::with_inbound))]

ghost use Rattle.std.specs.Prelude.{◌≡◌, ◌+◌, ◌<◌, ◌≤◌};
ghost use Rattle.p25_stations.specs.{Steps.{world_step, heard_by, delivery_step}, WorldState.{first_world}};
ghost use Rattle.p25_delivery.specs.Delivery.{happens};

use crate::newest::Newest;
use crate::step::{Event, Step};
use p25_delivery::{Inbound, Outbound, StepKind, Way};
use p25_messages::Flips;
use p25_packet_blocks::Packet;
use std::alloc::Global;
use std::marker::Model;

/// The two stations of a world and the channel between them. The history that a world keeps is not part of it.
#[derive(Debug, Drop)]
pub(crate) struct Stations {
    pub(crate) outbound: Outbound,
    pub(crate) inbound: Inbound,
    packet_sent: Newest,
    answer: Newest,
    pub(crate) false_passes: u64,
}

impl Model for Stations {
    ghost use Rattle.std.specs.Prelude.{min};
    ghost use Rattle.p25_stations.specs.WorldState.{WorldState};
    ghost use Rattle.p25_delivery.specs.Halves.{Roomy};

    ghost Value = { Roomy WorldState };

    ghost view = { λ w. record {
      state = record {
        delivery = record { outbound = w.outbound.state; inbound = w.inbound.state; packet_sent = w.packet_sent; answer = w.answer };
        false_passes = w.false_passes;
      };
      spare = min w.outbound.spare w.inbound.spare;
    } };
}

impl Stations {
    /// Returns a world before its first step: nothing was sent, and the receiver waits for the first message. It
    /// allocates no memory.
    pub(crate) fn new(alloc: Global) -> Stations
        ensures { result.state ≡ first_world }
    {
        Stations {
            outbound: Outbound::new(alloc),
            inbound: Inbound::new(alloc),
            packet_sent: Newest::new(),
            answer: Newest::new(),
            false_passes: 0,
        }
    }

    /// Makes the step of an event, and returns it. It requires capacity for it, and allocates no memory.
    #[tactic(auto, unfolding(crate::specs::Steps::world_step, p25_delivery::specs::Delivery::happens, p25_delivery::specs::Delivery::with_outbound))]
    pub(crate) fn step_ready(&mut self, event: &Event) -> Step
        requires { 0 < self.old.spare }
        ensures step { (self.new.state, result) ≡ world_step self.old.state event.now }
        ensures spare { self.old.spare ≤ self.new.spare + 1 }
    {
        match event {
            Event::Send(message) => {
                Step::quiet(self.packet_sent.keep(self.outbound.offer(message)))
            }
            Event::Timeout => Step::quiet(self.packet_sent.keep(self.outbound.time_out())),
            Event::Reopen => {
                let delivered = self.inbound.received().len() as u64;
                Step::quiet(self.packet_sent.keep(self.outbound.reopen(delivered)))
            }
            Event::ToReceiver(flips) => self.deliver(Way::Packets, flips),
            Event::ToSender(flips) => self.deliver(Way::Answers, flips),
        }
    }

    // Passes a packet (PDU) that arrived in a direction to its station.
    fn hear(&mut self, way: Way, packet: &Packet) -> StepKind
        requires { 0 < self.old.spare }
        ensures step { (self.new.state.delivery, result) ≡ happens self.old.state.delivery (heard_by way packet.now) }
        ensures passes { self.new.state.false_passes ≡ self.old.state.false_passes }
        ensures spare { self.old.spare ≤ self.new.spare + 1 }
    {
        match way {
            Way::Packets => self.answer.keep(self.inbound.hear(packet)),
            Way::Answers => self.packet_sent.keep(self.outbound.hear(packet)),
        }
    }

    // Delivers the newest transmission of a direction.
    #[tactic(auto, unfolding(crate::specs::Steps::delivered, crate::specs::Steps::newest_by))]
    fn deliver(&mut self, way: Way, flips: &Flips) -> Step
        requires { 0 < self.old.spare }
        ensures step { (self.new.state, result) ≡ delivery_step self.old.state way flips.now }
        ensures spare { self.old.spare ≤ self.new.spare + 1 }
    {
        let heard = match way {
            Way::Packets => self.packet_sent.deliver(way, flips),
            Way::Answers => self.answer.deliver(way, flips),
        };
        match heard {
            Err(kind) => Step::quiet(kind),
            Ok((packet, false_pass)) => {
                let kind = self.hear(way, &packet);
                let step = Step { kind, false_pass };
                self.false_passes = step.counted(self.false_passes);
                step
            }
        }
    }
}
