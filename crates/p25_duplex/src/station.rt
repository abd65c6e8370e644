//! A station with both halves, and the newest transmission of its direction.

#![tactic(auto, unfolding(p25_delivery::specs::Delivery::happens, p25_delivery::specs::Delivery::with_outbound, p25_delivery::specs::Delivery::with_inbound))]

ghost use Rattle.std.specs.Prelude.{◌≡◌, ◌<◌, ◌≤◌, OnOk, OnErr};
ghost use Rattle.p25_duplex.specs.DuplexSteps.{first_station, StationState, is_answer, heard_as, station_step};

use crate::event::DuplexEvent;
use p25_delivery::{Inbound, Outbound, StepKind, Way};
use p25_packet_blocks::{Packet, RESPONSE_FORMAT};
use p25_stations::{Newest, Step};
use std::alloc::{AllocError, Global};
use std::marker::Model;

/// A station that sends messages and responds to those of the other, with the newest transmission of its direction.
#[derive(Debug, Drop)]
pub(crate) struct Station {
    pub(crate) outbound: Outbound,
    pub(crate) inbound: Inbound,
    newest: Newest,
}

impl Model for Station {
    ghost use Rattle.std.specs.Prelude.{min};
    ghost use Rattle.p25_delivery.specs.Halves.{Roomy};
    ghost use Rattle.p25_duplex.specs.DuplexSteps.{StationState};

    ghost Value = { Roomy StationState };

    ghost view = { λ t. record {
      state = record { outbound = t.outbound.state; inbound = t.inbound.state; newest = t.newest };
      spare = min t.outbound.spare t.inbound.spare;
    } };
}

impl Station {
    // Returns a station before its first step. It allocates no memory.
    pub(crate) fn new(alloc: Global) -> Station
        ensures { result.state ≡ first_station }
    {
        Station {
            outbound: Outbound::new(alloc),
            inbound: Inbound::new(alloc),
            newest: Newest::new(),
        }
    }

    // Reserves capacity for one more step. `AllocError` is returned if the allocation fails, which can happen only if
    // no capacity was left; the station is unchanged, and no capacity is lost.
    pub(crate) fn reserve(&mut self) -> Result<(), AllocError>
        ensures state { self.new.state ≡ self.old.state }
        ensures spare { self.old.spare ≤ self.new.spare }
        ensures ok { OnOk result (0 < self.new.spare) }
        ensures err { OnErr result (self.old.spare ≡ 0) }
    {
        self.outbound.reserve(1)?;
        self.inbound.reserve(1)
    }

    // Makes the step of an event of this station, beside the other station, and returns it. It requires capacity for
    // it.
    pub(crate) fn step(&mut self, event: &DuplexEvent, other: &Station) -> Step
        requires { 0 < self.old.spare }
        ensures { (self.new.state, result) ≡ station_step self.old.state other.now.state event.now }
    {
        match event {
            DuplexEvent::Send(_, message) => {
                Step::quiet(self.newest.keep(self.outbound.offer(message)))
            }
            DuplexEvent::Timeout(_) => Step::quiet(self.newest.keep(self.outbound.time_out())),
            DuplexEvent::Reopen(_) => {
                let delivered = other.inbound.received().len() as u64;
                Step::quiet(self.newest.keep(self.outbound.reopen(delivered)))
            }
            DuplexEvent::Deliver { flips, .. } => match other.newest.deliver(Way::Packets, flips) {
                Err(kind) => Step::quiet(kind),
                Ok((packet, false_pass)) => {
                    let kind = self.hear(&packet);
                    Step { kind, false_pass }
                }
            },
        }
    }

    // Receives a packet (PDU): a response by the half that sends, data by the half that receives.
    fn hear(&mut self, packet: &Packet) -> StepKind
        requires { 0 < self.old.spare }
        ensures { (other : StationState) → (self.new.state, result) ≡ heard_as (is_answer packet.now) self.old.state other packet.now }
    {
        if packet.head().format() == RESPONSE_FORMAT {
            self.newest.keep(self.outbound.hear(packet))
        } else {
            self.newest.keep(self.inbound.hear(packet))
        }
    }
}
