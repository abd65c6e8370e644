//! Two stations that both send, and the channel between them, without the history of their events.

ghost use Rattle.std.specs.Prelude.{◌≡◌, ◌<◌};
ghost use Rattle.p25_duplex.specs.DuplexSteps.{duplex_step, first_duplex, station_at};

use crate::event::{DuplexEvent, DuplexStep};
use crate::side::Side;
use crate::station::Station;
use std::alloc::Global;
use std::marker::Model;

/// The two stations of a duplex world and the channel between them. The history that a world keeps is not part of it.
#[derive(Debug, Drop)]
pub(crate) struct DuplexStations {
    pub(crate) a: Station,
    pub(crate) b: Station,
    pub(crate) false_passes: u64,
}

impl Model for DuplexStations {
    ghost use Rattle.std.specs.Prelude.{min};
    ghost use Rattle.p25_delivery.specs.Halves.{Roomy};
    ghost use Rattle.p25_duplex.specs.DuplexSteps.{DuplexState};

    ghost Value = { Roomy DuplexState };

    ghost view = { λ w. record {
      state = record { a = w.a.state; b = w.b.state; false_passes = w.false_passes };
      spare = min w.a.spare w.b.spare;
    } };
}

impl DuplexStations {
    /// Returns a world before its first step: nothing was sent, and both receivers wait for the first message. It
    /// allocates no memory.
    pub(crate) fn new(alloc: Global) -> DuplexStations
        ensures { result.state ≡ first_duplex }
    {
        DuplexStations {
            a: Station::new(alloc),
            b: Station::new(alloc),
            false_passes: 0,
        }
    }

    /// Returns the station of a side.
    pub(crate) fn station(&self, side: Side) -> &Station
        ensures { result.now.state ≡ station_at side self.now.state }
    {
        match side {
            Side::A => &self.a,
            Side::B => &self.b,
        }
    }

    /// Makes the step of an event, and returns it. It requires capacity for it.
    #[tactic(auto, unfolding(crate::specs::DuplexSteps::duplex_step))]
    pub(crate) fn step_ready(&mut self, event: &DuplexEvent) -> DuplexStep
        requires { 0 < self.old.spare }
        ensures { (self.new.state, result) ≡ duplex_step self.old.state event.now }
    {
        let side = event.side();
        let step = match side {
            Side::A => self.a.step(event, &self.b),
            Side::B => self.b.step(event, &self.a),
        };
        self.false_passes = step.counted(self.false_passes);
        DuplexStep { side, step }
    }
}
