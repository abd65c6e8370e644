//! The world of two stations: its stations after some list of events, which its invariant states.

ghost use Rattle.std.specs.Prelude.{◌≡◌, ◌+◌, ◌<◌, ◌≤◌, length, OnOk, OnErr, IfOk};
ghost use Rattle.p25_delivery.specs.{Delivery.{sessions_of}, Facts.{DeliveryFacts}, Orderly.{AreCounted, AreOrderly, AreWhole}};
ghost use Rattle.p25_stations.specs.{Runs.{HasHistory, IsEvent}, Steps.{world_step}, WorldState.{first_world}};

use crate::fitting::message_fits;
use crate::stations::Stations;
use crate::step::{Event, Step};
use p25_messages::MessageList;
use std::alloc::{AllocError, Global};
use std::marker::Model;

/// Two packet stations and the channel between them, which keeps the newest transmission of each direction. By its
/// invariant, some list of events led to it from its first state; `facts` states the consequences.
#[derive(Debug, Drop)]
pub struct World {
    stations: Stations,
}

impl Model for World {
    ghost use Rattle.p25_delivery.specs.Halves.{Roomy};
    ghost use Rattle.p25_stations.specs.{WorldState.{WorldState}, Runs.{HasHistory}};

    ghost Value = { Roomy WorldState };

    ghost view = { λ w. w.stations };

    ghost invariant = { λ w. HasHistory w.stations.state };
}

// The laws of the world hold for each event.
fn is_event(event: &Event)
    ensures { IsEvent event.now }
{
    if let Event::Send(message) = event {
        message_fits(message);
    }
}

impl World {
    /// Returns a world before its first step: nothing was sent, and the receiver waits for the first message. It
    /// allocates no memory.
    #[tactic(auto, using(crate::proofs::HistoryLaws::history_first))]
    pub fn new(alloc: Global) -> World
        ensures { result.state ≡ first_world }
    {
        World {
            stations: Stations::new(alloc),
        }
    }

    /// Does nothing; its clauses state the laws of every world. Some list of events led from its first state to this
    /// one. If it counts no false pass, its delivery keeps the facts that `DeliveryFacts` names, and each session is
    /// orderly. The delivered messages are the beginning of the sent ones, each once. Every acknowledged message was
    /// delivered, and at most one was delivered that was not acknowledged. In any case at most one was sent that was
    /// not acknowledged, and the sessions make up the lists. Joined, their messages are all that were sent and all that
    /// were delivered.
    pub fn facts(&self)
        ensures history { HasHistory self.now.state }
        ensures kept { self.now.state.false_passes ≡ 0 → DeliveryFacts self.now.state.delivery }
        ensures orderly { self.now.state.false_passes ≡ 0 → AreOrderly (sessions_of self.now.state.delivery) }
        ensures counted { AreCounted (sessions_of self.now.state.delivery) }
        ensures whole { AreWhole self.now.state.delivery }
    {
        let _ = &self.stations;
    }

    /// Returns the messages that were sent, in order.
    pub fn sent(&self) -> &MessageList
        ensures { result.now.list ≡ self.now.state.delivery.outbound.sent }
    {
        self.stations.outbound.sent()
    }

    /// Returns the messages that were delivered, in order.
    pub fn delivered(&self) -> &MessageList
        ensures { result.now.list ≡ self.now.state.delivery.inbound.received }
    {
        self.stations.inbound.received()
    }

    /// Returns the number of acknowledged messages.
    pub fn acknowledged(&self) -> u64
        ensures { result ≡ self.now.state.delivery.outbound.acknowledged }
    {
        self.stations.outbound.acknowledged()
    }

    /// Returns the number of deliveries that were false passes; it saturates at 2^64 - 1.
    pub fn false_passes(&self) -> u64
        ensures { result ≡ self.now.state.false_passes }
    {
        self.stations.false_passes
    }

    /// Returns the number of sessions: one more than the messages that were given up.
    pub fn sessions(&self) -> u64
        ensures { result ≡ length self.now.state.delivery.outbound.marks + 1 }
    {
        self.stations.outbound.sessions()
    }

    /// Reserves capacity for 1 to 16 more steps. `AllocError` is returned if the allocation fails, which can happen
    /// only if there was no such capacity; the world is unchanged, and no capacity is lost.
    pub fn reserve(&mut self, steps: u32) -> Result<(), AllocError>
        requires some { 0 < steps }
        requires most { steps ≤ 16 }
        ensures state { self.new.state ≡ self.old.state }
        ensures spare { self.old.spare ≤ self.new.spare }
        ensures ok { OnOk result (steps ≤ self.new.spare) }
        ensures err { OnErr result (self.old.spare < steps) }
    {
        self.stations.outbound.reserve(steps)?;
        self.stations.inbound.reserve(steps)
    }

    /// Makes the step of an event, and returns it. It requires capacity for it, and allocates no memory.
    pub fn step_ready(&mut self, event: &Event) -> Step
        requires { 0 < self.old.spare }
        ensures step { (self.new.state, result) ≡ world_step self.old.state event.now }
        ensures spare { self.old.spare ≤ self.new.spare + 1 }
    {
        is_event(event);
        self.stations.step_ready(event)
    }

    /// Makes the step of an event, and returns it. `AllocError` is returned if the allocation for it fails, which can
    /// happen only if no capacity was left; then the world is unchanged.
    pub fn step(&mut self, event: &Event) -> Result<Step, AllocError>
        ensures ok { IfOk result (λ step. (self.new.state, step) ≡ world_step self.old.state event.now) }
        ensures spare { self.old.spare ≤ self.new.spare + 1 }
        ensures err { OnErr result (self.new.state ≡ self.old.state) }
        ensures room { OnErr result (self.old.spare ≡ 0) }
    {
        self.reserve(1)?;
        Ok(self.step_ready(event))
    }
}
