//! The duplex world: its stations after some list of events, which its invariant states.

ghost use Rattle.std.specs.Prelude.{◌≡◌, ◌+◌, length, OnErr, IfOk};
ghost use Rattle.p25_delivery.specs.{Delivery.{sessions_of}, Orderly.{AreOrderly, AreWhole}};
ghost use Rattle.p25_duplex.specs.DuplexRuns.{HasDuplexHistory, HasFacts, IsDuplexEvent, Side as side_type, delivery_at, duplex_step, first_duplex};

use crate::event::{DuplexEvent, DuplexStep};
use crate::side::Side;
use crate::stations::DuplexStations;
use p25_messages::MessageList;
use p25_stations::parts::message_fits;
use std::alloc::{AllocError, Global};
use std::marker::Model;

/// Two packet stations that both send and acknowledge, and the channel between them, which keeps the newest
/// transmission of each. By its invariant, some list of events led to it from its first state; `facts` states the
/// consequences.
#[derive(Debug, Drop)]
pub struct DuplexWorld {
    stations: DuplexStations,
}

impl Model for DuplexWorld {
    ghost use Rattle.p25_delivery.specs.Halves.{Roomy};
    ghost use Rattle.p25_duplex.specs.{DuplexSteps.{DuplexState}, DuplexRuns.{HasDuplexHistory}};

    ghost Value = { Roomy DuplexState };

    ghost view = { λ w. w.stations };

    ghost invariant = { λ w. HasDuplexHistory w.stations.state };
}

// The laws of the duplex world hold for each event.
fn is_event(event: &DuplexEvent)
    ensures { IsDuplexEvent event.now }
{
    if let DuplexEvent::Send(_, message) = event {
        message_fits(message);
    }
}

impl DuplexWorld {
    /// Returns a world before its first step: nothing was sent, and both receivers wait for the first message. It
    /// allocates no memory.
    #[tactic(auto, using(crate::proofs::DuplexHistoryLaws::history_first))]
    pub fn new(alloc: Global) -> DuplexWorld
        ensures { result.state ≡ first_duplex }
    {
        DuplexWorld {
            stations: DuplexStations::new(alloc),
        }
    }

    /// Does nothing; its clauses state the laws of every duplex world. Some list of events led from its first state to
    /// this one. If it counts no false pass, the halves of each side's delivery are those of one that keeps the facts
    /// that `DeliveryFacts` names, and each of its sessions is orderly. The delivered messages are the beginning of the
    /// sent ones, each once. Every acknowledged message was delivered, and at most one was delivered that was not
    /// acknowledged. In any case the sessions of a side make up its lists: joined, their messages are all that were
    /// sent and all that were delivered.
    pub fn facts(&self)
        ensures history { HasDuplexHistory self.now.state }
        ensures kept { (side : side_type) → self.now.state.false_passes ≡ 0 → HasFacts (delivery_at side self.now.state) }
        ensures orderly { (side : side_type) → self.now.state.false_passes ≡ 0 → AreOrderly (sessions_of (delivery_at side self.now.state)) }
        ensures whole { (side : side_type) → AreWhole (delivery_at side self.now.state) }
    {
        let _ = &self.stations;
    }

    /// Returns the messages that a side sent, in order.
    pub fn sent(&self, side: Side) -> &MessageList
        ensures { result.now.list ≡ (delivery_at side self.now.state).outbound.sent }
    {
        self.stations.station(side).outbound.sent()
    }

    /// Returns the messages of a side that were delivered to the other, in order.
    pub fn delivered(&self, side: Side) -> &MessageList
        ensures { result.now.list ≡ (delivery_at side self.now.state).inbound.received }
    {
        self.stations.station(side.other()).inbound.received()
    }

    /// Returns the number of acknowledged messages of a side.
    pub fn acknowledged(&self, side: Side) -> u64
        ensures { result ≡ (delivery_at side self.now.state).outbound.acknowledged }
    {
        self.stations.station(side).outbound.acknowledged()
    }

    /// Returns the number of sessions of a side's messages: one more than the messages that it gave up.
    pub fn sessions(&self, side: Side) -> u64
        ensures { result ≡ length (delivery_at side self.now.state).outbound.marks + 1 }
    {
        self.stations.station(side).outbound.sessions()
    }

    /// Returns the number of deliveries in either direction that were false passes; it saturates at 2^64 - 1.
    pub fn false_passes(&self) -> u64
        ensures { result ≡ self.now.state.false_passes }
    {
        self.stations.false_passes
    }

    /// Makes the step of an event, and returns it. `AllocError` is returned if the allocation for it fails, which can
    /// happen only if no capacity was left; then the world is unchanged.
    pub fn step(&mut self, event: &DuplexEvent) -> Result<DuplexStep, AllocError>
        ensures ok { IfOk result (λ step. (self.new.state, step) ≡ duplex_step self.old.state event.now) }
        ensures err { OnErr result (self.new.state ≡ self.old.state) }
        ensures room { OnErr result (self.old.spare ≡ 0) }
    {
        is_event(event);
        self.stations.a.reserve()?;
        self.stations.b.reserve()?;
        Ok(self.stations.step_ready(event))
    }
}
