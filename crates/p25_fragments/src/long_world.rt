//! The world of long messages: its stations after some list of events, which its invariant states.

ghost use Rattle.std.specs.Prelude.{◌≡◌, ◌+◌, ◌<◌, ◌≤◌, ◌||◌, false, OnOk, OnErr, IfOk};
ghost use Rattle.p25_delivery.specs.Orderly.{AreOrderly, AreWhole};
ghost use Rattle.p25_fragments.specs.{LongRuns.{HasLongHistory, IsEventOf, long_sessions_of, offers_beside}, LongState.{first_long, long_delivery}};
ghost use Rattle.p25_fragments.specs.LongSteps.{long_step};

use crate::long_stations::LongStations;
use crate::long_step::{LongEvent, LongStep};
use p25_messages::LongList;
use p25_stations::{Event, World};
use std::alloc::{AllocError, Global};
use std::marker::Model;

/// Two packet stations, the channel between them, and the long messages that they carry in parts. By its invariant,
/// some list of events led to it from its first state; `facts` states the consequences.
#[derive(Debug, Drop)]
pub struct LongWorld {
    stations: LongStations,
    // whether a message was offered to the inner world besides the parts
    beside: bool,
}

impl Model for LongWorld {
    ghost use Rattle.p25_fragments.specs.{LongState.{LongView}, LongRuns.{HasLongHistory}};

    ghost Value = { LongView };

    ghost view = { λ w. record { state = w.stations.state; spare = w.stations.spare; beside = w.beside } };

    ghost invariant = { λ w. HasLongHistory w.stations.state w.beside };
}

// Returns whether an event offers a message to the inner world.
fn offers(event: &LongEvent) -> bool
    ensures { result ≡ offers_beside event.now }
{
    matches!(event, LongEvent::Inner(Event::Send(_)))
}

// The laws of the world hold for each event that offers no message to the inner world.
fn event_fits(event: &LongEvent)
    ensures { IsEventOf (offers_beside event.now) event.now }
{
    if let LongEvent::Long(message) = event {
        // For the prover: a long message has at most 4,000 octets.
        let _ = message.octets();
    }
}

impl LongWorld {
    /// Returns a world before its first step: no long message was taken. It allocates no memory.
    #[tactic(auto, using(crate::proofs::LongHistoryLaws::history_first))]
    pub fn new(alloc: Global) -> LongWorld
        ensures state { result.state ≡ first_long }
        ensures beside { result.beside ≡ false }
    {
        LongWorld {
            stations: LongStations::new(alloc),
            beside: false,
        }
    }

    /// Does nothing; its clauses state the laws of every world. Some list of events led from its first state to this
    /// one. Suppose that no message was offered to the inner world besides the parts, and the inner world counts no
    /// false pass. Then each session is orderly. The whole long messages are the beginning of those taken, in order and
    /// each once. Every acknowledged long message is whole, and at most one is whole that was not acknowledged. In any
    /// case the sessions make up the lists: joined, their long messages are all that were taken and all that were
    /// received whole.
    pub fn facts(&self)
        ensures history { HasLongHistory self.now.state self.now.beside }
        ensures orderly { self.now.beside ≡ false → self.now.state.inner.false_passes ≡ 0 → AreOrderly (long_sessions_of self.now.state) }
        ensures whole { AreWhole (long_delivery self.now.state) }
    {
        let _ = &self.stations;
    }

    /// Returns whether a message was offered to the inner world besides the parts, by an event `Inner(Send)`. Fewer
    /// laws hold of such a world.
    pub fn offered_beside(&self) -> bool
        ensures { result ≡ self.now.beside }
    {
        self.beside
    }

    /// Returns the world of the two stations, whose messages are the parts.
    pub fn inner(&self) -> &World
        ensures { result.now.state ≡ self.now.state.inner }
    {
        &self.stations.inner
    }

    /// Returns the long messages that were taken, in order.
    pub fn taken(&self) -> &LongList
        ensures { result.now.list ≡ self.now.state.taken }
    {
        &self.stations.taken
    }

    /// Returns the long messages of which all parts were delivered, in order.
    pub fn whole(&self) -> &LongList
        ensures { result.now.list ≡ self.now.state.whole }
    {
        &self.stations.whole
    }

    /// Returns the number of acknowledged long messages.
    pub fn acknowledged(&self) -> u64
        ensures { result ≡ self.now.state.acknowledged }
    {
        self.stations.acknowledged
    }

    /// Reserves capacity for 1 to 8 more steps: for each, two steps of the inner world, one long message in each list
    /// and one mark. `AllocError` is returned if the allocation fails, which can happen only if there was no such
    /// capacity; the world is unchanged, and no capacity is lost.
    pub fn reserve(&mut self, steps: u32) -> Result<(), AllocError>
        requires some { 0 < steps }
        requires most { steps ≤ 8 }
        ensures state { self.new.state ≡ self.old.state }
        ensures beside { self.new.beside ≡ self.old.beside }
        ensures spare { self.old.spare ≤ self.new.spare }
        ensures ok { OnOk result (steps ≤ self.new.spare) }
        ensures err { OnErr result (self.old.spare < steps) }
    {
        self.stations.inner.reserve(2 * steps)?;
        self.stations.taken.reserve(steps)?;
        self.stations.whole.reserve(steps)?;
        self.stations.marks.reserve(steps as usize)
    }

    /// Makes the step of an event, and returns it. It requires capacity for it, and allocates no memory. A long message
    /// is `Down` if the sender of the inner world is down, and otherwise `Busy` if a part or the opening packet is
    /// outstanding; then nothing changes.
    pub fn step_ready(&mut self, event: &LongEvent) -> LongStep
        requires { 0 < self.old.spare }
        ensures step { (self.new.state, result) ≡ long_step self.old.state event.now }
        ensures beside { self.new.beside ≡ (self.old.beside || offers_beside event.now) }
        ensures spare { self.old.spare ≤ self.new.spare + 1 }
    {
        event_fits(event);
        self.beside |= offers(event);
        self.stations.step_ready(event)
    }

    /// Makes the step of an event, and returns it. `AllocError` is returned if the allocation for it fails, which can
    /// happen only if no capacity was left; then the world is unchanged.
    pub fn step(&mut self, event: &LongEvent) -> Result<LongStep, AllocError>
        ensures ok { IfOk result (λ step. (self.new.state, step) ≡ long_step self.old.state event.now) }
        ensures spare { self.old.spare ≤ self.new.spare + 1 }
        ensures beside { OnOk result (self.new.beside ≡ (self.old.beside || offers_beside event.now)) }
        ensures err { OnErr result (self.new.state ≡ self.old.state) }
        ensures same { OnErr result (self.new.beside ≡ self.old.beside) }
        ensures room { OnErr result (self.old.spare ≡ 0) }
    {
        self.reserve(1)?;
        Ok(self.step_ready(event))
    }
}
