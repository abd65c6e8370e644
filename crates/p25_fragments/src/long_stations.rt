//! Two stations with long messages, without the history of their events.

#![tactic(auto, unfolding(crate::specs::LongSteps::long_step, crate::specs::LongSteps::started, crate::specs::LongSteps::inner_happened))]

ghost use Rattle.std.specs.Prelude.{◌≡◌, ◌+◌, ◌<◌, ◌≤◌};
ghost use Rattle.p25_fragments.specs.LongSteps.{long_step, started, long_offered, after_acknowledged, after_delivered, after_kind, session_ended, inner_happened};
ghost use Rattle.p25_fragments.specs.{LongState.{first_long, TakesRoom}, Joining.{message_taken}};
ghost use Rattle.p25_stations.specs.Steps.{world_step};

use crate::joiner::{Joined, Joiner};
use crate::long_step::{LongEvent, LongStep, Then};
use p25_delivery::Mark;
use p25_messages::{LongList, LongMessage, Message};
use p25_stations::{Event, Step, StepKind, World};
use std::alloc::Global;
use std::marker::Model;

/// An outstanding part: its long message, and its number.
#[derive(Debug, Drop)]
pub(crate) struct OutstandingPart {
    message: LongMessage,
    number: u8,
}

/// The world of two stations, and the long messages that it carries in parts. The history that a world keeps is not
/// part of it.
#[derive(Debug, Drop)]
pub(crate) struct LongStations {
    pub(crate) inner: World,
    // the long message with an outstanding part
    outstanding: Option<OutstandingPart>,
    joiner: Joiner,
    pub(crate) taken: LongList,
    pub(crate) whole: LongList,
    pub(crate) acknowledged: u64,
    // the ends of the sessions before the present one
    pub(crate) marks: Vec<Mark>,
}

// Returns a step in which nothing changes.
fn unmoved(then: Then) -> LongStep
    ensures { result ≡ record { first = None; then = then } }
{
    LongStep { first: None, then }
}

impl Model for LongStations {
    ghost use Rattle.p25_fragments.specs.LongState.{LongParts};

    ghost Value = { LongParts };

    ghost use Rattle.p25_fragments.specs.{LongState.{IsLongState}, Inside.{state_of, parts_of}};

    ghost view = { parts_of };

    ghost invariant = { λ w. IsLongState (state_of w) };
}

impl LongStations {
    /// Returns a world before its first step: no long message was taken. It allocates no memory.
    pub(crate) fn new(alloc: Global) -> LongStations
        ensures { result.state ≡ first_long }
    {
        LongStations {
            inner: World::new(alloc),
            outstanding: None,
            joiner: Joiner::new(),
            taken: LongList::new(alloc),
            whole: LongList::new(alloc),
            acknowledged: 0,
            marks: Vec::new(alloc),
        }
    }

    /// Makes the step of an event, and returns it. It requires capacity for it, and allocates no memory.
    pub(crate) fn step_ready(&mut self, event: &LongEvent) -> LongStep
        requires { 0 < self.old.spare }
        ensures step { (self.new.state, result) ≡ long_step self.old.state event.now }
        ensures spare { self.old.spare ≤ self.new.spare + 1 }
    {
        match event {
            LongEvent::Long(message) => self.offer(message),
            LongEvent::Inner(event) => self.happen(event),
        }
    }

    // Offers a long message.
    fn offer(&mut self, message: &LongMessage) -> LongStep
        requires { 0 < self.old.spare }
        ensures step { (self.new.state, result) ≡ long_offered self.old.state message.now }
        ensures spare { self.old.spare ≤ self.new.spare + 1 }
    {
        let step = self.inner.step_ready(&Event::Send(message.part(0)));
        match step.kind {
            StepKind::OfferDown => unmoved(Then::Down),
            StepKind::Busy => unmoved(Then::Busy),
            _ => self.start(message, step),
        }
    }

    // Takes a long message, whose part 0 was offered in a step.
    fn start(&mut self, message: &LongMessage, step: Step) -> LongStep
        requires { 0 < self.old.own_spare }
        ensures step { (self.new.state, result) ≡ started self.old.state message.now (self.old.state.inner, step) }
        ensures room { TakesRoom self.old self.new }
    {
        self.taken.push(message);
        self.outstanding = Some(OutstandingPart {
            message: message.clone().unwrap(),
            number: 0,
        });
        LongStep {
            first: Some(step),
            then: Then::Started {
                parts: message.parts(),
            },
        }
    }

    // Makes an event of the inner world happen.
    fn happen(&mut self, event: &Event) -> LongStep
        requires { 0 < self.old.spare }
        ensures step { (self.new.state, result) ≡ inner_happened self.old.state (world_step self.old.state.inner event.now) }
        ensures spare { self.old.spare ≤ self.new.spare + 1 }
    {
        let sessions = self.inner.sessions();
        let step = self.inner.step_ready(event);
        let then = if sessions < self.inner.sessions() {
            self.end_session()
        } else {
            self.go_on(&step.kind)
        };
        LongStep {
            first: Some(step),
            then,
        }
    }

    // Gives up the outstanding long message, if its session has ended.
    fn end_session(&mut self) -> Then
        requires { 0 < self.old.own_spare }
        ensures step { (self.new.state, result) ≡ session_ended self.old.state }
        ensures room { TakesRoom self.old self.new }
    {
        self.outstanding = None;
        self.marks
            .push(Mark {
                sent: self.taken.len() as u64,
                delivered: self.whole.len() as u64,
                acknowledged: self.acknowledged,
            })
            .unwrap();
        Then::Plain
    }

    // Makes the changes that follow a step of the inner world of that type.
    #[tactic(auto, using(crate::proofs::KindLaws::other_kind), unfolding(crate::specs::LongSteps::after_kind))]
    fn go_on(&mut self, kind: &StepKind) -> Then
        requires inner { 0 < self.old.inner_spare }
        requires own { 0 < self.old.own_spare }
        ensures step { (self.new.state, result) ≡ after_kind kind.now self.old.state }
        ensures room { TakesRoom self.old self.new }
    {
        match kind {
            StepKind::Acknowledged { .. } => self.acknowledge(),
            StepKind::Delivered { message, .. } => self.deliver(message),
            StepKind::SynHeard { .. } => {
                self.joiner.reset();
                Then::Plain
            }
            _ => {
                // For the prover: the joiner is sound, and its capacity stays.
                let _ = &self.joiner;
                Then::Plain
            }
        }
    }

    // Offers the part after the acknowledged one, or counts its long message as acknowledged.
    #[tactic(auto, unfolding(crate::specs::LongSteps::after_acknowledged, crate::specs::LongSteps::next_offered))]
    fn acknowledge(&mut self) -> Then
        requires inner { 0 < self.old.inner_spare }
        ensures step { (self.new.state, result) ≡ after_acknowledged self.old.state.outstanding self.old.state }
        ensures room { TakesRoom self.old self.new }
    {
        let Some(sent) = self.outstanding.take() else {
            return Then::Plain;
        };
        let number = sent.number + 1;
        if number < sent.message.parts() {
            let step = self
                .inner
                .step_ready(&Event::Send(sent.message.part(number)));
            self.outstanding = Some(OutstandingPart {
                message: sent.message,
                number,
            });
            return Then::Next(step);
        }
        // For the prover: at most as many are acknowledged as were taken, and their number fits.
        let _ = self.taken.len();
        self.acknowledged += 1;
        Then::Finished
    }

    // Passes a delivered message to the joiner, and keeps the long message that is whole with it.
    #[tactic(auto, unfolding(crate::specs::LongSteps::after_delivered))]
    fn deliver(&mut self, message: &Message) -> Then
        requires { 0 < self.old.own_spare }
        ensures step { (self.new.state, result) ≡ after_delivered self.old.state (message_taken self.old.state.joining message.now) }
        ensures room { TakesRoom self.old self.new }
    {
        match self.joiner.take(message) {
            Joined::Whole(message) => {
                self.whole.push(&message);
                Then::Whole(message)
            }
            Joined::Part { number } => Then::Part { number },
            Joined::Refused => Then::Refused,
        }
    }
}
