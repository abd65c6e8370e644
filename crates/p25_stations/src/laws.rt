//! The guarantees of the channel, of every run of the world, and of every run without a false pass. Each function makes
//! no call of its own: its contract is the theorem.

ghost use Rattle.std.specs.Prelude.{◌≡◌, ℕ, ◌≤◌, true, false, List, [], ◌∷◌, length, ◌<◌, ◌↔◌};
ghost use Rattle.p25_delivery.specs.{MessageBlocks.{block_count}, SenderRules.{opening_number}, declared.sender.Outstanding.TheVariants.{Nothing}};
ghost use Rattle.p25_delivery.specs.{Orderly.{AreOrderly, AreCounted, AreWhole, IsTrueTo}, Delivery.{sessions_of}, Facts.{DeliveryFacts}};
ghost use Rattle.p25_delivery.specs.SoundHalves.{IsMessage};
ghost use Rattle.p25_messages.specs.declared.step_kind.StepKind.TheVariants.{Taken, Reopened, Delivered, SynHeard, Acknowledged, LinkOpened};
ghost use Rattle.p25_stations.specs.Steps.{world_step, Packet as packet_type, Event as event_type, Send, Reopen, ToReceiver, ToSender, first_world};
ghost use Rattle.p25_stations.specs.Runs.{AreEvents, world_run, steps_of, IsCleanRun, IsWithin, AreWithin, IsTwiceDamaged, true_step, tries_in, delivered_in, sent_in, acknowledged_in};
ghost use Rattle.p25_stations.specs.{declared.air.Carried.TheVariants.{Heard as heard_packet}, Air.{is_true_to, carried_of, ArrivesWithin, places_within}};
ghost use Rattle.p25_packet_blocks.specs.Sendable.{IsSendable};

use p25_packet_blocks::laws::packet_radius;

/// **Theorem.** After every list of events without a false pass each session is orderly. The delivered messages are the
/// beginning of the sent ones, each once. Every acknowledged message was delivered, and at most one was delivered that
/// was not acknowledged.
pub fn clean_runs_are_orderly()
    ensures { (events : List event_type) → AreEvents events → IsCleanRun events →
        AreOrderly (sessions_of (world_run first_world events).delivery) }
{}

/// **Theorem.** The delivery of a world keeps the facts that `DeliveryFacts` names while no step was a false pass.
pub fn world_facts()
    ensures { (events : List event_type) → AreEvents events → IsCleanRun events → DeliveryFacts (world_run first_world events).delivery }
{}

/// **Theorem.** The laws of every run, clean or not. In each session every acknowledged message was sent, and at most
/// one message was sent that was not acknowledged; and the sessions make up the lists. A message or an opening packet
/// is transmitted at most 16 times. No step was a false pass if and only if none is counted.
pub fn runs_are_counted()
    ensures sessions { (events : List event_type) → AreCounted (sessions_of (world_run first_world events).delivery) }
    ensures whole { (events : List event_type) → AreWhole (world_run first_world events).delivery }
    ensures tries { (events : List event_type) → AreEvents events → tries_in 0 (steps_of first_world events) ≤ 16 }
    ensures clean { (events : List event_type) → (world_run first_world events).false_passes ≡ 0 → IsCleanRun events }
    ensures none { (events : List event_type) → IsCleanRun events → (world_run first_world events).false_passes ≡ 0 }
{}

/// **Theorem.** The deliveries that are no false passes, after any list of events: those within the correction radius,
/// and those in which at most one bit is inverted.
pub fn damage_within_radius()
    ensures within { (events : List event_type) (event : event_type) → AreEvents events →
        IsWithin (world_run first_world events) event →
        (world_step (world_run first_world events) event).1.false_pass ≡ false }
    ensures twice { (events : List event_type) (event : event_type) → AreEvents events →
        (world_step (world_run first_world events) event).1.false_pass ≡ true →
        IsTwiceDamaged (world_run first_world events) event }
{
    packet_radius();
}

/// **Theorem.** The effect of deliveries within the correction radius. After a clean run with nothing outstanding, a
/// message is taken, delivered and acknowledged. After any run a sender that is down opens the session again.
pub fn deliveries_within_radius()
    ensures delivered { (events : List event_type) (message first second : List ℕ) → AreEvents events →
        (world_run first_world events).false_passes ≡ 0 → IsMessage message →
        (world_run first_world events).delivery.outbound.sender.outstanding ≡ Nothing →
        AreWithin (world_run first_world events) (Send message ∷ ToReceiver first ∷ ToSender second ∷ []) →
        (let number = (world_run first_world events).delivery.outbound.sender.next in
        steps_of (world_run first_world events) (Send message ∷ ToReceiver first ∷ ToSender second ∷ []) ≡
        true_step (Taken number (block_count (length message))) ∷ true_step (Delivered number message) ∷
        true_step (Acknowledged number) ∷ []) }
    ensures opened { (events : List event_type) (first second : List ℕ) → AreEvents events →
        (world_run first_world events).delivery.outbound.sender.down ≡ true →
        AreWithin (world_run first_world events) (Reopen ∷ ToReceiver first ∷ ToSender second ∷ []) →
        (let sender = (world_run first_world events).delivery.outbound.sender in
        let number = opening_number sender.outstanding sender.next in
        steps_of (world_run first_world events) (Reopen ∷ ToReceiver first ∷ ToSender second ∷ []) ≡
        true_step (Reopened number) ∷ true_step (SynHeard number) ∷ true_step (LinkOpened number) ∷ []) }
{
    packet_radius();
}

/// **Theorem.** The guarantees of the channel. A received packet that is no false pass is true to the transmitted one:
/// it has the same header, and the same octets or slots, except those that are `Bad`. The test of a false pass is
/// exactly that. A packet that arrives within the correction radius is received as transmitted, and is no false pass.
/// One in which at most one bit is inverted arrives within the correction radius.
pub fn air_is_true()
    ensures exactly { (sent : packet_type) (packet : packet_type) → IsTrueTo sent packet ↔ (is_true_to sent packet ≡ true) }
    ensures heard { (sent : packet_type) (flips : List ℕ) (packet : packet_type)
        → carried_of sent flips ≡ heard_packet packet false → IsTrueTo sent packet }
    ensures within { (sent : packet_type) (flips : List ℕ)
        → IsSendable sent → ArrivesWithin sent flips → carried_of sent flips ≡ heard_packet sent false }
    ensures few { (sent : packet_type) (flips : List ℕ) → IsSendable sent → places_within sent flips < 2 → ArrivesWithin sent flips }
{
    packet_radius();
}

/// **Theorem.** The steps of every run determine its lists. The messages of the `Delivered` steps, in order, are those
/// delivered. The messages of the events whose step is `Taken` are those sent. The number of the `Acknowledged` steps
/// is that of the messages acknowledged.
pub fn steps_tell_lists()
    ensures delivered { (events : List event_type) →
        (world_run first_world events).delivery.inbound.received ≡ delivered_in (steps_of first_world events) }
    ensures sent { (events : List event_type) →
        (world_run first_world events).delivery.outbound.sent ≡ sent_in events (steps_of first_world events) }
    ensures acknowledged { (events : List event_type) →
        (world_run first_world events).delivery.outbound.acknowledged ≡ acknowledged_in (steps_of first_world events) }
{}
