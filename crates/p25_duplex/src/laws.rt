//! The guarantees of every run of the duplex world, and those of every run without a false pass for the messages of
//! each side. No function here makes a call: its contract is the theorem.

ghost use Rattle.std.specs.Prelude.{◌≡◌, List, Some, IfSome};
ghost use Rattle.p25_delivery.specs.{Delivery.{Happening, first_delivery, delivery_run, sessions_of}, Orderly.{IsCleanRun, AreOrderly, AreWhole}};
ghost use Rattle.p25_delivery.specs.Facts.{DeliveryFacts};
ghost use Rattle.p25_duplex.specs.DuplexRuns.{AreDuplexEvents, IsCleanDuplex, duplex_run, duplex_steps, data_in, answer_in, delivery_after, Side as side_type, first_duplex, delivery_at, DuplexEvent as event_type, other_side, side_acknowledged_in, side_heard_in, side_sent_in};

/// **Theorem.** After every list of events without a false pass each session of each side's messages is orderly. The
/// delivered messages are the beginning of the sent ones, each once. Every acknowledged message was delivered, and at
/// most one was delivered that was not acknowledged.
pub fn both_directions_are_orderly()
    ensures { (events : List event_type) (side : side_type) → AreDuplexEvents events → IsCleanDuplex events →
        AreOrderly (sessions_of (delivery_at side (duplex_run first_duplex events))) }
{}

/// **Theorem.** The facts that the messages of each side keep while no step was a false pass. Their delivery has the
/// newest data of the side's direction and the newest response of the other's. It is one to which a clean run of a
/// delivery leads, so the laws of p25_delivery for such runs hold for it. It also keeps the facts that `DeliveryFacts`
/// names. If a direction carries data, or a response, that is the newest of the delivery.
pub fn duplex_facts()
    ensures clean { (events : List event_type) (side : side_type) → AreDuplexEvents events → IsCleanDuplex events →
        (happenings : List Happening) × IsCleanRun first_delivery happenings × (delivery_run first_delivery happenings ≡ delivery_after side events) }
    ensures facts { (events : List event_type) (side : side_type) → AreDuplexEvents events → IsCleanDuplex events →
        DeliveryFacts (delivery_after side events) }
    ensures newest_data { (events : List event_type) (side : side_type) →
        IfSome (data_in (delivery_at side (duplex_run first_duplex events)).packet_sent)
        (λ packet. (delivery_after side events).packet_sent ≡ Some packet) }
    ensures newest_answer { (events : List event_type) (side : side_type) →
        IfSome (answer_in (delivery_at side (duplex_run first_duplex events)).answer)
        (λ packet. (delivery_after side events).answer ≡ Some packet) }
{}

/// **Theorem.** In every run, clean or not, the sessions of a side's messages make up its lists. Joined, their sent
/// messages are all that were sent, and their delivered messages all that were delivered. Their counts of acknowledged
/// messages add up to that of the run, and there is one session more than messages were given up.
pub fn duplex_sessions_are_whole()
    ensures { (events : List event_type) (side : side_type) → AreWhole (delivery_at side (duplex_run first_duplex events)) }
{}

/// **Theorem.** No step of a run was a false pass if and only if none is counted.
pub fn false_passes_are_counted()
    ensures clean { (events : List event_type) → (duplex_run first_duplex events).false_passes ≡ 0 → IsCleanDuplex events }
    ensures none { (events : List event_type) → IsCleanDuplex events → (duplex_run first_duplex events).false_passes ≡ 0 }
{}

/// **Theorem.** The steps of every run determine the lists of each side. The messages of the `Delivered` steps at the
/// other side, in order, are those of this side that were delivered. The messages of this side's events whose step is
/// `Taken` are those sent. The number of this side's `Acknowledged` steps is that of its messages acknowledged.
pub fn duplex_steps_tell_lists()
    ensures delivered { (events : List event_type) (side : side_type) →
        (delivery_at side (duplex_run first_duplex events)).inbound.received ≡ side_heard_in (other_side side) (duplex_steps first_duplex events) }
    ensures sent { (events : List event_type) (side : side_type) →
        (delivery_at side (duplex_run first_duplex events)).outbound.sent ≡ side_sent_in side events (duplex_steps first_duplex events) }
    ensures acknowledged { (events : List event_type) (side : side_type) →
        (delivery_at side (duplex_run first_duplex events)).outbound.acknowledged ≡ side_acknowledged_in side (duplex_steps first_duplex events) }
{}
