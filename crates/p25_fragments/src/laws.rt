//! The theorems on long messages. No function here makes a call: its contract is the theorem.

ghost use Rattle.std.specs.Prelude.{◌≡◌, List, length};
ghost use Rattle.p25_delivery.specs.Orderly.{AreOrderly, AreWhole};
ghost use Rattle.p25_fragments.specs.LongRuns.{AreLongEvents, long_run, long_steps_of, inner_steps, IsInnerRun, IsCleanLongRun, AreUnrefused, long_delivery, long_sessions_of, first_world, first_long, LongEvent as event_type, finished_in, taken_in, whole_in};

/// **Theorem.** The effect of a list of events. The inner world has a run of its own, and its steps are those of the
/// events and of the offers of parts. A session begins with each one of the inner world. If no step of the inner world
/// is a false pass, no part is refused, and each session is orderly. The whole long messages are the beginning of those
/// taken, in order and each once. Every acknowledged long message is whole, and at most one is whole that was not
/// acknowledged. In every run the sessions make up the lists.
pub fn long_messages_come_whole()
    ensures inner { (events : List event_type) →
        IsInnerRun first_world (long_run first_long events).inner (inner_steps (long_steps_of first_long events)) }
    ensures marks { (events : List event_type) →
        length (long_run first_long events).marks ≡ length (long_run first_long events).inner.delivery.outbound.marks }
    ensures whole { (events : List event_type) → AreWhole (long_delivery (long_run first_long events)) }
    ensures unrefused { (events : List event_type) → AreLongEvents events → IsCleanLongRun events →
        AreUnrefused (long_steps_of first_long events) }
    ensures sessions { (events : List event_type) → AreLongEvents events → IsCleanLongRun events →
        AreOrderly (long_sessions_of (long_run first_long events)) }
{}

/// **Theorem.** No step of the inner world was a false pass if and only if the inner world counts none.
pub fn long_false_passes_are_counted()
    ensures clean { (events : List event_type) → (long_run first_long events).inner.false_passes ≡ 0 → IsCleanLongRun events }
    ensures none { (events : List event_type) → IsCleanLongRun events → (long_run first_long events).inner.false_passes ≡ 0 }
{}

/// **Theorem.** The steps of every run determine its lists. The messages of the `Whole` steps, in order, are those that
/// were received whole. The long messages of the events whose step is `Started` are those taken. The number of the
/// `Finished` steps is that of the long messages acknowledged.
pub fn long_steps_tell_lists()
    ensures whole { (events : List event_type) → (long_run first_long events).whole ≡ whole_in (long_steps_of first_long events) }
    ensures taken { (events : List event_type) → (long_run first_long events).taken ≡ taken_in events (long_steps_of first_long events) }
    ensures acknowledged { (events : List event_type) → (long_run first_long events).acknowledged ≡ finished_in (long_steps_of first_long events) }
{}
