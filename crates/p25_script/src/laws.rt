//! Lines and events determine each other, and the texts are ASCII. The functions make no call: their contracts are the
//! theorems.

ghost use Rattle.std.specs.Prelude.{◌≡◌, ◌≢◌, ℕ, ◌<◌, ◌≤◌, List, length, Ok, IsAscii};
ghost use Rattle.p25_stations.specs.{Runs.{IsEvent}, WorldState.{WorldState}, declared.step.Event.{Event as event_type}};
ghost use Rattle.p25_stations.specs.{declared.step.Event.TheVariants.{Send, ToReceiver, ToSender}, declared.step.Step.{Step as step_type}};
ghost use Rattle.p25_delivery.specs.SoundHalves.{IsMessage};
ghost use Rattle.p25_duplex.specs.{ClosingTexts.{duplex_closing_of}, DuplexSteps.{DuplexState}, declared.event.DuplexStep.{DuplexStep}};
ghost use Rattle.p25_duplex.specs.declared.side.Side.{Side};
ghost use Rattle.p25_fragments.specs.{LongState.{LongState}, declared.long_step.LongStep.{LongStep}};
ghost use Rattle.p25_script.specs.{LongTexts.{long_closing_text_of, long_step_text_of}, Script.{IsScripted, event_of, event_text}, Values.{ArePlaces}};
ghost use Rattle.p25_script.specs.StepTexts.{closing_text_of, duplex_step_text_of, step_text_of};

/// **Theorem.** Lines and events determine each other. The line of each event that is not too long decodes to that
/// event. A line that is read is the line of its event, which a script can contain, and no line decodes to an event
/// whose line is too long. Each message has a line that is not too long, and so have deliveries with at most 1,360
/// positions. The laws of the world hold for all events that a script can contain.
pub fn script_laws()
    ensures line { (event : event_type) → IsScripted event → length (event_text event) ≤ 8192 → event_of (event_text event) ≡ Ok event }
    ensures event { (line : List ℕ) (event : event_type) → event_of line ≡ Ok event → (event_text event ≡ line) × IsScripted event }
    ensures long { (line : List ℕ) (event : event_type) → 8192 < length (event_text event) → event_of line ≢ Ok event }
    ensures message { (message : List ℕ) → IsMessage message → length (event_text (Send message)) ≤ 4061 }
    ensures data { (places : List ℕ) → ArePlaces places → length places ≤ 1360 → length (event_text (ToReceiver places)) ≤ 8192 }
    ensures answer { (places : List ℕ) → ArePlaces places → length places ≤ 1360 → length (event_text (ToSender places)) ≤ 8192 }
    ensures world { (event : event_type) → IsScripted event → IsEvent event }
{}

/// **Theorem.** Each octet of the text of a step, and of the text that closes a run, is below 128, whatever the step
/// and the world are. So these texts are always UTF-8. The same holds of long messages and of stations that both send.
pub fn texts_are_ascii()
    ensures steps { (step : step_type) → IsAscii (step_text_of step) }
    ensures closing { (world : WorldState) → IsAscii (closing_text_of world) }
    ensures long_steps { (step : LongStep) → IsAscii (long_step_text_of step) }
    ensures long_closing { (world : LongState) → IsAscii (long_closing_text_of world) }
    ensures duplex_steps { (step : DuplexStep) → IsAscii (duplex_step_text_of step) }
    ensures duplex_closing { (side : Side) (d : DuplexState) → IsAscii (duplex_closing_of side d) }
{}
