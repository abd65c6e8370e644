//! Laws of the outputs of the commands for data units, and the consequences of a call by its events. The bodies are
//! empty: each function states what is proved.

ghost use Rattle.std.specs.Prelude.{◌≡◌, ℕ, true, List, ◌++◌, Some, IfSome};
ghost use Rattle.p25_io.specs.{Events.{Event}, Faults.{Rose}, Pairs.{SinkGoes, SourceGoes}, Streams.{StreamsGo, known, reader_in, writer_in}};
ghost use Rattle.p25_io.specs.declared.streams.Streams.{Streams};
ghost use Rattle.p25_filter.specs.Traces.{AreReads, HasReadFault, HasWriteFault};
ghost use Rattle.p25_tool.specs.{CallClauses.{CallSays}, CallRuns.{AreWrites, IsCallRun}, Outputs.{output_by}, Words.{command_of}, declared.outcome.Outcome.{Outcome}};
ghost use Rattle.p25_tool.specs.Built.{AcceptedAreRead, BuildsUnits, LinesAreTexts};
ghost use Rattle.p25_tool.specs.Recorded.{BridgesUnits, ChecksUnits, FollowsRecording, FollowsUnits, RelaysItself, RelaysRecording, RelaysUnits, RepairKeepsLength, RepairedIsRecorded, RepairsEachUnit, RepairsUnits, ShowsEachUnit, ShowsUnits, UnitsAreRecorded};
ghost use Rattle.p25_tool.specs.Written.{AllIsWritten, HasEnded};

use p25_io::{Sink, Source};
use std::io::{Read, Write};

/// **Theorem.** The contract of `run` for a call follows from the events of the call, which `run_on` states. So it
/// holds whenever a source and a sink went through the events of a call.
pub fn run_laws<S: Source, K: Sink>()
    ensures { (words : List (List ℕ)) (events : List Event) (outcome : Outcome) (source source_now : S) (sink sink_now : K)
        → SourceGoes S.left S.faults source events source_now → SinkGoes K.written K.faults sink events sink_now
        → IsCallRun (command_of words) events outcome
        → CallSays (command_of words) (S.left source) (S.left source_now) (K.written sink) (K.written sink_now)
        (Rose (S.faults source) (S.faults source_now)) (Rose (K.faults sink) (K.faults sink_now)) (source_now ≡ source) (sink_now ≡ sink) outcome }
{}

/// **Theorem.** The consequences of a call on streams, by the events that were made on them: the program's own call
/// states these events.
///
/// A reader may expose its remaining octets, as a slice and a cursor do, and a writer its contents, as a `Vec` does.
///
/// - `known`: the contract of `run`, as far as each of both exposes its octets. A fault is a read or a write of the
///   events that failed, and an unchanged port is not read from, or not written to. The law requires neither to expose
///   its octets: about one that does not, it states nothing.
/// - `says`: the same if both expose their octets.
/// - `ended`: if both do, a call that reached the end of its input wrote all of its output, after the former contents.
pub fn stream_laws<R: Read, W: Write>()
    ensures known { (words : List (List ℕ)) (events : List Event) (outcome : Outcome) (first last : Streams R W)
        → StreamsGo R.remaining W.contents first events last → IsCallRun (command_of words) events outcome
        → CallSays (command_of words) (R.remaining (reader_in first)) (known (R.remaining (reader_in first)) (R.remaining (reader_in last)))
        (W.contents (writer_in first)) (known (W.contents (writer_in first)) (W.contents (writer_in last))) (HasReadFault events)
        (HasWriteFault events) (AreWrites events) (AreReads events) outcome }
    ensures says { (words : List (List ℕ)) (events : List Event) (outcome : Outcome) (first last : Streams R W) (input held : List ℕ)
        → StreamsGo R.remaining W.contents first events last → IsCallRun (command_of words) events outcome
        → R.remaining (reader_in first) ≡ Some input → W.contents (writer_in first) ≡ Some held
        → CallSays (command_of words) (Some input) (R.remaining (reader_in last)) (Some held) (W.contents (writer_in last)) (HasReadFault events)
        (HasWriteFault events) (R.remaining (reader_in last) ≡ Some input) (W.contents (writer_in last) ≡ Some held) outcome }
    ensures ended { (words : List (List ℕ)) (events : List Event) (outcome : Outcome) (first last : Streams R W) (input held : List ℕ)
        → StreamsGo R.remaining W.contents first events last → IsCallRun (command_of words) events outcome
        → R.remaining (reader_in first) ≡ Some input → W.contents (writer_in first) ≡ Some held → HasEnded outcome
        → IfSome (command_of words) (λ command. W.contents (writer_in last) ≡ Some (held ++ output_by command true input)) }
{}

/// **Theorem.** Take a call of `run` that reached the end of its input. It wrote all of `output_by` of the octets that
/// the source held, after the former contents of the sink, however the reads of the source are divided. So the laws
/// below are about the output of `run`.
pub fn written_laws()
    ensures all { AllIsWritten }
{}

/// **Theorem.** The output of the commands for a recording of data units that were transmitted one after the other,
/// each damaged within the correction radius. It holds for all lists of data units and all such damage.
///
/// - `recorded`: every such list has a recording; its bits fill whole octets.
/// - `show`: one line for each data unit, whole, with the transmitted fields, and the received voice frames and status
///   symbols.
/// - `check`: the last line alone, which counts the data units and no fault.
/// - `repair`: the images of the data units as received, end to end.
/// - `repaired`: these are a recording of the same data units without damage; repairing it again changes nothing.
/// - `bridge`: the images of the data units as received under another network access code (NAC) and with one status
///   symbol.
/// - `relay`: the same.
/// - `relay_same`: if these are the received bits, the recording itself.
/// - `follow`: the recording unchanged.
pub fn recorded_laws()
    ensures recorded { UnitsAreRecorded }
    ensures show { ShowsUnits }
    ensures check { ChecksUnits }
    ensures repair { RepairsUnits }
    ensures repaired { RepairedIsRecorded }
    ensures bridge { BridgesUnits }
    ensures relay { RelaysUnits }
    ensures relay_same { RelaysItself }
    ensures follow { FollowsUnits }
{}

/// **Theorem.** The output of `follow` and `relay` for any recording. The laws of p25_follow are about these bits.
///
/// - `follow`: `follow_of` its bits, as octets: as many as the recording has.
/// - `relay`: `relay_of` its bits, as octets: as many as the recording has.
pub fn recording_laws()
    ensures follow { FollowsRecording }
    ensures relay { RelaysRecording }
{}

/// **Theorem.** The output for one data unit within the correction radius, wherever it is in a recording and whatever
/// is around it. The only condition is that no data unit that begins before it, whole, broken or cut, covers its first
/// bit.
///
/// - `show`: its line, whole and as received, at its position.
/// - `repair`: its image, at its position.
/// - `length`: the output for a recording that is repaired has as many octets as the recording.
pub fn found_laws()
    ensures show { ShowsEachUnit }
    ensures repair { RepairsEachUnit }
    ensures length { RepairKeepsLength }
{}

/// **Theorem.** `build` and `show` are inverse, for every input.
///
/// - `build`: the output has the data units of the input's lines as its items: whole, without fixes, end to end, in
///   order and with the one status symbol. So `show` of it writes one line for each of them.
/// - `texts`: these are the data units of the lines before the first that is refused, and these lines are their texts,
///   in order.
/// - `accepted`: if every line decodes to a data unit, these are the data units, and all lines are their texts.
pub fn built_laws()
    ensures build { BuildsUnits }
    ensures texts { LinesAreTexts }
    ensures accepted { AcceptedAreRead }
{}
