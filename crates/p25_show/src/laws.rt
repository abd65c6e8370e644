//! The consequences of a call of `show`, and the decodings in its lines.

ghost use Rattle.std.specs.Prelude.{◌≡◌, ℕ, Bool, true, List, [], ◌∷◌, codes, Some};
ghost use Rattle.p25_io.specs.{Events.{Event}, Faults.{Rose}, Streams.{StreamsGo, reader_in, writer_in}, declared.streams.Streams.{Streams}};
ghost use Rattle.p25_filter.specs.Traces.{HasReadFault, HasWriteFault};
ghost use Rattle.p25_trellis.specs.{Nearest.{half_octets, three_quarter_octets}, Tables.{half_point, three_quarter_point}};
ghost use Rattle.p25_status.specs.Sync.{has_sync};
ghost use Rattle.p25_unit_front.specs.Front.{identifier_of};
ghost use Rattle.p25_units.specs.Needs.{need_of};
ghost use Rattle.p25_tool.specs.{CallClauses.{CallSays}, CallRuns.{IsCallRun}, Words.{command_of}, declared.command.Command.{Command}};
ghost use Rattle.p25_tool.specs.declared.outcome.Outcome.{Outcome};
ghost use Rattle.p25_show.specs.{Calls.{ShowSays}, Needs.{need_at}};
ghost use Rattle.p25_show.specs.Readings.{BlocksAreRead, ChecksAreMade, CodesAreRead, IsNearestBlock, IsUnitRead, identifier_read};
ghost use Rattle.p25_show.specs.{Tables.{ExaminedRows, LineRows, PacketRows, VoiceRows}, Unhidden.{AloneIsFound, FoundHasLine, UnhiddenIsFound}};

use p25_io::{Sink, Source};
use p25_tool::laws::stream_laws;
use p25_trellis::laws::nearest_laws;
use p25_trellis::{Half, ThreeQuarter};
use std::io::{Read, Write};

/// **Theorem.** The consequences of a call of `show`, if the source and the sink expose their contents. They follow
/// from the contract of `run` for each call.
///
/// - `named`: only the word `show` names this command.
/// - `says`: the octets taken and written, the end of the call and its reason.
pub fn show_laws<S: Source, K: Sink>()
    ensures named { command_of (codes "show" ∷ []) ≡ Some Command.Show }
    ensures says { (words : List (List ℕ)) (input before : List ℕ) (source source_now : S) (sink sink_now : K) (outcome : Outcome)
        → command_of words ≡ Some Command.Show → S.left source ≡ Some input → K.written sink ≡ Some before
        → CallSays (command_of words) (S.left source) (S.left source_now) (K.written sink) (K.written sink_now)
        (Rose (S.faults source) (S.faults source_now)) (Rose (K.faults sink) (K.faults sink_now)) (source_now ≡ source) (sink_now ≡ sink) outcome
        → ShowSays input before (S.left source_now) (K.written sink_now) (Rose (S.faults source) (S.faults source_now))
        (Rose (K.faults sink) (K.faults sink_now)) (sink_now ≡ sink) outcome }
{}

/// **Theorem.** The same holds of a call of `show` on streams, as the program makes it, if the reader exposes its
/// remaining octets and the writer its contents. The program's own call states these events.
pub fn show_stream_laws<R: Read, W: Write>()
    ensures says { (words : List (List ℕ)) (events : List Event) (outcome : Outcome) (first last : Streams R W) (input before : List ℕ)
        → StreamsGo R.remaining W.contents first events last → IsCallRun (command_of words) events outcome → command_of words ≡ Some Command.Show
        → R.remaining (reader_in first) ≡ Some input → W.contents (writer_in first) ≡ Some before
        → ShowSays input before (R.remaining (reader_in last)) (W.contents (writer_in last)) (HasReadFault events) (HasWriteFault events)
        (W.contents (writer_in last) ≡ Some before) outcome }
{
    stream_laws::<R, W>()
}

/// **Theorem.** The decodings in the lines of `show`.
///
/// - `needs`: the need at a sync.
/// - `identifier`: the NID of a data unit's bits.
/// - `units`: the item of the bits of a data unit whose NID is decoded.
/// - `codes`: each code decodes the received word to the codeword of its set within the correction radius, or to none
///   if there is none.
/// - `blocks`: a block of a packet decodes to the octets that the first of its nearest paths carries.
/// - `checks`: the checks of packets are the inverted remainders of their messages.
pub fn reading_laws()
    ensures needs { (bits : List Bool) → has_sync bits ≡ true → need_of bits ≡ need_at bits }
    ensures identifier { (sent : List Bool) → identifier_of sent ≡ identifier_read sent }
    ensures units { (place : ℕ) (sent : List Bool) (nac duid : ℕ) → identifier_of sent ≡ Some (nac, duid) → IsUnitRead place sent nac duid }
    ensures codes { CodesAreRead }
    ensures blocks { BlocksAreRead }
    ensures checks { ChecksAreMade }
{
    half_blocks();
    three_quarter_blocks();
}

/// **Theorem.** The tables of the page that explains `show`, row by row.
///
/// - `voice`: the decoding of a voice unit, by its DUID: the positions of its inner codewords, their decoder, the outer codeword, the octets of
///   its fields, and the fields that fail, in order.
/// - `packets`: the decoding of a packet, by the format in its header.
/// - `examined`: the bits that `fixes_of` counts, by the type of data unit.
/// - `lines`: the line of a data unit, by its type: the keys in their order, each with its octets.
pub fn table_laws()
    ensures voice { VoiceRows }
    ensures packets { PacketRows }
    ensures examined { ExaminedRows }
    ensures lines { LineRows }
{}

/// **Theorem.** When a data unit within its correction radius has its line, by conditions that can be tested on a recording.
///
/// - `unhidden`: it is found among the items, whole and as received, if each sync in the 25,919 bits before it is in a unit with a line
///   (whole, broken or cut) that ends before it. The recording and its lines decide this condition.
/// - `alone`: it is found if no sync begins in these bits. The recording alone decides this condition.
/// - `line`: a unit that is found has its line among the lines.
pub fn unhidden_laws()
    ensures unhidden { UnhiddenIsFound }
    ensures alone { AloneIsFound }
    ensures line { FoundHasLine }
{}

// The decoding of a block at half rate.
fn half_blocks()
    ensures read { (received : List Bool) → IsNearestBlock 4 2 half_point received (half_octets received) }
{
    nearest_laws::<Half>()
}

// The decoding of a block at three-quarter rate.
fn three_quarter_blocks()
    ensures read { (received : List Bool) → IsNearestBlock 8 3 three_quarter_point received (three_quarter_octets received) }
{
    nearest_laws::<ThreeQuarter>()
}
