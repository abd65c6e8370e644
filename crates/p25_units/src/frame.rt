//! A data unit with the status symbols that are transmitted among its bits.

ghost use Rattle.std.specs.Prelude.{◌≡◌, ◌≤◌, []};
ghost use Rattle.p25_units.specs.Terminators.{terminator};
ghost use Rattle.p25_units.specs.Units.{IsSendableBody, IsSoundFrame, IsWholeBody, filled_frame, frame_length_of};

use crate::unit::{Body, Unit};
use p25_packet_blocks::packet_length;
use p25_status::{BARE_BLOCK_LENGTH, SENT_BLOCK_LENGTH, Status, Statuses};
use p25_voice_units::VoiceUnit;

/// A data unit and its status symbols. It is sound if a packet in it is whole and there is one symbol for each 72 of
/// its transmitted bits.
#[derive(Clone, Debug, Drop, PartialEq, Eq)]
pub struct Frame {
    /// The data unit.
    pub unit: Unit,
    /// Its status symbols, first to last.
    pub statuses: Statuses,
}

impl Frame {
    // Returns a frame into which another is decoded. It is large, so it is made in a function of its own.
    pub(crate) fn blank() -> Frame
        ensures { result ≡ terminator 0 [] }
    {
        Frame {
            unit: Unit::new(0, Body::Voice(VoiceUnit::End)),
            statuses: Statuses::new(),
        }
    }

    /// Returns the frame of a data unit whose status symbols are all the same, as many as its length requires: one for
    /// each 72 of its transmitted bits. It is sound if no slot of a packet is `Bad`. TIA-102.BAAA, Status Symbols.
    pub fn filled(unit: Unit, status: Status) -> Frame
        ensures value { result ≡ filled_frame status unit }
        ensures sound { IsWholeBody unit.body → IsSoundFrame result }
        ensures sendable { IsSendableBody unit.body → IsSoundFrame result }
    {
        let statuses = Statuses::filled(status, frame_length(&unit) / SENT_BLOCK_LENGTH);
        Frame { unit, statuses }
    }
}

/// Returns the number of transmitted bits of a data unit, with its status symbols. It is 144 (TDU) to 1,728 (LDU1 and
/// LDU2) for a voice data unit, and 360 to 25,920 for a packet (PDU).
pub fn frame_length(unit: &Unit) -> usize
    ensures value { result ≡ frame_length_of unit.now }
    ensures most { result ≤ 25920 }
{
    match unit.body() {
        Body::Voice(voice) => voice.length() / BARE_BLOCK_LENGTH * SENT_BLOCK_LENGTH,
        Body::Packet(packet) => packet_length(&packet.head()),
    }
}
