//! Data units as transmitted.

ghost use Rattle.std.specs.Prelude.{◌≡◌, ◌<◌, Ok, length};
ghost use Rattle.p25_units.specs.Readings.{unit_reading_of};
ghost use Rattle.p25_units.specs.Units.{IsSendableBody, IsSendableUnit, IsSoundFrame, IsWholeBody, body_image_of, body_length, frame_as, frame_length_of, image_of, unit_image_of};

use crate::frame::Frame;
use crate::unit::{Body, Unit};
use p25_bits::BitBuf;
use p25_packet_blocks::packet_image;
use p25_status::{Statuses, weave};
use p25_voice_units::voice_image;

/// Encodes a frame: writes to `out` its transmitted bits, first to last, those of its data unit with a status symbol
/// after every 70. It requires that no slot of a packet is `Bad`, and that there is a status symbol for each 72 of the
/// bits. TIA-102.BAAA, Status Symbols.
pub fn image(frame: &Frame, out: &mut BitBuf)
    requires { IsSoundFrame frame.now }
    ensures list { out.new ≡ image_of frame.now }
    ensures len { length out.new ≡ frame_length_of frame.now.unit }
    ensures sendable { IsSendableUnit frame.now.unit }
    ensures again { unit_reading_of out.new ≡ Ok frame.now }
{
    let mut bare = BitBuf::new();
    unit_image(&frame.unit, &mut bare);
    weave(&bare, &frame.statuses, out);
}

/// Writes to `out` the transmitted bits of a frame's data unit under another network access code, with other status
/// symbols, as many as the frame has.
pub fn image_as(frame: &Frame, nac: u16, statuses: &Statuses, out: &mut BitBuf)
    requires sound { IsSoundFrame frame.now }
    requires nac { nac < 4096 }
    requires symbols { length statuses.now ≡ length frame.now.statuses }
    ensures { out.new ≡ image_of (frame_as nac statuses.now frame.now) }
{
    image_as_in(frame, nac, statuses, &mut BitBuf::new(), out);
}

/// Writes to `out` as `image_as` does. `room` is a buffer for the frame's bits without status symbols; its contents
/// before and after have no meaning.
pub fn image_as_in(
    frame: &Frame,
    nac: u16,
    statuses: &Statuses,
    room: &mut BitBuf,
    out: &mut BitBuf,
)
    requires sound { IsSoundFrame frame.now }
    requires nac { nac < 4096 }
    requires symbols { length statuses.now ≡ length frame.now.statuses }
    ensures { out.new ≡ image_of (frame_as nac statuses.now frame.now) }
{
    body_image(nac, frame.unit.body(), room);
    weave(room, statuses, out);
}

/// Encodes a data unit: writes to `out` its bits without status symbols, first to last. It requires that no slot of a
/// packet is `Bad`.
pub fn unit_image(unit: &Unit, out: &mut BitBuf)
    requires { IsWholeBody unit.now.body }
    ensures list { out.new ≡ unit_image_of unit.now }
    ensures len { length out.new ≡ body_length unit.now.body }
    ensures sendable { IsSendableUnit unit.now }
{
    body_image(unit.nac(), unit.body(), out)
}

// Writes to `out` a data unit's bits without status symbols, by its body.
fn body_image(nac: u16, body: &Body, out: &mut BitBuf)
    requires nac { nac < 4096 }
    requires whole { IsWholeBody body.now }
    ensures list { out.new ≡ body_image_of nac body.now }
    ensures len { length out.new ≡ body_length body.now }
    ensures sendable { IsSendableBody body.now }
{
    match body {
        Body::Voice(voice) => voice_image(nac, voice, out),
        Body::Packet(packet) => packet_image(nac, packet, out),
    }
}
