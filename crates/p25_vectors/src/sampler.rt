//! The sample data units, one after the other.

ghost use Rattle.std.specs.Prelude.{◌≡◌, ◌+◌, ◌<◌, Ok, length};
ghost use Rattle.p25_units.specs.{Needs.{need_of}, Readings.{unit_reading_of}, Units.{IsSendableUnit, IsSoundFrame}, WithinRadius.{IsWithinRadius}};
ghost use Rattle.p25_units.specs.declared.needs.Need.TheVariants.{Length};
ghost use Rattle.p25_vectors.specs.Damage.{inversions, unit_hits};
ghost use Rattle.p25_vectors.specs.Samples.{damaged_image, frame_next, sample_bits, sample_flips, sample_frame};

use crate::bodies::{Kind, draw_body, kind_at};
use crate::damage::damage;
use crate::draws::Draws;
use p25_bits::BitBuf;
use p25_status::{Status, weave};
use p25_units::{Frame, Unit, unit_image};
use std::marker::Model;

/// A sample data unit.
#[derive(Drop)]
pub struct SampleUnit {
    /// The frame, undamaged.
    pub frame: Frame,
    /// The number of its transmitted bits that are inverted.
    pub flips: u32,
}

/// The sample data units from the first one on. This is the project's own rule for them:
///
/// - A draw replaces a state below 2^32, which starts at 0, by 1664525 times it plus 1013904223, modulo 2^32. The
///   number drawn is the new state divided by 65,536, and an octet is a number drawn modulo 256.
/// - The draws of each data unit are, in this order: its network access code (NAC), modulo 4,096; its status symbol,
///   modulo 4, the same everywhere; its fields, octet by octet in the order of transmission; and its damage. For a
///   packet (PDU) with blocks their number, 1 plus a number modulo 4, comes first, and then the LLID.
/// - The damage is the number of first bits that are inverted. The draws are, for the sync, modulo 5, and for the
///   network identifier (NID), modulo 12. Then comes the number of inner codewords of the coded field that are inverted
///   whole: modulo 9 for a header (HDU), 4 for a terminator with link control (TDULC), 7 for voice with link control
///   (LDU1) and 5 for voice with encryption sync (LDU2). Then come each later inner codeword, modulo 4 for Golay and 2
///   for Hamming, and each codeword of low speed data (LSD), modulo 3. The header block and each half-rate block of a
///   packet are drawn modulo 3, and each three-quarter-rate block modulo 2.
#[derive(Clone, Debug, Drop)]
pub struct Sampler {
    draws: Draws,
    given: u32,
}

impl Model for Sampler {
    ghost use Rattle.std.specs.Prelude.{◌≡◌, ◌≤◌, ℕ};
    ghost use Rattle.p25_vectors.specs.Samples.{state_before};

    ghost Value = { ℕ };

    ghost view = { λ s. s.given };

    ghost invariant = { λ s. (s.given ≤ 10000) × (s.draws ≡ state_before s.given) };
}

impl Sampler {
    /// Returns the sampler before data unit 0.
    pub fn new() -> Sampler
        ensures { result ≡ 0 }
    {
        Sampler {
            draws: Draws::new(),
            given: 0,
        }
    }

    /// Returns the next data unit, with its undamaged frame and the number of its inverted bits, and writes to `bits`
    /// its damaged bits as transmitted, first to last. They lie within the correction radius of the frame's own bits,
    /// and decode to the frame. It requires that fewer than 10,000 data units were returned.
    pub fn next(&mut self, bits: &mut BitBuf) -> SampleUnit
        requires { self.old < 10000 }
        ensures given { self.new ≡ self.old + 1 }
        ensures frame { result.frame ≡ sample_frame self.old }
        ensures bits { bits.new ≡ sample_bits self.old }
        ensures flips { result.flips ≡ sample_flips self.old }
        ensures sound { IsSoundFrame result.frame }
        ensures sendable { IsSendableUnit result.frame.unit }
        ensures within { IsWithinRadius result.frame bits.new }
        ensures length { need_of bits.new ≡ Length (length bits.new) }
        ensures read { unit_reading_of bits.new ≡ Ok result.frame }
    {
        let frame = draw_frame(kind_at(self.given), &mut self.draws);
        let flips = put_damaged(&frame, &mut self.draws, bits);
        self.given += 1;
        SampleUnit { frame, flips }
    }
}

/// Returns the sampler before data unit 0.
impl Default for Sampler {
    ghost is_default = { λ sampler. sampler ≡ 0 };

    fn default() -> Sampler {
        Sampler::new()
    }
}

// Draws the frame of a type.
fn draw_frame(kind: Kind, draws: &mut Draws) -> Frame
    ensures frame { result ≡ (frame_next kind draws.old).0 }
    ensures sound { IsSoundFrame result }
    ensures state { draws.new ≡ (frame_next kind draws.old).1 }
{
    let nac = draws.below(4096) as u16;
    let status = Status::new(draws.below(4) as u8).unwrap();
    let unit = Unit::new(nac, draw_body(kind, draws));
    Frame::filled(unit, status)
}

// Writes to `bits` the transmitted bits of a frame, damaged by draws, and returns the number of inverted bits.
fn put_damaged(frame: &Frame, draws: &mut Draws, bits: &mut BitBuf) -> u32
    requires { IsSoundFrame frame.now }
    ensures bits { bits.new ≡ damaged_image frame.now draws.old }
    ensures flips { result ≡ inversions (unit_hits frame.now.unit.body draws.old).0 }
    ensures sendable { IsSendableUnit frame.now.unit }
    ensures state { draws.new ≡ (unit_hits frame.now.unit.body draws.old).1 }
{
    let mut bare = BitBuf::new();
    unit_image(&frame.unit, &mut bare);
    let flips = damage(frame.unit.body(), draws, &mut bare);
    weave(&bare, &frame.statuses, bits);
    flips
}
