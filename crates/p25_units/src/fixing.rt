//! The number of bits in which a received data unit differs from its transmitted frame.

ghost use Rattle.std.specs.Prelude.{◌≡◌, ◌+◌, ◌≤◌, length};
ghost use Rattle.p25_bits.specs.{Bits.{part}, Distance.{distance_of}};
ghost use Rattle.p25_units.specs.{Fixes.{body_fixes_of, fixes_of}, Units.{IsSoundFrame, body_length, frame_length_of, unit_image_of}};

use crate::frame::{Frame, frame_length};
use crate::sending::unit_image;
use crate::unit::{Body, Unit};
use p25_bch_nid::Nid;
use p25_bits::BitBuf;
use p25_packet_blocks::{BLOCK_LENGTH, HEADER_AT};
use p25_status::{Statuses, unweave};
use p25_unit_front::front_fixes;
use p25_voice_units::voice_fixes;

/// Returns the number of examined positions in which the transmitted bits from position `at` on differ from the image
/// of a frame. The examined positions are those of its sync, of the first 63 bits of its network identifier (NID), and
/// of its codewords and blocks. It requires that a sound frame's bits are there.
pub fn fixes(bits: &BitBuf, at: usize, frame: &Frame) -> u32
    requires there { at + frame_length_of frame.now.unit ≤ length bits.now }
    requires sound { IsSoundFrame frame.now }
    ensures { result ≡ fixes_of frame.now (part at (frame_length_of frame.now.unit) bits.now) }
{
    let mut bare = BitBuf::new();
    let count = frame_length(&frame.unit);
    unweave(bits, at, count, &mut bare, &mut Statuses::new());
    let mut image = BitBuf::new();
    unit_image(&frame.unit, &mut image);
    let nid = Nid {
        nac: frame.unit.nac(),
        duid: frame.unit.body().duid(),
    };
    front_fixes(bits, at, &nid) + body_fixes(&bare, &image, &frame.unit)
}

// Counts the bit errors at the positions after sync and NID that a decoder examines, from the received and the
// transmitted bits without status symbols.
fn body_fixes(bare: &BitBuf, image: &BitBuf, unit: &Unit) -> u32
    requires long { length bare.now ≡ length image.now }
    requires image { image.now ≡ unit_image_of unit.now }
    requires whole { length image.now ≡ body_length unit.now.body }
    ensures value { result ≡ body_fixes_of unit.now bare.now }
    ensures most { result ≤ 25200 }
{
    match unit.body() {
        Body::Voice(voice) => voice_fixes(voice, bare, image),
        Body::Packet(packet) => {
            let count = BLOCK_LENGTH * (1 + usize::from(packet.head().blocks()));
            part_distance(bare, image, HEADER_AT, count)
        }
    }
}

// Returns the number of the `count` positions from `at` on in which two lists differ.
fn part_distance(a: &BitBuf, b: &BitBuf, at: usize, count: usize) -> u32
    requires first { at + count ≤ length a.now }
    requires second { at + count ≤ length b.now }
    requires few { count ≤ 25200 }
    ensures value { result ≡ distance_of (part at count a.now) (part at count b.now) }
    ensures most { result ≤ count }
{
    let mut here = BitBuf::new();
    here.append(a, at, count);
    let mut there = BitBuf::new();
    there.append(b, at, count);
    BitBuf::distance(&here, &there)
}
