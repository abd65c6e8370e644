//! The number of positions in which received voice data units (HDU, LDU1, LDU2, TDU and TDULC) differ from the
//! transmitted ones.

ghost use Rattle.std.specs.Prelude.{◌≡◌, ◌+◌, ◌*◌, ◌≤◌, All, Some, length};
ghost use Rattle.p25_bits.specs.Distance.{distance_of};
ghost use Rattle.p25_voice_units.specs.{Fixes.{wide, bits_at, voice_fixes_of}, Lengths.{voice_duid, voice_length_of}};

use crate::laws::part_places;
use crate::places::{HDU_WORDS, LDU_WORDS, LOW_WORDS, TDULC_WORDS};
use crate::unit::VoiceUnit;
use p25_bits::BitBuf;

/// Returns the number of examined positions, after sync and NID, in which the received bits differ from the data unit's
/// image. Both are without status symbols; the positions are those of its inner words and its low speed data words.
/// TIA-102.BAAA, Voice Data Units.
#[tactic(auto, unfolding(crate::specs::Fixes::voice_fixes_of, crate::specs::Fixes::voice_looked, crate::specs::Lengths::voice_length_of))]
pub fn voice_fixes(unit: &VoiceUnit, received: &BitBuf, image: &BitBuf) -> u32
    requires received { voice_length_of (voice_duid unit.now) ≡ Some (length received.now) }
    requires image { voice_length_of (voice_duid unit.now) ≡ Some (length image.now) }
    ensures value { result ≡ voice_fixes_of unit.now received.now image.now }
    ensures most { result ≤ 1680 }
{
    // For the prover: the positions of the words are those of the layouts.
    part_places();
    match unit {
        VoiceUnit::Header(_) => differing(&HDU_WORDS, 18, received, image),
        VoiceUnit::Link1 { .. } | VoiceUnit::Link2 { .. } => {
            differing(&LDU_WORDS, 10, received, image) + differing(&LOW_WORDS, 16, received, image)
        }
        VoiceUnit::End => 0,
        VoiceUnit::EndLink { .. } => differing(&TDULC_WORDS, 24, received, image),
    }
}

// Counts the bits in which two lists differ within the `width` bits at each of the positions.
fn differing(places: &[usize], width: u32, received: &BitBuf, image: &BitBuf) -> u32
    requires width { width ≤ 24 }
    requires few { length places.now ≤ 36 }
    requires received { All (λ at. at + width ≤ length received.now) places.now }
    requires image { All (λ at. at + width ≤ length image.now) places.now }
    ensures value { result ≡ distance_of (bits_at (wide width places.now) received.now) (bits_at (wide width places.now) image.now) }
    ensures most { result ≤ width * length places.now }
{
    let mut wrong = 0;
    for at in places {
        wrong += (received.field(*at, width) ^ image.field(*at, width)).count_ones();
    }
    wrong
}
