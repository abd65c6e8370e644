//! The laws of the images, of the decodings and of the layouts of voice data units (HDU, LDU1, LDU2, TDU and TDULC).
//! Each function states what is proved, and makes no call.

ghost use Rattle.std.specs.Prelude.{◌≡◌, ◌↔◌, ◌%◌, ◌≤◌, ℕ, Bool, List, Some, length, Ok};
ghost use Rattle.p25_voice_units.specs.{declared.unit.VoiceUnit.{VoiceUnit}, Layouts.{hdu_rows, ldu_rows, tdu_rows, tdulc_rows}, FieldLayouts.{word_places}};
ghost use Rattle.p25_voice_units.specs.{Images.{voice_image_of}, Places.{IsVoiceImage}, Lengths.{voice_duid, voice_length_of}, Sendable.{IsSendableVoice}};
ghost use Rattle.p25_voice_units.specs.Readings.{voice_reading_of, frame_places, low_places};
ghost use Rattle.p25_voice_units.specs.WithinRadius.{IsVoiceWithin, IsVoiceWithinByWords, received_voice};

use super::places::FRAMES;
use crate::{
    HDU_ROWS, HDU_WORDS, LDU_ROWS, LDU_WORDS, LOW_WORDS, TDU_ROWS, TDULC_ROWS, TDULC_WORDS,
};

/// **Theorem.** The laws of the bits of voice data units.
///
/// - `form`: a data unit's bits are exactly those that its type has by positions.
/// - `fills`: a data unit has as many bits as its type has.
/// - `lengths`: a data unit of each type has at least sync and NID, at most 1,680 bits, and fills blocks of 70.
pub fn image_laws()
    ensures form { (nac : ℕ) (unit : VoiceUnit) (bare : List Bool) → IsSendableVoice unit
        → IsVoiceImage nac unit bare ↔ (bare ≡ voice_image_of nac unit) }
    ensures fills { (nac : ℕ) (unit : VoiceUnit) → IsSendableVoice unit → voice_length_of (voice_duid unit) ≡ Some (length (voice_image_of nac unit)) }
    ensures lengths { (duid count : ℕ) → voice_length_of duid ≡ Some count → (112 ≤ count) × (count ≤ 1680) × (count % 70 ≡ 0) }
{}

/// **Theorem.** The laws of decoding voice data units.
///
/// - `kind`: the data unit decoded for a DUID has that DUID.
/// - `sendable`: it has the invariants of its type.
/// - `within`: bits within the correction radius of a data unit's own decode to the data unit, with its voice frames as
///   received.
/// - `words`: bits are within the correction radius under two conditions. At most as many symbols of the coded field as
///   its outer code's correction radius are in inner words with more bit errors than the inner code's correction
///   radius. Each low speed data word has at most two bit errors.
/// - `undamaged`: a data unit's own bits are within the correction radius.
/// - `again`: they decode to the data unit.
/// - `whole`: bits are within the correction radius of the own bits of the data unit that they decode to.
pub fn radius_laws()
    ensures kind { (duid : ℕ) (bare : List Bool) (unit : VoiceUnit) → voice_reading_of duid bare ≡ Ok unit → voice_duid unit ≡ duid }
    ensures sendable { (duid : ℕ) (bare : List Bool) (unit : VoiceUnit) → voice_reading_of duid bare ≡ Ok unit → IsSendableVoice unit }
    ensures within { (nac : ℕ) (unit : VoiceUnit) (received : List Bool) → IsSendableVoice unit → length received ≡ length (voice_image_of nac unit)
        → IsVoiceWithin unit (voice_image_of nac unit) received → voice_reading_of (voice_duid unit) received ≡ Ok (received_voice unit received) }
    ensures words { (nac : ℕ) (unit : VoiceUnit) (received : List Bool) → IsSendableVoice unit → length received ≡ length (voice_image_of nac unit)
        → IsVoiceWithinByWords unit (voice_image_of nac unit) received → IsVoiceWithin unit (voice_image_of nac unit) received }
    ensures undamaged { (nac : ℕ) (unit : VoiceUnit) → IsSendableVoice unit → IsVoiceWithin unit (voice_image_of nac unit) (voice_image_of nac unit) }
    ensures again { (nac : ℕ) (unit : VoiceUnit) → IsSendableVoice unit → voice_reading_of (voice_duid unit) (voice_image_of nac unit) ≡ Ok unit }
    ensures whole { (nac duid : ℕ) (received : List Bool) (unit : VoiceUnit) → voice_reading_of duid received ≡ Ok unit
        → IsVoiceWithin unit (voice_image_of nac unit) received }
{}

/// **Theorem.** The layouts are those of the definitions.
pub fn layouts()
    ensures header { HDU_ROWS ≡ hdu_rows }
    ensures link { LDU_ROWS ≡ ldu_rows }
    ensures end { TDU_ROWS ≡ tdu_rows }
    ensures tdulc { TDULC_ROWS ≡ tdulc_rows }
{}

/// **Theorem.** The positions are those of the layouts.
pub fn part_places()
    ensures header { HDU_WORDS ≡ word_places 18 hdu_rows }
    ensures link { LDU_WORDS ≡ word_places 10 ldu_rows }
    ensures tdulc { TDULC_WORDS ≡ word_places 24 tdulc_rows }
    ensures low { LOW_WORDS ≡ low_places ldu_rows }
    ensures frames { FRAMES ≡ frame_places ldu_rows }
{}
