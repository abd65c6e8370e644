//! All laws of data units that a scanner needs, the decoding of a data unit, and terminators among all data units. Each
//! function states what is proved, and calls at most the function that it states something of.

ghost use Rattle.std.specs.Prelude.{◌≡◌, ℕ, ◌<◌, ◌≤◌, Bool, true, List, ◌++◌, Ok, Err, length, take, drop, ◌↔◌};
ghost use Rattle.p25_status.specs.{Sync.{has_sync}, declared.fields.Field.{Field}, declared.symbols.Status.{Status}};
ghost use Rattle.p25_units.specs.{Begins.{IsBegun}, Fixes.{fixes_of}, ImagePlaces.{IsImage}, Items.{unit_item_of}};
ghost use Rattle.p25_units.specs.NeedLaws.{BegunStays, ItemCovers, ItemHasPlace, ItemIsNoGap, ItemIsSound, KnownStays, LengthIsThere, MoreIsFew, MoreWaits, SyncIsSeen};
ghost use Rattle.p25_units.specs.{Needs.{need_of}, Readings.{unit_reading_of}, Units.{IsSendableUnit, IsSoundFrame, image_of}, WholeLaws.{WholeUnitIsRead}};
ghost use Rattle.p25_units.specs.{WithinRadius.{IsWithinRadius, received_frame}, declared.frame.Frame.{Frame}, declared.needs.Need.TheVariants.{Length}};
ghost use Rattle.p25_units.specs.{declared.item.Item.TheVariants.{Whole}, Terminators.{ErrorsAreFixes, TerminatorIsNear, terminator, terminator_bits}};

use crate::{Begun, Need, need_synced, need_with};
use p25_bits::BitBuf;

/// **Theorem.** All laws of data units that a scanner needs.
///
/// - `seen`, `stays`, `waits`: at a position with a sync, known facts stay whatever bits come later, and a number of
///   required bits stays the same until that many are there.
/// - `few`, `there`: more bits are required only if they are not there, and the bits of a data unit are there.
/// - `covers`, `place`, `sound`, `no_gap`: the item of a data unit.
/// - `begun`: the decoded parts of a data unit stay true.
pub fn need_laws()
    ensures seen { SyncIsSeen }
    ensures stays { KnownStays }
    ensures waits { MoreWaits }
    ensures few { MoreIsFew }
    ensures there { LengthIsThere }
    ensures covers { ItemCovers }
    ensures place { ItemHasPlace }
    ensures sound { ItemIsSound }
    ensures no_gap { ItemIsNoGap }
    ensures begun { BegunStays }
{}

/// **Theorem.** The transmitted bits of data units, and their decoding.
///
/// - `form`: bits are the image of a sound and sendable frame if and only if they meet `IsImage`, the form by
///   positions. So each such frame has exactly one image.
/// - `length`, `near`, `item`: bits within the correction radius of the image of a sound and sendable frame have its
///   length, whatever bits follow. They decode to the frame, with the received voice frames and status symbols, and
///   their item is `Whole`.
/// - `undamaged`, `again`, `none`: an image is within its own correction radius, decodes to its frame, and has no
///   fixes.
/// - `fails`: a data unit with a known length is decoded, or some field of it fails.
/// - `whole_is_read`: a data unit at a sync is `Whole` only if its bits decode to its frame. Those of sync, NID and
///   voice codewords lie within the correction radius, and a packet is carried by the first nearest paths, with all its
///   checks.
pub fn unit_laws()
    ensures form { (frame : Frame) (sent : List Bool) → IsSoundFrame frame → IsSendableUnit frame.unit
        → IsImage frame sent ↔ (sent ≡ image_of frame) }
    ensures length { (frame : Frame) (sent more : List Bool) → IsSoundFrame frame → IsSendableUnit frame.unit → IsWithinRadius frame sent
        → need_of (sent ++ more) ≡ Length (length sent) }
    ensures near { (frame : Frame) (sent : List Bool) → IsSoundFrame frame → IsSendableUnit frame.unit → IsWithinRadius frame sent
        → unit_reading_of sent ≡ Ok (received_frame frame sent) }
    ensures item { (place : ℕ) (frame : Frame) (sent : List Bool) → IsSoundFrame frame → IsSendableUnit frame.unit → IsWithinRadius frame sent
        → unit_item_of place sent ≡ Whole place (received_frame frame sent) (fixes_of (received_frame frame sent) sent) }
    ensures undamaged { (frame : Frame) → IsSoundFrame frame → IsSendableUnit frame.unit → IsWithinRadius frame (image_of frame) }
    ensures again { (frame : Frame) → IsSoundFrame frame → IsSendableUnit frame.unit → unit_reading_of (image_of frame) ≡ Ok frame }
    ensures none { (frame : Frame) → IsSoundFrame frame → IsSendableUnit frame.unit → fixes_of frame (image_of frame) ≡ 0 }
    ensures fails { (bits : List Bool) (count : ℕ) (fields : List Field) → need_of bits ≡ Length count
        → unit_reading_of (take count bits) ≡ Err fields → 0 < length fields }
    ensures whole_is_read { WholeUnitIsRead }
{}

/// **Theorem.** Terminators (TDU) among all data units.
///
/// - `sound`: the frame of a terminator is sound if and only if it has two status symbols.
/// - `sent`: its transmitted bits are the sync, the NID, 28 nulls and the status symbols.
/// - `near`: bits begin with a terminator if and only if the first 144 lie within the correction radius of its frame.
/// - `fixes`: its fixes are the bit errors of its sync and of the first 63 bits of its NID.
pub fn terminator_laws()
    ensures sound { (nac : ℕ) (statuses : List Status) → IsSoundFrame (terminator nac statuses) ↔ (length statuses ≡ 2) }
    ensures sent { (nac : ℕ) (statuses : List Status) → image_of (terminator nac statuses) ≡ terminator_bits nac statuses }
    ensures near { TerminatorIsNear }
    ensures fixes { ErrorsAreFixes }
{}

/// **Theorem.** `need_with` returns what the bits from a position on need, also if there is no sync.
pub fn need_at(bits: &BitBuf, at: usize, begun: &mut Begun) -> Need
    requires there { at ≤ length bits.now }
    requires begun { IsBegun begun.old (drop at bits.now) }
    ensures { result ≡ need_of (drop at bits.now) }
{
    need_with(bits, at, begun)
}

/// **Theorem.** `need_synced` returns what the bits from a position on need if there is a sync.
pub fn need_at_a_sync(bits: &BitBuf, at: usize, begun: &mut Begun) -> Need
    requires there { at ≤ length bits.now }
    requires synced { has_sync (drop at bits.now) ≡ true }
    requires begun { IsBegun begun.old (drop at bits.now) }
    ensures { result ≡ need_of (drop at bits.now) }
{
    need_synced(bits, at, begun)
}
