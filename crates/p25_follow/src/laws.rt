//! The laws of `follow` and of `relay`. The bodies are empty: each function states what is proved.

ghost use Rattle.p25_follow.specs.FollowLaws.{ChainsUnfold, FollowerWrites, FrontAlone, LengthIsKept, NameStays, NearIsWritten, NoStretchNoChange, SettledStays, StepIsThere, StepLooksAtFew, WrittenIsFound};
ghost use Rattle.p25_follow.specs.RecordingLaws.{CompleteInStretches, FrontBitsAlone, NeverWorse, RepairBefore, SecondChangesNothing, StretchByStretch};
ghost use Rattle.p25_follow.specs.RelayLaws.{ItemsFit, RelayKeepsLength, RelayKeepsUnits, RelaySameUnits, RelayedIsFound, RelaysInPlace};
ghost use Rattle.p25_follow.specs.StretchLaws.{PlaceLooksAtFew, SameUnitsAfter};

/// **Theorem.** The laws of the output for a recording, over all bits.
///
/// - `length`: the output has as many bits as the recording.
/// - `recursion`: a chain is, if a data unit is known, that data unit with its sync and NID written and the chain after
///   it, and otherwise the bits unchanged.
/// - `there`, `few`: the bits of a written data unit are there. A step examines at most 6,912 bits, so neither the bits
///   after them nor the end of their stretch change it.
/// - `front`: in a written data unit only sync and NID are written: the status symbol within them and all bits after
///   them stay.
/// - `unchanged`: if no stretch follows a data unit, all bits are unchanged.
/// - `name`: a correctable network identifier (NID) is not replaced by another.
/// - `complete`: a data unit after one that is found or written is output with its sync and NID, whatever its sync is.
///   It has to be of the same network and of a type that may follow, with at most 11 bit errors in its NID.
/// - `found`: if sync and NID are written at the beginning of an item, that item is a data unit of this name and this
///   length, whatever bits follow.
/// - `place`: whether a data unit, whole, broken or cut, begins at a position depends only on the 316 bits from there.
/// - `same`: wherever in a stretch the scan begins, the data units that it finds are those after the stretch.
/// - `stretches`: in the output for a recording the bits of each data unit are unchanged, and those of a stretch after
///   it are its chain.
/// - `complete_in`: the law `complete` in a stretch of a recording, directly after the data unit before it or one whose
///   sync and NID are written.
/// - `places`: the output differs from the recording only in bits of sync and NID of a data unit for which they are
///   written, in a stretch.
/// - `never_worse`: the scan finds in the output the data units of the recording, the same item for item and at the
///   same positions. It finds one more for each sync and NID written.
/// - `second`: the output for the output is the same.
/// - `repair`: if the scan finds the same items in a repaired recording, a repair before gives the same as one after
///   alone.
/// - `settled`: the decided output for a stretch comes first, whatever bits follow.
/// - `follower`: the output of a follower for items, and at the end, is the output for the recording.
pub fn follow_laws()
    ensures length { LengthIsKept }
    ensures recursion { ChainsUnfold }
    ensures there { StepIsThere }
    ensures few { StepLooksAtFew }
    ensures front { FrontAlone }
    ensures unchanged { NoStretchNoChange }
    ensures name { NameStays }
    ensures complete { NearIsWritten }
    ensures found { WrittenIsFound }
    ensures place { PlaceLooksAtFew }
    ensures same { SameUnitsAfter }
    ensures stretches { StretchByStretch }
    ensures complete_in { CompleteInStretches }
    ensures places { FrontBitsAlone }
    ensures never_worse { NeverWorse }
    ensures second { SecondChangesNothing }
    ensures repair { RepairBefore }
    ensures settled { SettledStays }
    ensures follower { FollowerWrites }
{}

/// **Theorem.** The laws of a recording forwarded in place, over all bits.
///
/// - `fits`: each item of a scan has as many bits as its type needs, so that `relay_item` may be called on it.
/// - `length`: the output has as many bits as the recording.
/// - `places`: the output for each item is at its position, so all bits of a stretch stay.
/// - `found`: the scan finds each data unit again in its output, whatever bits follow. It has its type, under the
///   network access code. A whole one has its fields and no fixes, and a broken one the same failing fields.
/// - `units`: each data unit is found again in the output for the recording, at its position, unless a data unit that
///   begins before it there covers its first bit.
/// - `same`: if no data unit begins in the output for a stretch, the data units of the output are those of the
///   recording, one by one.
pub fn relay_laws()
    ensures fits { ItemsFit }
    ensures length { RelayKeepsLength }
    ensures places { RelaysInPlace }
    ensures found { RelayedIsFound }
    ensures units { RelayKeepsUnits }
    ensures same { RelaySameUnits }
{}
