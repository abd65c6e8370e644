//! The laws of a stream's items.

ghost use Rattle.p25_stream.specs.Arrivals.{UnitIsFound, UnitsAreWhole};
ghost use Rattle.p25_stream.specs.ItemLaws.{DecidedStay, EnoughDecide, FirstStays, GapsAreFull, GaveItems, ImageIsWhole, ItemsAreSound, ItemsCoverAll, ItemsLieEndToEnd, ItemsUnfold, NearIsWhole, SentTerminatorIsRead, SyncPlaceIsLeast, TerminatorIsRead, TerminatorIsThere, WholeIsRead};

/// **Theorem.** The laws of the items of a stream, over all bits.
///
/// - `sync`: a gap ends before the least position that has a sync.
/// - `recursion`: the items are the first item of the bits, and then those of the remaining bits, as far as they are
///   decided.
/// - `cover_all`, `end_to_end`: the items lie end to end and cover every bit, each at least one bit.
/// - `gaps`: a gap has at most 4,096 bits, and exactly that many if another gap follows.
/// - `sound`: each item is sound.
/// - `first_stays`, `decided_stay`: the items that some bits decide are the first items, whatever bits come later.
/// - `enough`: 25,920 bits always decide a first item.
/// - `near`: a data unit with few bit errors at a position at which an item begins is that item, whole and as received.
/// - `whole`: an item is a whole data unit only if the bits that it covers decode to its frame, as received. Those of
///   sync and NID lie within the correction radius, and its body is the decoding of its codewords and blocks.
/// - `undamaged`: if bits begin with a sound frame's image, the first item is that frame, whole and without fixes.
/// - `terminator`, `terminator_is_there`: the first item is a terminator (TDU) with a network access code if and only
///   if three conditions hold. There are 144 bits, at most 4 of them are wrong in the sync, and at most 11 in the first
///   63 of the network identifier (NID).
/// - `sent_terminator`: the transmitted bits of a terminator decode to it, without fixes.
/// - `gave`: the item that a scanner returned is the first of the items of the bits that it held and any bits that come
///   later.
pub fn item_laws()
    ensures sync { SyncPlaceIsLeast }
    ensures recursion { ItemsUnfold }
    ensures cover_all { ItemsCoverAll }
    ensures end_to_end { ItemsLieEndToEnd }
    ensures gaps { GapsAreFull }
    ensures sound { ItemsAreSound }
    ensures first_stays { FirstStays }
    ensures decided_stay { DecidedStay }
    ensures enough { EnoughDecide }
    ensures near { NearIsWhole }
    ensures whole { WholeIsRead }
    ensures undamaged { ImageIsWhole }
    ensures terminator { TerminatorIsRead }
    ensures terminator_is_there { TerminatorIsThere }
    ensures sent_terminator { SentTerminatorIsRead }
    ensures gave { GaveItems }
{}

/// **Theorem.** The positions at which transmitted data units are found, over all lists of them and all bits around
/// them.
///
/// - `whole`: if bits begin with data units, each within the correction radius of its image, the items begin with these
///   data units. Each is whole and as received, at its position, with its bit errors as fixes. The items of the bits
///   after them follow.
/// - `found`: a data unit within the correction radius is such an item wherever it begins, unless a data unit that
///   begins before it, whole, broken or cut, covers its first bit.
pub fn arrival_laws()
    ensures whole { UnitsAreWhole }
    ensures found { UnitIsFound }
{}
