//! The first item of the bits of some octets, with no scanner.

ghost use Rattle.std.specs.Prelude.{◌≡◌, ◌+◌, ◌<◌, ◌≤◌, ◌++◌, [], false, true, length, take, drop};
ghost use Rattle.p25_bits.specs.Bits.{octet_bits};
ghost use Rattle.p25_stream.specs.{Finding.{IsFilled, IsFirst}, Items.{items_by}};
ghost use Rattle.p25_units.specs.Items.{IsSoundItem};

use crate::arriving::put_some;
use crate::judged::Judged;
use crate::judging::{judged_anew, set_item, settle};
use p25_bits::BitBuf;
use p25_units::Item;

// The number of bits that are taken before any test: those of the shortest data unit, a TDU, so that it is tested once.
const SHORTEST: usize = 144;

/// Writes to `item` the first item of the bits of some octets from bit `at` on, and returns true. `place` is the
/// position of that bit in the stream; if `ended` is true, no octets follow. False is returned if and only if there is
/// no item, because the bits decide none or because there are none; then `item` is unchanged. At most 3,241 octets are
/// read, from the one that holds bit `at` on: that many always decide an item (`item_laws`, clause `enough`).
pub fn find_item(octets: &[u8], at: usize, place: u64, ended: bool, item: &mut Item) -> bool
    ensures first { result ≡ true → IsFirst ended place (drop at (octet_bits octets.now)) item.new }
    ensures none { result ≡ false → (items_by ended place (drop at (octet_bits octets.now)) ≡ []) × (item.new ≡ item.old) }
    ensures sound { result ≡ true → IsSoundItem item.new }
{
    // Both are made here, side by side, so that each is written once.
    let mut held = BitBuf::new();
    let mut room = BitBuf::new();
    find_item_in(octets, at, place, ended, &mut held, &mut room, item)
}

/// Does what `find_item` does, in two lists of the caller, so no buffer is cleared if many items are found one after
/// the other. The contents of `held` and `room` before and after the call have no meaning.
pub fn find_item_in(
    octets: &[u8],
    at: usize,
    place: u64,
    ended: bool,
    held: &mut BitBuf,
    room: &mut BitBuf,
    item: &mut Item,
) -> bool
    ensures first { result ≡ true → IsFirst ended place (drop at (octet_bits octets.now)) item.new }
    ensures none { result ≡ false → (items_by ended place (drop at (octet_bits octets.now)) ≡ []) × (item.new ≡ item.old) }
    ensures sound { result ≡ true → IsSoundItem item.new }
{
    let first = at / 8;
    if first >= octets.len() {
        return false;
    }
    held.clear();
    held.put_field(u64::from(octets[first]), 8);
    held.drop_front(at % 8);
    let judged = fill(&octets[first + 1..], held);
    if !ended && !judged.is_settled() {
        return false;
    }
    set_item(judged, held, place, room, item);
    true
}

// Appends the bits of octets until the first item is known, or of all, and returns what is known then.
fn fill(octets: &[u8], held: &mut BitBuf) -> Judged
    requires few { length held.old ≤ 8 }
    ensures { IsFilled held.old (octet_bits octets.now) held.new result }
{
    let mut taken = put_until(octets, SHORTEST, held);
    let mut judged = judged_anew(held);
    while taken < octets.len() && !judged.is_settled() {
        let wanted = wanted(&judged, held.len());
        taken += put_until(&octets[taken..], wanted, held);
        settle(&mut judged, held);
    }
    judged
}

// Returns the number of bits at which the next test is useful, if `have` are there.
fn wanted(judged: &Judged, have: usize) -> usize
    requires { have < 25920 }
    ensures more { have < result }
    ensures most { result ≤ 25920 }
{
    match judged {
        Judged::Waiting(count, _) => (*count).clamp(have + 1, 25_920),
        Judged::Searching(_) | Judged::Gap(_) | Judged::Ready(_, _) | Judged::NoUnit(_) => have + 1,
    }
}

// Appends the bits of octets, from the first on, until `wanted` bits are held, or of all, and returns the number of
// these octets.
fn put_until(octets: &[u8], wanted: usize, held: &mut BitBuf) -> usize
    requires few { wanted ≤ 25920 }
    requires room { length held.old ≤ 25927 }
    ensures list { held.new ≡ held.old ++ octet_bits (take result octets.now) }
    ensures most { length held.new ≤ 25927 }
    ensures there { result ≤ length octets.now }
    ensures some { 0 < length octets.now → length held.old < wanted → 0 < result }
{
    let mut taken = 0;
    while taken < octets.len() && held.len() < wanted {
        taken += put_some(&octets[taken..], held);
    }
    taken
}
