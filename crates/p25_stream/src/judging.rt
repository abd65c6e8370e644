//! The item with which some bits begin.

ghost use Rattle.std.specs.Prelude.{◌≡◌, ◌+◌, ◌-◌, ◌*◌, ◌^◌, ◌<◌, ◌≤◌, ℕ, true, false, length};
ghost use Rattle.p25_bits.specs.Bits.{bits_of, part};
ghost use Rattle.p25_status.specs.Sync.{has_sync};
ghost use Rattle.p25_units.specs.{Begins.{IsBegun}, Items.{IsSoundItem}};
ghost use Rattle.p25_stream.specs.{Judgements.{IsJudged, WasJudged, is_settled}, Items.{first_item, sync_place}};

use crate::judged::{BEHIND, Judged};
use p25_bits::BitBuf;
use p25_status::is_sync_window;
use p25_units::{Begun, Field, Item, Need, need_synced, unit_item_in};

// The most bits of a gap.
const GAP_MOST: usize = 4_096;

// The number of positions that the bits of one number test.
const AT_ONCE: usize = 8;

// Every second bit of a sync is 1. Of the 55 bits from eight positions on, these are at such bits of the positions 0,
// 2, 4 and 6 alike, and those below at such bits of the positions 1, 3, 5 and 7.
const ONES_AT_EVEN: u64 = 0xAAAA_AAAA_AA80;

const ONES_AT_ODD: u64 = 0x5555_5555_5540;

// The least number of these 21 bits that are 1 if at most four bits of a sync are wrong.
const ONES_LEAST: u32 = 17;

// The same for the 63 bits from 16 positions on: 17 bits that are 1 at the even positions, and 17 at the odd ones.
const WIDE_ONES_AT_EVEN: u64 = 0xAAAA_AAAA_8000;

const WIDE_ONES_AT_ODD: u64 = 0x5555_5555_4000;

const WIDE_ONES_LEAST: u32 = 13;

// Returns the knowledge of bits that were not tested before.
#[inline]
pub(crate) fn judged_anew(held: &BitBuf) -> Judged
    ensures { IsJudged result held.now }
{
    if held.len() <= BEHIND {
        Judged::Searching(0)
    } else {
        judged_from(held, 0)
    }
}

// Returns the knowledge of bits whose first `clear` positions have no sync.
fn judged_from(held: &BitBuf, clear: usize) -> Judged
    requires clear { clear ≤ sync_place held.now }
    requires judged { clear ≤ length held.now - 47 }
    requires few { clear ≤ 4096 }
    ensures { IsJudged result held.now }
{
    let end = held.len().saturating_sub(BEHIND).min(GAP_MOST);
    let mut k = clear;
    while k < end {
        let count = (end - k).min(AT_ONCE);
        let free = places_before_sync(held.field(k, (BEHIND + count) as u32), count);
        k += free;
        if free < count {
            return if k == 0 {
                judged_at_sync(held, Begun::new())
            } else {
                Judged::Gap(k)
            };
        }
    }
    if k == GAP_MOST {
        Judged::Gap(k)
    } else {
        Judged::Searching(k)
    }
}

// Returns the number of the first `count` positions of a number's bits that have no sync.
fn places_before_sync(number: u64, count: usize) -> usize
    requires some { 0 < count }
    requires many { count ≤ 17 }
    requires fits { number < 2 ^ (47 + count) }
    ensures most { result ≤ count }
    ensures none { (place : ℕ) → place < result → has_sync (part place 48 (bits_of (47 + count) number)) ≡ false }
    ensures sync { result < count → has_sync (part result 48 (bits_of (47 + count) number)) ≡ true }
{
    if count == AT_ONCE && none_of_eight(number) {
        return count;
    }
    for place in 0..count {
        if is_sync_window((number >> (count - 1 - place)) % (1 << 48)) {
            return place;
        }
    }
    count
}

// Returns whether two population counts show that none of the first eight positions of 55 bits has a sync.
fn none_of_eight(number: u64) -> bool
    requires fits { number < 2 ^ 55 }
    ensures { result ≡ true → (place : ℕ) → place < 8 → has_sync (part place 48 (bits_of 55 number)) ≡ false }
{
    (number & ONES_AT_EVEN).count_ones() < ONES_LEAST
        && (number & ONES_AT_ODD).count_ones() < ONES_LEAST
}

// Returns whether population counts show that none of the first 16 positions of 63 bits has a sync: two counts or, if
// these do not show it, those of each eight positions.
fn none_of_sixteen(number: u64) -> bool
    requires fits { number < 2 ^ 63 }
    ensures { result ≡ true → (place : ℕ) → place < 16 → has_sync (part place 48 (bits_of 63 number)) ≡ false }
{
    if (number & WIDE_ONES_AT_EVEN).count_ones() < WIDE_ONES_LEAST
        && (number & WIDE_ONES_AT_ODD).count_ones() < WIDE_ONES_LEAST
    {
        return true;
    }
    none_of_eight(number >> AT_ONCE) && none_of_eight(number % (1 << (BEHIND + AT_ONCE)))
}

// Returns the knowledge of bits that begin with a sync.
fn judged_at_sync(held: &BitBuf, begun: Begun) -> Judged
    requires synced { has_sync held.now ≡ true }
    requires begun { IsBegun begun held.now }
    ensures { IsJudged result held.now }
{
    let mut begun = begun;
    match need_synced(held, 0, &mut begun) {
        Need::NoSync => Judged::NoUnit(Field::Sync),
        Need::More(count) => Judged::Waiting(count, begun),
        Need::Length(count) => Judged::Ready(count, begun),
        Need::NoLength(field) => Judged::NoUnit(field),
    }
}

// Updates the knowledge after more bits have arrived, if the first item was not known before.
#[inline]
pub(crate) fn settle(judged: &mut Judged, held: &BitBuf)
    requires was { WasJudged judged.old held.now }
    requires unsettled { is_settled judged.old ≡ false }
    ensures { IsJudged judged.new held.now }
{
    if !judged.waits(held.len()) && !passes(judged, held) {
        judge_more(judged, held);
    }
}

// Records that the positions that can be tested now have no sync, if population counts show it; usually they do.
// Returns whether it did.
#[inline]
fn passes(judged: &mut Judged, held: &BitBuf) -> bool
    requires { WasJudged judged.old held.now }
    ensures passed { result ≡ true → IsJudged judged.new held.now }
    ensures same { result ≡ false → judged.new ≡ judged.old }
{
    let Judged::Searching(clear) = *judged else {
        return false;
    };
    let places = held.len().saturating_sub(clear + BEHIND);
    if places > 0
        && places % AT_ONCE == 0
        && clear + places < GAP_MOST
        && none_of_many(held, clear, places / AT_ONCE)
    {
        *judged = Judged::Searching(clear + places);
        return true;
    }
    false
}

// Returns whether population counts show that none of the positions from one on has a sync, eight times `count` of
// them.
#[inline]
fn none_of_many(held: &BitBuf, from: usize, count: usize) -> bool
    requires there { from + 8 * count + 47 ≤ length held.now }
    requires before { from ≤ sync_place held.now }
    ensures { result ≡ true → from + 8 * count ≤ sync_place held.now }
{
    // For the prover: the number of bits held bounds every position below.
    let _ = held.len();
    for k in 0..count / 2 {
        let at = from + 2 * AT_ONCE * k;
        if !none_of_sixteen(held.field(at, (BEHIND + 2 * AT_ONCE) as u32)) {
            return false;
        }
    }
    if count % 2 == 0 {
        return true;
    }
    let at = from + AT_ONCE * (count - 1);
    none_of_eight(held.field(at, (BEHIND + AT_ONCE) as u32))
}

// Tests by all bits that are there, apart from the caller.
#[inline(never)]
fn judge_more(judged: &mut Judged, held: &BitBuf)
    requires was { WasJudged judged.old held.now }
    requires unsettled { is_settled judged.old ≡ false }
    ensures { IsJudged judged.new held.now }
{
    match *judged {
        Judged::Searching(clear) => *judged = judged_from(held, clear),
        Judged::Waiting(count, begun) => {
            if held.len() >= count {
                *judged = judged_at_sync(held, begun);
            }
        }
        Judged::Gap(_) | Judged::Ready(_, _) | Judged::NoUnit(_) => unreachable!(),
    }
}

// Writes to `item` the first item of some bits; if it is not known, they are all bits. An item is large, so it is
// written in its buffer, apart from the caller.
#[inline(never)]
pub(crate) fn set_item(
    judged: Judged,
    held: &BitBuf,
    place: u64,
    room: &mut BitBuf,
    item: &mut Item,
)
    requires { IsJudged judged held.now }
    ensures item { item.new ≡ first_item place held.now }
    ensures sound { IsSoundItem item.new }
{
    match judged {
        Judged::Searching(_) => {
            *item = Item::Gap {
                place,
                length: held.len().min(GAP_MOST) as u32,
            };
        }
        Judged::Waiting(_, _) => {
            *item = Item::Cut {
                place,
                have: held.len() as u32,
            };
        }
        Judged::Gap(count) => {
            *item = Item::Gap {
                place,
                length: count as u32,
            };
        }
        Judged::Ready(count, begun) => {
            unit_item_in(held, 0, count, begun, place, room, item);
        }
        Judged::NoUnit(field) => *item = Item::NoUnit { place, field },
    }
}
