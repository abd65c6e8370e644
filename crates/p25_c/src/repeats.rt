//! Items at any bit: their octets, data units repaired, and with another access code

ghost use Rattle.std.specs.Prelude.{◌≡◌, ◌+◌, ◌*◌, ◌^◌, ◌<◌, ◌≤◌, length};
ghost use Rattle.p25_bits.specs.Bits.{octet_bits, part};
ghost use Rattle.p25_c.specs.{Building.{IsWritingUnder}, Places.{bridged_at, filled, has_item, item_cut, repaired_at}, Rooms.{IsWriting}};

use crate::answers::{NO_UNIT, OUTSIDE};
use crate::building::{sent_symbol, write_bits};
use crate::items::{ItemParts, blank, find_at, is_inside};
use p25_bits::BitBuf;
use p25_bits::laws::octets_fit;
use p25_status::Status;
use p25_stream::{bridge_item, repair_item};
use p25_units::Item;

// The most bits that an item covers.
const ITEM_BITS: u32 = 25_920;

/// Writes the bits of an item as octets, whatever bit it begins at: its first bit is the most significant one of the first octet,
/// and the bits after its last one are 0. The octets are a part of the recording whose first octet is at bit `begin`, as for
/// `p25_next_item`. The call looks at the members `place` and `bits` of the item. Returns how many octets it wrote, at most
/// `P25_UNIT_ROOM`; the octets of the buffer after them stay.
///
/// Else it writes nothing and returns the first of these that applies: `P25_OUTSIDE`, if `begin` is no multiple of 8, a bit of
/// the item is not among the octets, or the item has more than 25,920 bits or begins after bit 2^59; `P25_NO_ROOM`. Since 1.1.
#[unsafe(no_mangle)]
pub extern "C" fn p25_item_octets(
    octets: &[u8],
    begin: u64,
    item: &ItemParts,
    into: &mut [u8],
) -> i32
    ensures { IsWriting (item_cut begin item.now.place item.now.bits octets.now) into.old into.new result }
{
    if !has_item(octets, begin, item.place, item.bits) {
        return OUTSIDE;
    }
    let mut bits = BitBuf::new();
    cut(octets, item.place - begin, item.bits, &mut bits);
    fill(&mut bits);
    write_bits(&bits, into)
}

// Whether so many bits from a position on are among those of the octets, and an item may cover so many.
pub(crate) fn has_item(octets: &[u8], begin: u64, place: u64, bits: u32) -> bool
    ensures { result ≡ has_item begin place bits (length octets.now) }
{
    if bits > ITEM_BITS || !is_inside(begin, place, octets.len()) {
        return false;
    }
    (place - begin + u64::from(bits)).div_ceil(8) <= octets.len() as u64
}

// Sets `bits` to so many bits of octets from a bit on.
pub(crate) fn cut(octets: &[u8], at: u64, count: u32, bits: &mut BitBuf)
    requires there { at + count ≤ 8 * length octets.now }
    requires few { count ≤ 25920 }
    requires near { at ≤ 2 ^ 59 }
    ensures { bits.new ≡ part at count (octet_bits octets.now) }
{
    let (at, count) = (at as usize, count as usize);
    let some = &octets[at / 8..(at + count + 7) / 8];
    // For the prover: octets are below 256.
    octets_fit(some);
    let mut whole = BitBuf::new();
    whole.put_numbers(some, 8);
    bits.clear();
    bits.append(&whole, at % 8, count);
}

// Appends zeros until the bits fill their last octet.
pub(crate) fn fill(bits: &mut BitBuf)
    ensures { bits.new ≡ filled bits.old }
{
    let missing = (8 - bits.len() % 8) % 8;
    bits.put_field(0, missing as u32);
}

/// Does what `p25_repair` does with the whole data unit that begins at bit `from` of a recording, whose octets are given as for
/// `p25_next_item`. Returns how many octets it wrote, 18 to `P25_UNIT_ROOM`. Else it writes nothing and returns the first of
/// these that applies: `P25_OUTSIDE`, `P25_NO_UNIT`, `P25_NO_ROOM`. Since 1.1.
#[unsafe(no_mangle)]
pub extern "C" fn p25_repair_at(octets: &[u8], begin: u64, from: u64, into: &mut [u8]) -> i32
    ensures { IsWriting (repaired_at begin from octets.now) into.old into.new result }
{
    if !is_inside(begin, from, octets.len()) {
        return OUTSIDE;
    }
    let mut found = blank();
    if !find_at(octets, begin, from, true, &mut found) || !matches!(&found, Item::Whole { .. }) {
        return NO_UNIT;
    }
    let mut bits = BitBuf::new();
    repair_item(&found, &mut bits);
    write_bits(&bits, into)
}

/// Does what `p25_bridge` does with the whole data unit that begins at bit `from` of a recording, whose octets are given as for
/// `p25_next_item`. Returns how many octets it wrote, 18 to `P25_UNIT_ROOM`. Else it writes nothing and returns the first of
/// these that applies: `P25_WRONG_NAC`, `P25_WRONG_STATUS`, `P25_OUTSIDE`, `P25_NO_UNIT`, `P25_NO_ROOM`. Since 1.1.
#[unsafe(no_mangle)]
pub extern "C" fn p25_bridge_at(
    octets: &[u8],
    begin: u64,
    from: u64,
    nac: u16,
    status: u8,
    into: &mut [u8],
) -> i32
    ensures { IsWritingUnder nac status (λ symbol. bridged_at nac symbol begin from octets.now) into.old into.new result }
{
    match sent_symbol(nac, status) {
        Ok(symbol) => bridge_at(octets, begin, from, nac, symbol, into),
        Err(answer) => answer,
    }
}

// Writes the whole unit at a position under another network access code (NAC) and with one status symbol everywhere.
fn bridge_at(octets: &[u8], begin: u64, from: u64, nac: u16, status: Status, into: &mut [u8]) -> i32
    requires { nac < 4096 }
    ensures { IsWriting (bridged_at nac status begin from octets.now) into.old into.new result }
{
    if !is_inside(begin, from, octets.len()) {
        return OUTSIDE;
    }
    let mut found = blank();
    if !find_at(octets, begin, from, true, &mut found) {
        return NO_UNIT;
    }
    let mut bits = BitBuf::new();
    if !bridge_item(&found, nac, status, &mut bits) {
        return NO_UNIT;
    }
    write_bits(&bits, into)
}
