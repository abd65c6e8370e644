//! Items of a recording, many in one call

ghost use Rattle.std.specs.Prelude.{◌≡◌, ◌-◌, Some, true, length, drop};
ghost use Rattle.p25_bits.specs.Bits.{octet_bits};
ghost use Rattle.p25_c.specs.{Items.{is_inside, items_asked}, Many.{many_answer, many_left}};
ghost use Rattle.p25_stream.specs.Items.{items_by};

use crate::answers::OUTSIDE;
use crate::items::{ItemParts, blank, is_inside, item_parts};
use crate::room::counted;
use p25_bits::BitBuf;
use p25_stream::find_item_in;

// The most items that one call returns.
const ITEMS_MOST: usize = 2_147_483_647;

/// Sets `items` to the items from bit `from` of a recording on, in order: as many as there are, at most as many as the buffer
/// holds, and at most 2,147,483,647. The arguments and the items are as for `p25_next_item`. No text is made, and text_length is
/// 0. Returns how many items it set; the others stay. The next call begins at the end of the last item. Returns `P25_OUTSIDE` as
/// `p25_next_item` does, and then all of `items` stays. Since 1.1.
#[unsafe(no_mangle)]
pub extern "C" fn p25_items(
    octets: &[u8],
    begin: u64,
    from: u64,
    ended: bool,
    items: &mut [ItemParts],
) -> i32
    ensures answer { result ≡ many_answer (items_asked ended begin from octets.now) (length items.old) }
    ensures items { items.new ≡ many_left (items_asked ended begin from octets.now) items.old }
{
    if !is_inside(begin, from, octets.len()) {
        return OUTSIDE;
    }
    tell_items(octets, begin, from, ended, items)
}

// Sets `items` to the items from a position on, as many as there are and the buffer holds, and returns how many.
fn tell_items(octets: &[u8], begin: u64, from: u64, ended: bool, items: &mut [ItemParts]) -> i32
    requires inside { is_inside begin from (length octets.now) ≡ true }
    ensures answer { result ≡ many_answer (Some (items_by ended from (drop (from - begin) (octet_bits octets.now)))) (length items.old) }
    ensures items { items.new ≡ many_left (Some (items_by ended from (drop (from - begin) (octet_bits octets.now)))) items.old }
{
    let room = items.len().min(ITEMS_MOST);
    let mut found = blank();
    let mut held = BitBuf::new();
    let mut bare = BitBuf::new();
    let mut place = from;
    for i in 0..room {
        let at = (place - begin) as usize;
        if !find_item_in(octets, at, place, ended, &mut held, &mut bare, &mut found) {
            return counted(i);
        }
        items[i] = item_parts(&found, 0);
        place += found.covered();
    }
    counted(room)
}
