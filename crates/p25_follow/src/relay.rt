//! Items forwarded in place, under another network access code (NAC) and with one status symbol everywhere.

ghost use Rattle.std.specs.Prelude.{◌≡◌, ◌%◌, ◌<◌, ◌≤◌, length};
ghost use Rattle.p25_units.specs.Items.{IsSoundItem, covered};
ghost use Rattle.p25_follow.specs.Relayed.{IsFitItem, relayed, relayed_broken};

use p25_bch_nid::Nid;
use p25_bits::BitBuf;
use p25_status::{Status, Statuses, unweave, weave};
use p25_stream::bridge_item_in;
use p25_unit_front::{FRONT_LENGTH, put_front};
use p25_units::Item;

/// Replaces the bits that an item covers by equally many that are forwarded at their position.
///
/// The bits of a `Whole` item are those of `bridge_item`. A `Broken` one keeps all its bits but its sync, its network
/// identifier (NID) and its status symbols. Sync and NID become those of the network access code and of its type, and
/// the status symbols become `status`. The bits of every other item are unchanged. It requires an item and its bits as
/// a scan returns them.
pub fn relay_item(item: &Item, nac: u16, status: Status, raw: &mut BitBuf)
    requires sound { IsSoundItem item.now }
    requires fits { IsFitItem item.now }
    requires nac { nac < 4096 }
    requires raw { length raw.old ≡ covered item.now }
    ensures { raw.new ≡ relayed nac status item.now raw.old }
{
    relay_item_in(item, nac, status, &mut BitBuf::new(), raw);
}

/// Replaces the bits that an item covers as `relay_item` does. `room` is a buffer for the bits of a whole data unit
/// without status symbols, so that none has to be made. Its contents before and after the call have no meaning.
pub fn relay_item_in(item: &Item, nac: u16, status: Status, room: &mut BitBuf, raw: &mut BitBuf)
    requires sound { IsSoundItem item.now }
    requires fits { IsFitItem item.now }
    requires nac { nac < 4096 }
    requires raw { length raw.old ≡ covered item.now }
    ensures { raw.new ≡ relayed nac status item.now raw.old }
{
    match item {
        Item::Whole { .. } => {
            raw.clear();
            let _ = bridge_item_in(item, nac, status, room, raw);
        }
        Item::Broken { duid, .. } => relay_broken(nac, *duid, status, raw),
        Item::NoUnit { .. } | Item::Gap { .. } | Item::Cut { .. } => {}
    }
}

// Writes sync and NID of a network access code (NAC) and a type over those of a broken data unit, and a status symbol
// over all of its own.
fn relay_broken(nac: u16, duid: u8, status: Status, raw: &mut BitBuf)
    requires nac { nac < 4096 }
    requires duid { duid < 16 }
    requires blocks { length raw.old % 72 ≡ 0 }
    requires some { 144 ≤ length raw.old }
    requires most { length raw.old ≤ 25920 }
    ensures { raw.new ≡ relayed_broken nac duid status raw.old }
{
    let mut bare = BitBuf::new();
    let mut statuses = Statuses::new();
    unweave(raw, 0, raw.len(), &mut bare, &mut statuses);
    let mut fronted = BitBuf::new();
    put_front(&Nid { nac, duid }, &mut fronted);
    fronted.append(&bare, FRONT_LENGTH, bare.len() - FRONT_LENGTH);
    weave(&fronted, &Statuses::filled(status, statuses.len()), raw);
}
