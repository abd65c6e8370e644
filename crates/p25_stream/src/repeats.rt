//! Retransmission of items, repaired or under another network access code (NAC).

ghost use Rattle.std.specs.Prelude.{◌≡◌, ◌<◌};
ghost use Rattle.p25_units.specs.Items.{IsSoundItem};
ghost use Rattle.p25_stream.specs.Repeats.{bridged, is_whole_item, repaired};

use p25_bits::BitBuf;
use p25_status::weave;
use p25_units::{Item, Status, Statuses, image_as_in, unit_image};

/// Replaces the bits of a `Whole` item by those of its frame, so that no bit error is left in its sync, its network
/// identifier (NID) and its codewords. Its status symbols and the bits without a code stay as received. The bits of
/// every other item are unchanged.
pub fn repair_item(item: &Item, raw: &mut BitBuf)
    requires { IsSoundItem item.now }
    ensures { raw.new ≡ repaired item.now raw.old }
{
    repair_item_in(item, &mut BitBuf::new(), raw);
}

/// Replaces the bits of an item as `repair_item` does. `room` is a buffer for the frame's bits without status symbols,
/// so that none has to be made; its contents before and after the call have no meaning.
pub fn repair_item_in(item: &Item, room: &mut BitBuf, raw: &mut BitBuf)
    requires { IsSoundItem item.now }
    ensures { raw.new ≡ repaired item.now raw.old }
{
    match item {
        Item::Whole { frame, .. } => {
            unit_image(&frame.unit, room);
            weave(room, &frame.statuses, raw);
        }
        Item::Broken { .. } | Item::NoUnit { .. } | Item::Gap { .. } | Item::Cut { .. } => {}
    }
}

/// Writes to `out` the bits of a `Whole` item's frame, with another network access code (NAC) and with one status
/// symbol instead of all, and returns true. For every other item it returns false, and `out` is unchanged.
pub fn bridge_item(item: &Item, nac: u16, status: Status, out: &mut BitBuf) -> bool
    requires sound { IsSoundItem item.now }
    requires nac { nac < 4096 }
    ensures bits { out.new ≡ bridged nac status item.now out.old }
    ensures whole { result ≡ is_whole_item item.now }
{
    bridge_item_in(item, nac, status, &mut BitBuf::new(), out)
}

/// Writes to `out` and returns as `bridge_item` does. `room` is a buffer for the frame's bits without status symbols,
/// as in `repair_item_in`.
pub fn bridge_item_in(
    item: &Item,
    nac: u16,
    status: Status,
    room: &mut BitBuf,
    out: &mut BitBuf,
) -> bool
    requires sound { IsSoundItem item.now }
    requires nac { nac < 4096 }
    ensures bits { out.new ≡ bridged nac status item.now out.old }
    ensures whole { result ≡ is_whole_item item.now }
{
    match item {
        Item::Whole { frame, .. } => {
            let statuses = Statuses::filled(status, frame.statuses.len());
            image_as_in(frame, nac, &statuses, room, out);
            true
        }
        Item::Broken { .. } | Item::NoUnit { .. } | Item::Gap { .. } | Item::Cut { .. } => false,
    }
}
