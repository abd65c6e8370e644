//! The texts of items.

ghost use Rattle.std.specs.Prelude.{◌≡◌, ◌+◌, ◌<◌, ◌≤◌, ◌++◌, [], length};
ghost use Rattle.p25_units.specs.Items.{IsSoundItem};
ghost use Rattle.p25_text.specs.ItemTexts.{item_text_of, status_digits};

use super::write::put_unit;
use p25_line::Line;
use p25_status::{put_field_name, put_field_names};
use p25_units::{FieldList, Frame, Item, Statuses, frame_length};

/// Writes to `out` the text of an item, without the end of its line.
#[tactic(auto, unfolding(crate::specs::ItemTexts::item_text_of))]
pub fn item_text(item: &Item, out: &mut Line)
    requires { IsSoundItem item.now }
    ensures text { out.new ≡ item_text_of item.now }
    ensures short { length out.new < 8192 }
{
    out.clear();
    match item {
        Item::Whole {
            place,
            frame,
            fixes,
        } => put_whole(*place, frame, *fixes, out),
        Item::Broken {
            place,
            length,
            nac,
            duid,
            fields,
        } => put_broken(*place, *length, (*nac, *duid), fields, out),
        Item::NoUnit { place, field } => {
            out.put_labelled(b"nounit at=", *place);
            out.put(b" field=");
            put_field_name(*field, out);
        }
        Item::Gap { place, length } => {
            out.put_labelled(b"gap at=", *place);
            out.put_labelled(b" bits=", u64::from(*length));
        }
        Item::Cut { place, have } => {
            out.put_labelled(b"cut at=", *place);
            out.put_labelled(b" bits=", u64::from(*have));
        }
    }
}

// Appends the text of a whole data unit to an empty line.
fn put_whole(place: u64, frame: &Frame, fixes: u32, out: &mut Line)
    requires { out.old ≡ [] }
    ensures text { out.new ≡ item_text_of (Item.Whole place frame.now fixes) }
    ensures short { length out.new < 8192 }
{
    out.put_labelled(b"unit at=", place);
    out.put_labelled(b" bits=", frame_length(&frame.unit) as u64);
    out.put_labelled(b" fix=", u64::from(fixes));
    out.put(b" status=");
    put_statuses(&frame.statuses, out);
    out.put(b" ");
    put_unit(&frame.unit, out);
}

// Appends the text of a broken data unit with its network access code (NAC) and data unit identifier (DUID) to an empty
// line.
#[tactic(auto, unfolding(crate::specs::ItemTexts::item_text_of))]
fn put_broken(place: u64, count: u32, identifier: (u16, u8), fields: &FieldList, out: &mut Line)
    requires { out.old ≡ [] }
    ensures text { out.new ≡ item_text_of (Item.Broken place count identifier.0 identifier.1 fields.now) }
    ensures short { length out.new < 8192 }
{
    out.put_labelled(b"broken at=", place);
    out.put_labelled(b" bits=", u64::from(count));
    out.put(b" nac=");
    out.put_three_digits(identifier.0);
    out.put(b" duid=");
    // The last of its two hexadecimal digits.
    let mut digits = [0; 2];
    let _ = hex::encode_to_slice([identifier.1], &mut digits);
    out.put(&digits[1..]);
    out.put(b" fields=");
    put_field_names(fields, out);
}

// Appends a digit for each status symbol.
fn put_statuses(statuses: &Statuses, out: &mut Line)
    requires { length out.old + 360 ≤ 8192 }
    ensures text { out.new ≡ out.old ++ status_digits statuses.now }
    ensures short { length out.new ≤ length out.old + 360 }
{
    for i in 0..statuses.len() {
        out.put(&[b'0' + statuses.get(i).value()]);
    }
}
