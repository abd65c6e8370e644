//! The coded fields of a data unit that a scan finds, decoded from its soft symbols.

ghost use Rattle.std.specs.{Prelude.{◌≡◌, ℕ, ◌+◌, ◌*◌, ◌/◌, ◌%◌, ◌≤◌, List, ℤ, length, true}, Option.{is_some}};
ghost use Rattle.p25_bits.specs.Bits.{part};
ghost use Rattle.p25_units.specs.Items.{covered, place_of};
ghost use Rattle.p25_soft.specs.Softened.{IsHeard};
ghost use Rattle.p25_follow.specs.Followed.{unit_name};
ghost use Rattle.p25_decide.specs.{DecidedRecordings.{item_decided, unit_decided}, DecidedTaking.{AreFrom}};

use crate::unit::decide_unit;
use p25_bch_nid::PDU;
use p25_bits::BitBuf;
use p25_soft::soften;
use p25_units::Item;

// Decodes the coded fields of a data unit from its own soft symbols.
fn decide_own(item: &Item, levels: &[i8], raw: &mut BitBuf)
    requires { is_some (unit_name item.now) ≡ true → IsHeard item.now levels.now raw.old }
    ensures { raw.new ≡ unit_decided levels.now item.now raw.old }
{
    match item {
        Item::Whole { frame, .. } => {
            let duid = frame.unit.body().duid();
            if duid != PDU {
                decide_unit(duid, levels, raw);
            }
        }
        Item::Broken { duid, .. } => {
            if *duid == PDU {
                let _ = soften(item, levels, raw);
            } else {
                decide_unit(*duid, levels, raw);
            }
        }
        _ => {}
    }
}

// Decodes the coded fields of an item. `from` is the number of bits before it for which there are soft symbols: if it is
// odd, all bits stay.
pub(crate) fn decide_item(item: &Item, from: usize, levels: &[i8], raw: &mut BitBuf)
    requires there { from + covered item.now ≤ 2 * length levels.now }
    requires heard { is_some (unit_name item.now) ≡ true → from % 2 ≡ 0
        → IsHeard item.now (part (from / 2) (covered item.now / 2) levels.now) raw.old }
    ensures { (first : ℕ) (all : List ℤ) → AreFrom first levels.now all → place_of item.now ≡ 2 * first + from
        → raw.new ≡ item_decided all item.now raw.old }
{
    if from % 2 == 0 {
        let count = (item.covered() / 2) as usize;
        decide_own(item, &levels[from / 2..from / 2 + count], raw);
    }
}
