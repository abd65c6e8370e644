//! The report of `show`: a line for each item.

ghost use Rattle.std.specs.Prelude.{◌≡◌};
ghost use Rattle.p25_units.specs.Items.{IsSoundItem};
ghost use Rattle.p25_recording_filters.specs.ItemOutputs.{shown};

use crate::report::Report;
use p25_bits::BitBuf;
use p25_filter::Ending;
use p25_line::Line;
use p25_text::item_text;
use p25_units::Item;

/// The text of each item, one a line.
#[derive(Clone, Copy, Debug, Default, PartialEq, Eq)]
pub struct Show;

impl Report for Show {
    ghost use Rattle.std.specs.Prelude.{false, refl};
    ghost use Rattle.p25_recording_filters.specs.Commands.{show_reporting};

    const LOOKS_AT_BITS: bool = false;

    ghost LOOKS_AT_BITS = { false };

    ghost reporting = { show_reporting };

    ghost ignores_bits = { λ _. record { piece = λ report item bits others. refl; behind = λ report item bits others. refl } };

    fn put(&mut self, item: &Item, raw: &mut BitBuf, out: &mut Line) {
        put_item_line(item, out);
    }

    fn close(&self, out: &mut Line) {
        out.clear();
    }

    fn ending(&self) -> Ending {
        Ending::Done
    }
}

// Writes to `out` the text of an item and the end of its line.
pub(crate) fn put_item_line(item: &Item, out: &mut Line)
    requires { IsSoundItem item.now }
    ensures { out.new ≡ shown item.now }
{
    item_text(item, out);
    out.put(b"\n");
}
