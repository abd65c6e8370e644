//! The report of `check`: the items that are not whole data units, and the counts.

ghost use Rattle.std.specs.Prelude.{◌≡◌, ◌+◌};

use super::show::put_item_line;
use crate::report::Report;
use p25_bits::BitBuf;
use p25_filter::Ending;
use p25_line::Line;
use p25_units::Item;
use std::marker::Model;

/// The text of each item that is not a whole data unit, and at the end the numbers of data units and of other items.
#[derive(Clone, Debug, Drop)]
pub struct Check {
    units: u64,
    faults: u64,
}

impl Model for Check {
    ghost use Rattle.p25_recording_filters.specs.Commands.{CheckParts};

    ghost Value = { CheckParts };

    ghost view = { λ s. record { units = s.units; faults = s.faults } };
}

impl Check {
    /// Returns the report before the first item.
    pub fn new() -> Check
        ensures { result ≡ record { units = 0; faults = 0 } }
    {
        Check {
            units: 0,
            faults: 0,
        }
    }
}

/// Returns the report before the first item.
impl Default for Check {
    ghost is_default = { λ report. report ≡ record { units = 0; faults = 0 } };

    fn default() -> Check {
        Check::new()
    }
}

impl Report for Check {
    ghost use Rattle.std.specs.Prelude.{◌+◌, false, refl};
    ghost use Rattle.p25_recording_filters.specs.Commands.{check_reporting};

    const LOOKS_AT_BITS: bool = false;

    ghost LOOKS_AT_BITS = { false };

    ghost reporting = { check_reporting };

    ghost counted = { λ report. report.units + report.faults };

    ghost ignores_bits = { λ _. record { piece = λ report item bits others. refl; behind = λ report item bits others. refl } };

    fn put(&mut self, item: &Item, raw: &mut BitBuf, out: &mut Line) {
        match item {
            Item::Whole { .. } => {
                self.units += 1;
                out.clear();
            }
            Item::Broken { .. } | Item::NoUnit { .. } | Item::Gap { .. } | Item::Cut { .. } => {
                self.faults += 1;
                put_item_line(item, out);
            }
        }
    }

    fn close(&self, out: &mut Line) {
        out.clear();
        out.put_labelled(b"check units=", self.units);
        out.put_labelled(b" faults=", self.faults);
        out.put(b"\n");
    }

    fn ending(&self) -> Ending {
        if self.faults == 0 {
            Ending::Done
        } else {
            Ending::Found {
                faults: self.faults,
            }
        }
    }
}
