//! The report of `calls`: a line for each call, and their number.

ghost use Rattle.std.specs.Prelude.{◌≡◌, ◌<◌, ◌≤◌, [], flat_map, length, option_to_list, IfSome};
ghost use Rattle.p25_calls.specs.Taking.{fresh_caller};
ghost use Rattle.p25_recording_filters.specs.ItemOutputs.{call_line};

use crate::report::Report;
use p25_bits::BitBuf;
use p25_calls::{Call, Caller};
use p25_filter::Ending;
use p25_line::Line;
use p25_text::call_text;
use p25_units::Item;
use std::marker::Model;

/// The text of each call, and at the end their number.
#[derive(Clone, Debug, Drop)]
pub struct Calls {
    caller: Caller,
    count: u64,
}

impl Model for Calls {
    ghost use Rattle.p25_recording_filters.specs.Commands.{CallsParts, IsCalls};

    ghost Value = { CallsParts };

    ghost view = { λ s. record { caller = s.caller; count = s.count } };

    ghost invariant = { λ s. IsCalls (record { caller = s.caller; count = s.count }) };
}

impl Calls {
    /// Returns the report before the first item.
    pub fn new() -> Calls
        ensures { result ≡ record { caller = fresh_caller; count = 0 } }
    {
        Calls {
            caller: Caller::new(),
            count: 0,
        }
    }
}

/// Returns the report before the first item.
impl Default for Calls {
    ghost is_default = { λ report. report ≡ record { caller = fresh_caller; count = 0 } };

    fn default() -> Calls {
        Calls::new()
    }
}

impl Report for Calls {
    ghost use Rattle.std.specs.Prelude.{◌≡◌, false, refl};
    ghost use Rattle.p25_recording_filters.specs.Commands.{calls_reporting};

    const LOOKS_AT_BITS: bool = false;

    ghost LOOKS_AT_BITS = { false };

    ghost reporting = { calls_reporting };

    ghost counted = { λ report. report.caller.taken };

    ghost HasReached = { λ report place. report.caller.reached ≡ place };

    ghost ignores_bits = { λ _. record { piece = λ report item bits others. refl; behind = λ report item bits others. refl } };

    fn put(&mut self, item: &Item, raw: &mut BitBuf, out: &mut Line) {
        out.clear();
        let call = self.caller.take(item);
        self.count += put_call(&call, out);
    }

    fn close(&self, out: &mut Line) {
        out.clear();
        let mut caller = self.caller;
        let call = caller.finish();
        let last = put_call(&call, out);
        out.put_labelled(b"calls=", self.count + last);
        out.put(b"\n");
    }

    fn ending(&self) -> Ending {
        Ending::Done
    }
}

// Writes to an empty line the text of a call and the end of its line, if there is a call, and returns the number of
// calls, 0 or 1.
fn put_call(call: &Option<Call>, out: &mut Line) -> u64
    requires empty { out.old ≡ [] }
    requires nac { IfSome call.now (λ call. call.nac < 4096) }
    ensures text { out.new ≡ flat_map call_line (option_to_list call.now) }
    ensures short { length out.new ≤ 401 }
    ensures count { result ≡ length (option_to_list call.now) }
    ensures one { result ≤ 1 }
{
    match call {
        Some(call) => {
            call_text(call, out);
            out.put(b"\n");
            1
        }
        None => 0,
    }
}
