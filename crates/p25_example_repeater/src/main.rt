//! Writes the recording on standard input under another network access code (NAC): each whole data unit at its
//! position, with that code and corrected, and all other bits as received.
//!
//! The program is a `Report` of its own: `put` writes the octets of one item and its bits. `Recording` scans the octets
//! for it, and `run_on` reads and writes. A whole data unit is encoded again under the other code. No item changes its
//! length, so each keeps its position.
#![tactic(auto)]

ghost use Rattle.std.specs.Prelude.{◌≡◌, List, []};
ghost use Rattle.p25_io.specs.Events.{Event};
ghost use Rattle.p25_filter.specs.Traces.{IsRun};
ghost use Rattle.p25_recording_filters.specs.Recordings.{fresh, recording_future};
ghost use Rattle.p25_example_repeater.specs.Repeated.{repeating};

use p25_bits::BitBuf;
use p25_filter::{Ending, FilterEnd, run_on};
use p25_io::{Port, Streams};
use p25_line::Line;
use p25_recording_filters::parts::put_behind;
use p25_recording_filters::{Recording, Report};
use p25_units::{Item, image_as};
use std::io;
use std::marker::Model;

#[cfg(test)]
mod tests;

/// The network access code (NAC) of the data units that are written.
const NETWORK: u16 = 0x2A1;

fn main(rt: HostRuntime) -> io::Result<()> {
    match repeat_recording(&mut Streams::new(rt.stdin(), rt.stdout())) {
        FilterEnd::Ended(_) => Ok(()),
        _ => Err(io::ErrorKind::Other.into()),
    }
}

// Reads a recording and writes it again. The reads and writes are a live run of the report: all output that the octets
// read so far determine is written before the next read.
fn repeat_recording<P: Port>(port: &mut P) -> FilterEnd
    ensures { (events : List Event) × P.moves port.old events port.new × IsRun (recording_future repeating (fresh [])) events result }
{
    let mut recording = Recording::new(Repeated {
        left: BitBuf::new(),
    });
    run_on(&mut recording, port)
}

// The report. At most seven bits, which fill no octet, are kept.
#[derive(Drop)]
struct Repeated {
    left: BitBuf,
}

impl Model for Repeated {
    ghost use Rattle.std.specs.Prelude.{Bool, List, ◌<◌, length};

    ghost Value = { List Bool };

    ghost view = { λ s. s.left };

    ghost invariant = { λ s. length s.left < 8 };
}

impl Report for Repeated {
    ghost use Rattle.std.specs.Prelude.{true};
    ghost use Rattle.std.proofs.lemmas.Bool.{true≢false};
    ghost use Rattle.p25_example_repeater.specs.Repeated.{repeating};

    const LOOKS_AT_BITS: bool = true;

    ghost LOOKS_AT_BITS = { true };

    ghost reporting = { repeating };

    ghost ignores_bits = { λ blind. absurd (true≢false blind) };

    fn put(&mut self, item: &Item, raw: &mut BitBuf, out: &mut Line) {
        if let Item::Whole { frame, .. } = item {
            image_as(frame, NETWORK, &frame.statuses, raw);
        }
        put_behind(&mut self.left, raw, out);
    }

    fn close(&self, out: &mut Line) {
        out.clear();
    }

    fn ending(&self) -> Ending {
        Ending::Done
    }
}
