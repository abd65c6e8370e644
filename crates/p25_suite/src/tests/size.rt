//! The largest input, and one octet more.

ghost use Rattle.std.specs.Prelude.{None};

use super::words_of;
use p25_io::{Failed, Sink, SteadySource};
use p25_tool::{Outcome, run};
use std::alloc::Global;
use std::test::Fail;

// Counts the ends of lines and the octets that are written to it.
#[derive(Drop)]
struct LineCounter {
    lines: u64,
    octets: u64,
}

impl Sink for LineCounter {
    ghost written = { λ s. None };

    ghost faults = { λ s. 0 };

    fn write(&mut self, piece: &[u8]) -> Result<(), Failed> {
        for octet in piece {
            self.lines = self.lines.saturating_add(u64::from(*octet == b'\n'));
        }
        self.octets = self.octets.saturating_add(piece.len() as u64);
        Ok(())
    }
}

// The number of zeros of the input, the end of the call, and the numbers of lines and octets of its output.
type Row = (usize, Outcome, u64, u64);

const SIZES: [Row; 2] = [
    (16_777_216, Outcome::Done, 32_768, 857_603),
    (16_777_217, Outcome::TooLong, 32_767, 857_576),
];

// Whether a recording that is read in such chunks has the end and the output of its row.
fn holds(alloc: Global, recording: &[u8], piece: usize, row: &Row) -> bool {
    let mut source = SteadySource::new(recording, piece.max(1));
    let mut sink = LineCounter {
        lines: 0,
        octets: 0,
    };
    let outcome = run(alloc, &words_of(&[b"show"]), &mut source, &mut sink);
    outcome == row.1 && sink.lines == row.2 && sink.octets == row.3
}

#[test]
fn the_largest_input_and_one_octet_more(rt: HostRuntime) -> Result<(), Fail> {
    for row in &SIZES {
        let recording = vec![in rt.alloc(); 0; row.0]?;
        assert!(rt; holds(rt.alloc(), &recording, 1, row));
        assert!(rt; holds(rt.alloc(), &recording, 7, row));
        assert!(rt; holds(rt.alloc(), &recording, row.0, row));
    }
    Ok(())
}
