//! The four ends of a call of `show` in its theorem, and the law at sources and sinks in memory.

use super::laws::{reading_laws, show_laws};
use p25_io::{MemorySource, SliceSink};
use p25_tool::{Outcome, Words, run};

// Two terminators (TDU) of NAC 293 hex with the status symbol 1, and a third without its last two octets.
const TERMINATORS: &[u8] =
    b"\x55\x75\xF5\xFF\x77\xFF\x29\x33\x39\x5D\xDC\xA3\x3B\x5B\x80\x00\x00\x01\
    \x55\x75\xF5\xFF\x77\xFF\x29\x33\x39\x5D\xDC\xA3\x3B\x5B\x80\x00\x00\x01\
    \x55\x75\xF5\xFF\x77\xFF\x29\x33\x39\x5D\xDC\xA3\x3B\x5B\x80\x00";

// Their lines.
const LINES: &[u8] = b"unit at=0 bits=144 fix=0 status=11 tdu nac=293\n\
    unit at=144 bits=144 fix=0 status=11 tdu nac=293\ncut at=288 bits=128\n";

// The reads of six octets that fail, the number of octets for which the sink has capacity, the end of the call, and the
// number of octets of the lines that are written: after a read fault those of the decided items, after a write fault as
// many as there was capacity for.
const ROWS: [(&[u64], usize, Outcome, usize); 6] = [
    (&[], 128, Outcome::Done, 116),
    (&[10], 128, Outcome::ReadFault, 96),
    (&[4], 128, Outcome::ReadFault, 47),
    (&[3], 128, Outcome::ReadFault, 0),
    (&[], 60, Outcome::WriteFault, 60),
    (&[], 0, Outcome::WriteFault, 0),
];

#[test]
fn ends_of_show(rt: HostRuntime) {
    show_laws::<MemorySource<'_>, SliceSink<'_>>();
    reading_laws();
    for (fails, most, outcome, count) in &ROWS {
        let mut words = Words::new();
        words.add(b"show");
        let mut source = MemorySource::new(TERMINATORS, 6, fails);
        let mut room = [0; 128];
        let mut sink = SliceSink::new(&mut room[..(*most).min(128)], &[]);
        assert!(rt; run(rt.alloc(), &words, &mut source, &mut sink) == *outcome);
        assert!(rt; sink.written() == &LINES[..(*count).min(LINES.len())]);
    }
}
