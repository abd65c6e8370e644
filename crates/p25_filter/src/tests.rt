//! The order of reads and writes, from a tape: for an input that is read to its end, for a line that is refused, and
//! for a fault of each kind.

use super::*;
use p25_io::{Call, MemorySource, Pair, SliceSink, SteadySource, Tape};
use p25_line::{Line, LineFault};
use std::test::Fail;

// Returns each line unchanged, and refuses an empty one.
#[derive(Drop)]
struct Echo;

impl LineMachine for Echo {
    ghost use Rattle.p25_filter.specs.Echoes.{echo_rules, echo_long};

    ghost rules = { echo_rules };

    fn take(&mut self, line: &[u8], text: &mut Text) -> Result<(), LineRefusal> {
        if line.len() > 8_192 {
            return Err(LineRefusal::Fault(LineFault::Long));
        }
        if line.len() == 0 {
            return Err(LineRefusal::Fault(LineFault::Form));
        }
        text.put(line);
        Ok(())
    }

    fn close(&self, _text: &mut Text) {}

    ghost long = { echo_long };
}

#[test]
fn lines_given_back(rt: HostRuntime) {
    let mut source = SteadySource::new(b"ab\ncd\n", 4);
    let mut room = [0; 64];
    let mut sink = SliceSink::new(&mut room, &[]);
    let mut lines = LineFilter::new(Echo);
    let end = run_on(&mut lines, &mut Pair::new(&mut source, &mut sink));
    assert_eq!(rt; end, FilterEnd::Ended(Ending::Done));
    assert_eq!(rt; sink.written(), b"abcd".as_slice());
}

#[test]
fn refusals_in_words(rt: HostRuntime) -> Result<(), Fail> {
    let fault = LineFault::Value;
    let rows: [(Refusal, &str); 4] = [
        (Refusal::Ended(Ending::Done), "done"),
        (Refusal::Ended(Ending::Found { faults: 3 }), "found 3"),
        (
            Refusal::Ended(Ending::BadLine { line: 2, fault }),
            "line 2: value",
        ),
        (Refusal::Memory, "out of memory"),
    ];
    for (refusal, text) in rows {
        assert_eq!(rt; refusal.to_string(rt.alloc())?.as_str(), text);
    }
    let end = FilterEnd::Ended(Ending::Found { faults: 3 });
    assert_eq!(rt; end.to_string(rt.alloc())?.as_str(), "found 3");
    assert_eq!(rt;
        FilterEnd::TooLong.to_string(rt.alloc())?.as_str(),
        "input too long"
    );
    Ok(())
}

// A call by a letter and the number of octets that it read or had to write; a fault has a capital letter.
fn told(call: &Call) -> (u8, usize) {
    match call {
        Call::Read(octets) => (b'r', octets.len()),
        Call::ReadFailed => (b'R', 0),
        Call::Wrote(piece) => (b'w', piece.len()),
        Call::WriteFailed(piece, _) => (b'W', piece.len()),
    }
}

// The input, the number of the read that fails, that of the write that fails, the calls, and the end. A read returns at
// most 4 octets.
const TAPES: [(&[u8], u64, u64, &[(u8, usize)], FilterEnd); 5] = [
    (
        b"ab\ncdefg\nij",
        0,
        0,
        &[
            (b'r', 4),
            (b'w', 2),
            (b'r', 4),
            (b'r', 3),
            (b'w', 5),
            (b'r', 0),
            (b'w', 2),
        ],
        FilterEnd::Ended(Ending::Done),
    ),
    (
        b"ab\ncde\n\nij\n",
        0,
        0,
        &[(b'r', 4), (b'w', 2), (b'r', 4), (b'w', 3)],
        FilterEnd::Ended(Ending::BadLine {
            line: 3,
            fault: LineFault::Form,
        }),
    ),
    (
        b"ab\ncdefg\nij",
        2,
        0,
        &[(b'r', 4), (b'w', 2), (b'R', 0)],
        FilterEnd::ReadFault,
    ),
    (
        b"ab\ncdefg\nij",
        0,
        2,
        &[(b'r', 4), (b'w', 2), (b'r', 4), (b'r', 3), (b'W', 5)],
        FilterEnd::WriteFault,
    ),
    (b"", 0, 0, &[(b'r', 0)], FilterEnd::Ended(Ending::Done)),
];

#[test]
fn tapes(rt: HostRuntime) {
    for (input, read, write, calls, end) in TAPES {
        let reads = [read];
        let writes = [write];
        let source = MemorySource::new(input, 4, &reads);
        let mut room = [0; 64];
        let sink = SliceSink::new(&mut room, &writes);
        let mut tape = Tape::new(rt.alloc(), source, sink);
        let mut lines = LineFilter::new(Echo);
        assert_eq!(rt; run_on(&mut lines, &mut tape), end);
        assert!(rt; !tape.is_torn());
        let made = tape.calls();
        assert_eq!(rt; made.len(), calls.len());
        for (call, want) in made.iter().zip(calls) {
            assert_eq!(rt; told(call), *want);
        }
    }
}
