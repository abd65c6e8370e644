//! The order of reads and writes of a call, from a tape: a call of each type of command, words that name none, and
//! faults.

use super::{put_named, words_of};
use p25_io::{Call, MemorySource, SliceSink, Tape};
use p25_line::{Line, LineFault};
use p25_tool::{Outcome, run_on};
use std::alloc::Global;

// Three terminators (TDU), with 16 bits between the first two.
const RECORDING: &[u8; 56] =
    b"\x55\x75\xF5\xFF\x77\xFF\x00\x03\x35\x93\x0B\xDD\x3B\x2B\x00\x00\x00\x01\x00\x00\
    \x55\x75\xF5\xFF\x77\xFF\x00\x03\x35\x93\x0B\xDD\x3B\x2B\x00\x00\x00\x01\
    \x55\x75\xF5\xFF\x77\xFF\x00\x03\x35\x93\x0B\xDD\x3B\x2B\x00\x00\x00\x01";

// The levels of a terminator (TDU).
const LEVELS: &[u8; 72] =
    b"`````\xA0``\xA0\xA0``\xA0\xA0\xA0\xA0`\xA0`\xA0\xA0\xA0\xA0\xA0       \xA0 \xA0``\xE0` \xA0  \
    \xE0\xA0\xA0`\xA0` \xA0\xE0\xA0 \xE0\xE0\xA0               `";

// A call: its words, its input, the number of octets that a read of it returns, and each read and write, by a letter
// and the number of octets that it read or had to write; a fault has a capital letter.
type Row = (
    &'static [&'static [u8]],
    &'static [u8],
    usize,
    &'static [u8],
);

// Calls that end as done, without a fault.
const DONE: [Row; 9] = [
    (&[b"show"], RECORDING, 20, b" r20 w47 r20 w68 r16 w49 r0"),
    (&[b"follow"], RECORDING, 20, b" r20 w18 r20 w20 r16 w18 r0"),
    (
        &[b"relay", b"123", b"0"],
        RECORDING,
        20,
        b" r20 w18 r20 w20 r16 w18 r0",
    ),
    (&[b"soft"], LEVELS, 72, b" r72 w18 r0"),
    (
        &[b"build", b"1"],
        b"tdu nac=293\ntdu nac=293\n",
        12,
        b" r12 w18 r12 w18 r0",
    ),
    (
        &[b"stations"],
        b"send 6162\ndeliver data -\ndeliver answer -\n",
        21,
        b" r21 w25 r21 w58 r0 w42",
    ),
    (
        &[b"fragments"],
        b"long -\ndeliver data -\ndeliver answer -\n",
        22,
        b" r22 w91 r17 w43 r0 w39",
    ),
    (
        &[b"duplex"],
        b"a send 6162\nb send 6364\ndeliver ab -\ndeliver ba -\n",
        50,
        b" r50 w116 r0 w80",
    ),
    (&[b"sample", b"1"], b"octets", 4, b" w24"),
];

// Others, the numbers of the read and of the write that fail, none if it is 0, and the end of each.
const ENDED: [(Row, (u64, u64), Outcome); 5] = [
    ((&[b"nothing"], b"octets", 4, b""), (0, 0), Outcome::Usage),
    (
        (
            &[b"stations"],
            b"send 6162\nsend 6x\nsend 6364\n",
            10,
            b" r10 w25 r10",
        ),
        (0, 0),
        Outcome::BadLine {
            line: 2,
            fault: LineFault::Value,
        },
    ),
    (
        (&[b"show"], RECORDING, 20, b" r20 w47 R0"),
        (2, 0),
        Outcome::ReadFault,
    ),
    (
        (&[b"show"], RECORDING, 20, b" r20 w47 r20 W68"),
        (0, 2),
        Outcome::WriteFault,
    ),
    (
        (&[b"sample", b"1"], b"octets", 4, b" W24"),
        (1, 1),
        Outcome::WriteFault,
    ),
];

fn told(call: &Call) -> (u8, usize) {
    match call {
        Call::Read(octets) => (b'r', octets.len()),
        Call::ReadFailed => (b'R', 0),
        Call::Wrote(piece) => (b'w', piece.len()),
        Call::WriteFailed(piece, _) => (b'W', piece.len()),
    }
}

// The reads and writes of a tape, each after a blank.
fn text_of(calls: &[Call]) -> Line {
    let mut text = Line::new();
    for call in calls {
        let (letter, count) = told(call);
        put_named(&mut text, &[b' ', letter], count as u64);
    }
    text
}

// Whether a call with these failing reads and writes ends so, with the reads and writes of its row.
fn holds(alloc: Global, row: &Row, fails: (u64, u64), outcome: Outcome) -> bool {
    let (words, input, piece, text) = *row;
    let (reads, writes) = ([fails.0], [fails.1]);
    let source = MemorySource::new(input, piece.max(1), &reads);
    let mut room = [0; 512];
    let sink = SliceSink::new(&mut room, &writes);
    let mut tape = Tape::new(alloc, source, sink);
    let ended = run_on(alloc, &words_of(words), &mut tape);
    ended == outcome && !tape.is_torn() && text_of(tape.calls()).octets() == text
}

#[test]
fn tapes(rt: HostRuntime) {
    for row in &DONE {
        assert!(rt; holds(rt.alloc(), row, (0, 0), Outcome::Done));
    }
    for (row, fails, outcome) in &ENDED {
        assert!(rt; holds(rt.alloc(), row, *fails, *outcome));
    }
}
