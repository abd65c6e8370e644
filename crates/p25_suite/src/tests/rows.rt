//! The output of each command, as a table of inputs, each read in chunks of 1, of 7 and of all octets.

use super::{calm, ends};
use p25_line::LineFault;
use p25_tool::Outcome;
use std::alloc::Global;

// A call: its words, its input, its output and its outcome.
type Row = (
    &'static str,
    &'static [&'static [u8]],
    &'static [u8],
    &'static [u8],
    Outcome,
);

// A terminator (TDU) of NAC 0 with both status symbols 1.
const TERMINATOR: &[u8] =
    b"\x55\x75\xF5\xFF\x77\xFF\x00\x03\x35\x93\x0B\xDD\x3B\x2B\x00\x00\x00\x01";

// A TDU with the bit P of its network identifier (NID) inverted, and one with the first 11 bits of its NID inverted.
const PARITY_INVERTED: &[u8] =
    b"\x55\x75\xF5\xFF\x77\xFF\x00\x03\x35\x93\x0B\xDD\x3B\x2B\x40\x00\x00\x01";

const ELEVEN_WRONG: &[u8] =
    b"\x55\x75\xF5\xFF\x77\xFF\xFF\xE3\x35\x93\x0B\xDD\x3B\x2B\x00\x00\x00\x01";

// A sync, and after it 64 bits that are no network identifier (NID): they differ from each BCH codeword in at least 21
// positions.
const NID_BEYOND: &[u8] =
    b"\x55\x75\xF5\xFF\x77\xFF\x00\x03\x69\x0B\x51\x49\xD2\xC1\x80\x00\x00\x01";

const NID_BEYOND_THEN_WHOLE: &[u8] =
    b"\x55\x75\xF5\xFF\x77\xFF\x00\x03\x69\x0B\x51\x49\xD2\xC1\x80\x00\x00\x01\x55\x75\xF5\xFF\x77\xFF\x00\x03\x35\x93\x0B\xDD\x3B\x2B\x00\x00\x00\x01";

const PLAIN_TEXT: &[u8] = b"unit at=0 bits=144 fix=0 status=11 tdu nac=000\n";

const RECORDINGS: [Row; 18] = [
    ("an empty input", &[b"show"], b"", b"", Outcome::Done),
    (
        "a check of an empty input",
        &[b"check"],
        b"",
        b"check units=0 faults=0\n",
        Outcome::Done,
    ),
    (
        "a terminator",
        &[b"show"],
        TERMINATOR,
        PLAIN_TEXT,
        Outcome::Done,
    ),
    (
        "a check of a terminator",
        &[b"check"],
        TERMINATOR,
        b"check units=1 faults=0\n",
        Outcome::Done,
    ),
    (
        "a terminator, which is no call",
        &[b"calls"],
        TERMINATOR,
        b"calls=0\n",
        Outcome::Done,
    ),
    (
        "11 wrong identifier bits",
        &[b"show"],
        ELEVEN_WRONG,
        b"unit at=0 bits=144 fix=11 status=11 tdu nac=000\n",
        Outcome::Done,
    ),
    (
        "11 wrong identifier bits repaired",
        &[b"repair"],
        ELEVEN_WRONG,
        TERMINATOR,
        Outcome::Done,
    ),
    (
        "an identifier far from each word",
        &[b"show"],
        NID_BEYOND,
        b"nounit at=0 field=nid\ngap at=1 bits=143\n",
        Outcome::Done,
    ),
    (
        "a check of an identifier far from each word",
        &[b"check"],
        NID_BEYOND,
        b"nounit at=0 field=nid\ngap at=1 bits=143\ncheck units=0 faults=2\n",
        Outcome::Found { faults: 2 },
    ),
    (
        "what is no unit is not repaired",
        &[b"repair"],
        NID_BEYOND,
        NID_BEYOND,
        Outcome::Done,
    ),
    (
        "a terminator behind it",
        &[b"show"],
        NID_BEYOND_THEN_WHOLE,
        b"nounit at=0 field=nid\ngap at=1 bits=143\nunit at=144 bits=144 fix=0 status=11 tdu nac=000\n",
        Outcome::Done,
    ),
    (
        "the bit P inverted",
        &[b"show"],
        PARITY_INVERTED,
        PLAIN_TEXT,
        Outcome::Done,
    ),
    (
        "the bit P repaired",
        &[b"repair"],
        PARITY_INVERTED,
        TERMINATOR,
        Outcome::Done,
    ),
    (
        "4 wrong sync bits",
        &[b"show"],
        b"\xA5\x75\xF5\xFF\x77\xFF\x00\x03\x35\x93\x0B\xDD\x3B\x2B\x00\x00\x00\x01",
        b"unit at=0 bits=144 fix=4 status=11 tdu nac=000\n",
        Outcome::Done,
    ),
    (
        "5 wrong sync bits",
        &[b"show"],
        b"\xAD\x75\xF5\xFF\x77\xFF\x00\x03\x35\x93\x0B\xDD\x3B\x2B\x00\x00\x00\x01",
        b"gap at=0 bits=144\n",
        Outcome::Done,
    ),
    (
        "a terminator without its last octet",
        &[b"show"],
        b"\x55\x75\xF5\xFF\x77\xFF\x00\x03\x35\x93\x0B\xDD\x3B\x2B\x00\x00\x00",
        b"cut at=0 bits=136\n",
        Outcome::Done,
    ),
    (
        "a terminator under another status symbol",
        &[b"bridge", b"000", b"0"],
        TERMINATOR,
        b"\x55\x75\xF5\xFF\x77\xFF\x00\x03\x34\x93\x0B\xDD\x3B\x2B\x00\x00\x00\x00",
        Outcome::Done,
    ),
    (
        "no unit to bridge",
        &[b"bridge", b"000", b"0"],
        NID_BEYOND,
        b"",
        Outcome::Done,
    ),
];

const LINES: [Row; 9] = [
    (
        "a line",
        &[b"build", b"1"],
        b"tdu nac=000\n",
        TERMINATOR,
        Outcome::Done,
    ),
    (
        "a line that no LF ends",
        &[b"build", b"1"],
        b"tdu nac=000",
        TERMINATOR,
        Outcome::Done,
    ),
    ("no line", &[b"build", b"1"], b"", b"", Outcome::Done),
    (
        "an empty second line",
        &[b"build", b"1"],
        b"tdu nac=000\n\n",
        TERMINATOR,
        Outcome::BadLine {
            line: 2,
            fault: LineFault::Form,
        },
    ),
    (
        "a second line of another kind",
        &[b"build", b"1"],
        b"tdu nac=000\nfoo\ntdu nac=000\n",
        TERMINATOR,
        Outcome::BadLine {
            line: 2,
            fault: LineFault::Kind,
        },
    ),
    (
        "a second line with another key",
        &[b"build", b"1"],
        b"tdu nac=000\ntdu nak=000",
        TERMINATOR,
        Outcome::BadLine {
            line: 2,
            fault: LineFault::Key,
        },
    ),
    (
        "a second line without its key",
        &[b"build", b"1"],
        b"tdu nac=000\ntdu",
        TERMINATOR,
        Outcome::BadLine {
            line: 2,
            fault: LineFault::Key,
        },
    ),
    (
        "a second line with another value",
        &[b"build", b"1"],
        b"tdu nac=000\ntdu nac=00A\n",
        TERMINATOR,
        Outcome::BadLine {
            line: 2,
            fault: LineFault::Value,
        },
    ),
    (
        "a first line with a carriage return",
        &[b"build", b"1"],
        b"tdu nac=000\r\n",
        b"",
        Outcome::BadLine {
            line: 1,
            fault: LineFault::Form,
        },
    ),
];

// Whether a call has the end and the output of its row, whatever the reads.
fn holds(alloc: Global, row: &Row) -> bool {
    let mut all = true;
    for piece in [1, 7, 4_096] {
        all = all && ends(alloc, &calm(row.1, row.2, piece), row.4, row.3);
    }
    all
}

#[test]
fn recordings_are_reported(rt: HostRuntime) {
    for row in &RECORDINGS {
        assert!(rt; holds(rt.alloc(), row));
    }
}

#[test]
fn lines_are_built(rt: HostRuntime) {
    for row in &LINES {
        assert!(rt; holds(rt.alloc(), row));
    }
}

// A second line of 8,193 octets is too long, whatever its contents.
#[test]
fn a_long_line_is_refused(rt: HostRuntime) {
    let mut input = [b'x'; 8_205];
    input[..12].copy_from_slice(b"tdu nac=000\n");
    for (size, fault) in [(8_205, LineFault::Long), (8_204, LineFault::Kind)] {
        let call = calm(&[b"build", b"1"], &input[..size], 1_000);
        let refused = Outcome::BadLine { line: 2, fault };
        assert!(rt; ends(rt.alloc(), &call, refused, TERMINATOR));
    }
}
