//! Lines that `build` refuses, after a line that it accepts.

use super::{calm, ends};
use p25_line::{Line, LineFault};
use p25_tool::Outcome;
use std::alloc::Global;

// A terminator (TDU) of NAC 0 with both status symbols 1.
const TERMINATOR: &[u8] =
    b"\x55\x75\xF5\xFF\x77\xFF\x00\x03\x35\x93\x0B\xDD\x3B\x2B\x00\x00\x00\x01";

// A second line, and the reason for refusing it.
const LINES: [(&[u8], LineFault); 5] = [
    (b"", LineFault::Form),
    (b"foo", LineFault::Kind),
    (b"tdu", LineFault::Key),
    (b"tdu nac=00A", LineFault::Value),
    (
        b"confirmed nac=000 head=56c00000000181000800 blocks=-",
        LineFault::Value,
    ),
];

// Whether a second line is refused so.
fn is_refused(alloc: Global, line: &[u8], fault: LineFault) -> bool {
    let mut input = Line::new();
    input.put(b"tdu nac=000\n");
    if line.len() <= 200 {
        input.put(line);
    }
    input.put(b"\ntdu nac=000\n");
    let call = calm(&[b"build", b"1"], input.octets(), 7);
    let refused = Outcome::BadLine { line: 2, fault };
    ends(alloc, &call, refused, TERMINATOR)
}

#[test]
fn second_lines_are_refused(rt: HostRuntime) {
    for (line, fault) in &LINES {
        assert!(rt; is_refused(rt.alloc(), line, *fault));
    }
}
