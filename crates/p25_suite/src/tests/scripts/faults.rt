//! Each read and each write of a script fails in turn, the sink takes less than the text, and the script is cut off after each of its
//! octets.

ghost use Rattle.std.specs.Prelude.{◌≤◌};

use super::{Call, are_joined, calm, ends};
use p25_io::SliceSink;
use p25_line::LineFault;
use p25_tool::Outcome;
use std::alloc::Global;

// A message that is sent, delivered and acknowledged, and the output for it.
const SCRIPT: &[u8; 42] = b"send 6162\ndeliver data -\ndeliver answer -\n";

const TEXT: &[u8; 125] = b"send taken ns=0 blocks=1\ndata delivered ns=0 message=6162\n\
    answer acknowledged ns=0\nsent=1 delivered=1 acknowledged=1 false=0\n";

// The number of octets of the output for the lines that end within a number of octets of the script.
fn decided(octets: usize) -> usize
    ensures { result ≤ 125 }
{
    match octets {
        0..=9 => 0,
        10..=24 => 25,
        25..=41 => 58,
        _ => 83,
    }
}

// Whether a read of the script that fails ends it; no read is made after the 43rd, which finds the end.
fn read_fails(alloc: Global, read: usize) -> bool {
    let call = Call {
        failing_read: read as u64,
        ..calm(b"stations", SCRIPT, 1)
    };
    if read > 43 {
        return ends(alloc, &call, Outcome::Done, TEXT);
    }
    let text = &TEXT[..decided(read.saturating_sub(1))];
    ends(alloc, &call, Outcome::ReadFault, text)
}

#[test]
fn each_read_of_a_script_fails_in_turn(rt: HostRuntime) {
    for read in 1..45 {
        assert!(rt; read_fails(rt.alloc(), read));
    }
}

// Whether this is the end of the script if a write fails, after this number of octets.
fn write_fails(alloc: Global, write: u64, outcome: Outcome, count: usize) -> bool {
    let call = Call {
        failing_write: write,
        ..calm(b"stations", SCRIPT, 1)
    };
    ends(alloc, &call, outcome, &TEXT[..count.min(125)])
}

#[test]
fn each_write_of_a_script_fails_in_turn(rt: HostRuntime) {
    for (write, count) in [(1, 0), (2, 25), (3, 58), (4, 83)] {
        assert!(rt; write_fails(rt.alloc(), write, Outcome::WriteFault, count));
    }
    assert!(rt; write_fails(rt.alloc(), 5, Outcome::Done, 125));
}

// A sink that takes a limited number of octets takes the first ones.
fn takes_the_first(alloc: Global, room: usize) -> bool {
    let call = Call {
        room,
        ..calm(b"stations", SCRIPT, 7)
    };
    ends(alloc, &call, Outcome::WriteFault, &TEXT[..room.min(125)])
}

#[test]
fn a_sink_may_take_less_than_the_text(rt: HostRuntime) {
    for room in 0..125 {
        assert!(rt; takes_the_first(rt.alloc(), room));
    }
}

// The end of the script that is cut off after a number of octets: with the fault of its last line, if it has one.
fn cut_fault(octets: usize) -> Option<LineFault> {
    match octets {
        1..=3 | 11..=16 | 26..=31 => Some(LineFault::Kind),
        4 | 17 | 19..=22 | 32 | 34..=39 => Some(LineFault::Key),
        5 | 18 | 23 | 33 | 40 => Some(LineFault::Form),
        6 | 8 => Some(LineFault::Value),
        _ => None,
    }
}

// The output for it if no line is refused, in octets of the text, and then its last line.
fn cut_text(octets: usize) -> (usize, &'static [u8]) {
    match octets {
        0 => (0, b"sent=0 delivered=0 acknowledged=0 false=0\n"),
        7..=10 => (25, b"sent=1 delivered=0 acknowledged=0 false=0\n"),
        24..=25 => (58, b"sent=1 delivered=1 acknowledged=0 false=0\n"),
        _ => (83, b"sent=1 delivered=1 acknowledged=1 false=0\n"),
    }
}

// Whether the script that is cut off after a number of octets has the right end and output.
fn is_cut_off(alloc: Global, octets: usize) -> bool {
    let call = calm(b"stations", &SCRIPT[..octets.min(42)], 7);
    if let Some(fault) = cut_fault(octets) {
        let line = match octets {
            0..=10 => 1,
            11..=25 => 2,
            _ => 3,
        };
        return ends(
            alloc,
            &call,
            Outcome::BadLine { line, fault },
            &TEXT[..decided(octets)],
        );
    }
    let (count, closing) = cut_text(octets);
    let mut room = [0; 125];
    let mut text = SliceSink::new(&mut room, &[]);
    are_joined(&[&TEXT[..count.min(125)], closing], &mut text)
        && ends(alloc, &call, Outcome::Done, text.written())
}

#[test]
fn a_script_is_cut_off_behind_each_octet(rt: HostRuntime) {
    for octets in 0..43 {
        assert!(rt; is_cut_off(rt.alloc(), octets));
    }
}
