//! Each read and each write fails in turn, and a recording is cut off after each of its octets.

ghost use Rattle.std.specs.Prelude.{◌≤◌, length};

use super::{Call, calm, ends, words_of};
use p25_io::{MemorySource, SliceSink};
use p25_line::Line;
use p25_tool::{Outcome, run};
use std::alloc::Global;

// Three terminators (TDU), with 16 bits between the first two.
const RECORDING: &[u8; 56] =
    b"\x55\x75\xF5\xFF\x77\xFF\x00\x03\x35\x93\x0B\xDD\x3B\x2B\x00\x00\x00\x01\x00\x00\
    \x55\x75\xF5\xFF\x77\xFF\x00\x03\x35\x93\x0B\xDD\x3B\x2B\x00\x00\x00\x01\
    \x55\x75\xF5\xFF\x77\xFF\x00\x03\x35\x93\x0B\xDD\x3B\x2B\x00\x00\x00\x01";

const TEXT: &[u8; 164] = b"unit at=0 bits=144 fix=0 status=11 tdu nac=000\ngap at=144 bits=16\n\
    unit at=160 bits=144 fix=0 status=11 tdu nac=000\nunit at=304 bits=144 fix=0 status=11 tdu nac=000\n";

// The number of octets of the text that the first octets of the recording determine. The gap is known with the sync
// after it.
fn decided(octets: usize) -> usize {
    match octets {
        0..=17 => 0,
        18..=25 => 47,
        26..=37 => 66,
        38..=55 => 115,
        _ => 164,
    }
}

// Whether a read of the recording that fails ends the call; no read is made after the 57th, which finds the end.
fn read_fails(alloc: Global, read: usize) -> bool {
    let call = Call {
        failing_read: read as u64,
        ..calm(&[b"show"], RECORDING, 1)
    };
    if read > 57 {
        return ends(alloc, &call, Outcome::Done, TEXT);
    }
    let text = &TEXT[..decided(read.saturating_sub(1)).min(164)];
    ends(alloc, &call, Outcome::ReadFault, text)
}

#[test]
fn each_read_fails_in_turn(rt: HostRuntime) {
    for read in 1..59 {
        assert!(rt; read_fails(rt.alloc(), read));
    }
}

// Whether this is the end of the call if a write fails, after this number of octets.
fn write_fails(alloc: Global, write: u64, outcome: Outcome, count: usize) -> bool {
    let call = Call {
        failing_write: write,
        ..calm(&[b"show"], RECORDING, 1)
    };
    ends(alloc, &call, outcome, &TEXT[..count.min(164)])
}

#[test]
fn each_write_fails_in_turn(rt: HostRuntime) {
    for (write, count) in [(1, 0), (2, 47), (3, 66), (4, 115)] {
        assert!(rt; write_fails(rt.alloc(), write, Outcome::WriteFault, count));
    }
    assert!(rt; write_fails(rt.alloc(), 5, Outcome::Done, 164));
}

// The text of the recording cut off after this number of octets.
#[tactic(auto, using(p25_line::proofs::DecimalLaws::decimal_short))]
fn put_cut_text(octets: usize, out: &mut Line) {
    // The number of octets of the text before the items that are cut off, their beginning, and whether a gap comes
    // first.
    let (count, begin, gap) = match octets {
        0..=17 => (0, 0, 0),
        18..=25 => (47, 18, 2),
        26..=37 => (66, 20, 0),
        38..=55 => (115, 38, 0),
        _ => (164, 56, 0),
    };
    out.clear();
    out.put(&TEXT[..count]);
    let left = octets.saturating_sub(begin);
    if left == 0 {
        return;
    }
    if left < gap + 6 {
        put_item(b"gap at=", begin, left.min(100), out);
        return;
    }
    put_item(b"cut at=", begin + gap, (left - gap).min(100), out);
}

// Appends the line of a gap or a cut, by octets.
#[tactic(auto, using(p25_line::proofs::DecimalLaws::decimal_short))]
fn put_item(label: &[u8], begin: usize, count: usize, out: &mut Line)
    requires label { length label.now ≤ 7 }
    requires begin { begin ≤ 100 }
    requires count { count ≤ 100 }
    requires room { length out.old ≤ 200 }
{
    out.put(label);
    out.put_number(8 * begin as u64);
    out.put(b" bits=");
    out.put_number(8 * count as u64);
    out.put(b"\n");
}

fn is_cut_off(alloc: Global, octets: usize) -> bool {
    let call = calm(&[b"show"], &RECORDING[..octets.min(56)], 7);
    let mut text = Line::new();
    put_cut_text(octets, &mut text);
    ends(alloc, &call, Outcome::Done, text.octets())
}

#[test]
fn a_recording_is_cut_off_behind_each_octet(rt: HostRuntime) {
    for octets in 0..57 {
        assert!(rt; is_cut_off(rt.alloc(), octets));
    }
}

// A line that is taken, and one with a value that is refused.
const REFUSED_SECOND_LINE: &[u8] =
    b"tdu nac=000\nhdu nac=000 mi=0 mfid=00 algid=00 kid=0000 tgid=0000\n";

// The output for the lines before a refused one is written first.
#[test]
fn a_write_fault_comes_before_a_refused_line(rt: HostRuntime) {
    let call = Call {
        failing_write: 1,
        ..calm(&[b"build", b"1"], REFUSED_SECOND_LINE, 4_096)
    };
    assert!(rt; ends(rt.alloc(), &call, Outcome::WriteFault, b""));
}

// Words that name no command have no effect.
const NO_COMMANDS: [&[&[u8]]; 19] = [
    &[],
    &[b"show", b"show"],
    &[b"show", b"show", b"show", b"show", b"show"],
    &[b"Show"],
    &[b"?"],
    &[b"show\0\0\0\0\0\0\0\0\0\0\0\0\0"],
    &[b"build"],
    &[b"build", b"4"],
    &[b"build", b"11"],
    &[b"bridge", b"000"],
    &[b"bridge", b"00A", b"0"],
    &[b"bridge", b"0000", b"0"],
    &[b"relay"],
    &[b"relay", b"293"],
    &[b"relay", b"1234", b"0"],
    &[b"relay", b"12G", b"0"],
    &[b"relay", b"293", b"4"],
    &[b"forward", b"293", b"0"],
    &[b"follow", b"1"],
];

// Whether these words are refused, and no octet is read or written.
fn is_usage(alloc: Global, words: &[&[u8]]) -> bool {
    let mut source = MemorySource::new(RECORDING, 7, &[1]);
    let mut sink = SliceSink::new(&mut [], &[1]);
    run(alloc, &words_of(words), &mut source, &mut sink) == Outcome::Usage
        && source.rest().len() == 56
}

#[test]
fn words_without_a_command_touch_nothing(rt: HostRuntime) {
    for words in &NO_COMMANDS {
        assert!(rt; is_usage(rt.alloc(), words));
    }
}
