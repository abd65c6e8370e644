//! A call of four voice data units (HDU, LDU1, LDU2 and TDULC): built, shown, counted, repaired, bridged and grouped.
//! Each read and each write fails in turn, and it is cut off after each of its octets.

use super::{Call, build, calm, ends, lines_of, put_named, writes};
use p25_line::Line;
use p25_tool::Outcome;
use std::alloc::Global;

// The numbers of octets of the first data units of the call, of none and of all.
const ENDS: [u16; 5] = [0, 99, 315, 531, 585];

// The number of data units of the call that are whole in its first octets.
fn whole_in(octets: usize) -> usize {
    match octets {
        0..=98 => 0,
        99..=314 => 1,
        315..=530 => 2,
        531..=584 => 3,
        _ => 4,
    }
}

// Whether the call is shown, found without a fault and repaired unchanged.
fn is_reported(alloc: Global, call: &[u8]) -> bool {
    writes(alloc, &[b"show"], call, lines_of(4, true).octets())
        && writes(alloc, &[b"check"], call, b"check units=4 faults=0\n")
        && writes(alloc, &[b"repair"], call, call)
}

#[test]
fn a_call_is_built_and_reported(rt: HostRuntime) {
    let mut room = [0; 585];
    assert!(rt; build(rt.alloc(), b"1", lines_of(4, false).octets(), &mut room) == 585);
    assert!(rt; is_reported(rt.alloc(), &room));
    let mut other = [0; 585];
    assert!(rt; build(rt.alloc(), b"2", lines_of(4, false).octets(), &mut other) == 585);
    assert!(rt; writes(rt.alloc(), &[b"bridge", b"293", b"2"], &room, &other));
}

// The text of the call with its header and without it, and the last line.
const WITH_HEADER: &[u8] =
    b"call at=0 bits=4680 nac=293 entry=header end=tdulc links=2 broken=0 lc=000000000001000001 alg=80\n";

const LATE_ENTRY: &[u8] =
    b"call at=0 bits=3888 nac=293 entry=late end=tdulc links=2 broken=0 lc=000000000001000001 alg=80\n";

const ONE_CALL: &[u8] = b"calls=1\n";

// Two texts, one after the other.
fn both(first: &[u8], second: &[u8]) -> Line {
    let mut text = Line::new();
    if first.len() <= 200 && second.len() <= 200 {
        text.put(first);
        text.put(second);
    }
    text
}

fn is_one_call(alloc: Global, units: &[u8], text: &[u8]) -> bool {
    writes(alloc, &[b"calls"], units, both(text, ONE_CALL).octets())
}

#[test]
fn units_are_grouped_into_calls(rt: HostRuntime) {
    let mut room = [0; 585];
    build(rt.alloc(), b"1", lines_of(4, false).octets(), &mut room);
    assert!(rt; is_one_call(rt.alloc(), &room, WITH_HEADER));
    assert!(rt; is_one_call(rt.alloc(), room.get(99..).unwrap_or(&[]), LATE_ENTRY));
    assert!(rt; writes(rt.alloc(), &[b"calls"], b"", b"calls=0\n"));
}

// Whether a read that fails ends `calls`, after this text.
fn calls_end_so(alloc: Global, input: &[u8], failing_read: u64, text: &[u8]) -> bool {
    let call = Call {
        failing_read,
        ..calm(&[b"calls"], input, 1)
    };
    ends(alloc, &call, Outcome::ReadFault, text)
}

// A call is written once its terminator is there, and after a read fault neither a call that is open nor the last line.
#[test]
fn calls_stand_after_a_read_fault(rt: HostRuntime) {
    let mut room = [0; 585];
    build(rt.alloc(), b"1", lines_of(4, false).octets(), &mut room);
    let rows: [(u64, &[u8]); 3] = [(532, b""), (585, b""), (586, WITH_HEADER)];
    for (failing_read, text) in rows {
        assert!(rt; calls_end_so(rt.alloc(), &room, failing_read, text));
    }
}

// Whether a read of the call that fails ends it; no read is made after the 586th, which finds the end.
fn read_fails(alloc: Global, input: &[u8], read: usize) -> bool {
    let call = Call {
        failing_read: read as u64,
        ..calm(&[b"show"], input, 1)
    };
    if read > 586 {
        return ends(alloc, &call, Outcome::Done, lines_of(4, true).octets());
    }
    let text = lines_of(whole_in(read.saturating_sub(1)), true);
    ends(alloc, &call, Outcome::ReadFault, text.octets())
}

#[test]
fn each_read_fails_in_turn(rt: HostRuntime) {
    let mut room = [0; 585];
    build(rt.alloc(), b"1", lines_of(4, false).octets(), &mut room);
    for read in 1..588 {
        assert!(rt; read_fails(rt.alloc(), &room, read));
    }
}

// Whether a write for the call that fails ends it; there are four.
fn write_fails(alloc: Global, input: &[u8], write: usize) -> bool {
    let call = Call {
        failing_write: write as u64,
        ..calm(&[b"show"], input, 1)
    };
    if write > 4 {
        return ends(alloc, &call, Outcome::Done, lines_of(4, true).octets());
    }
    let text = lines_of(write.saturating_sub(1), true);
    ends(alloc, &call, Outcome::WriteFault, text.octets())
}

#[test]
fn each_write_fails_in_turn(rt: HostRuntime) {
    let mut room = [0; 585];
    build(rt.alloc(), b"1", lines_of(4, false).octets(), &mut room);
    for write in 1..6 {
        assert!(rt; write_fails(rt.alloc(), &room, write));
    }
}

// The text of `show` for the first octets of the call: the data units that are whole, and then the rest of the next.
fn cut_off(octets: u16) -> Line {
    let whole = whole_in(usize::from(octets));
    let mut text = lines_of(whole, true);
    let end = ENDS.get(whole).copied().unwrap_or(0);
    let left = 8 * u64::from(octets.saturating_sub(end));
    if left > 0 {
        let name: &[u8] = if left < 48 { b"gap at=" } else { b"cut at=" };
        put_named(&mut text, name, 8 * u64::from(end));
        put_named(&mut text, b" bits=", left);
        if text.len() <= 4_000 {
            text.put(b"\n");
        }
    }
    text
}

// Whether the call cut off after this number of octets is shown so.
fn is_cut_off(alloc: Global, octets: &[u8], size: u16) -> bool {
    let front = octets.get(..usize::from(size)).unwrap_or(&[]);
    let call = calm(&[b"show"], front, 64);
    ends(alloc, &call, Outcome::Done, cut_off(size).octets())
}

#[test]
fn the_call_is_cut_off_behind_each_octet(rt: HostRuntime) {
    let mut room = [0; 585];
    build(rt.alloc(), b"1", lines_of(4, false).octets(), &mut room);
    for size in 0..586 {
        assert!(rt; is_cut_off(rt.alloc(), &room, size));
    }
}
