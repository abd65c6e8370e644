//! A call (HDU, LDU1, LDU2 and TDULC) whose data units have as many bit errors as their codes correct: it is shown and
//! repaired as transmitted.

use super::{Inverted, PARTS, build, invert, lines_of, put_short, writes};
use p25_line::Line;

// A data unit of the call: its first octet and the one after its last, the inverted bits, and the text of `show` before
// its line. In each, 4 bits of the sync, 11 of the network identifier (NID) and its last one are wrong.
type AtRadius = (usize, usize, &'static [Inverted], &'static [u8]);

const FRONT: [Inverted; 3] = [(0, 0, 1, 4), (48, 0, 1, 11), (111, 0, 1, 1)];

const CALL: [AtRadius; 4] = [
    // In the HDU eight Golay words are inverted, and three bits of each other.
    (
        0,
        99,
        &[(112, 18, 8, 18), (256, 18, 28, 3)],
        b"unit at=0 bits=792 fix=243 status=11111111111 ",
    ),
    // In the LDU1 twelve Hamming words are inverted, so that they are uncorrectable, and a bit of each other; two bits
    // of each word of its low speed data (LSD).
    (
        99,
        315,
        &[
            (400, 10, 4, 10),
            (584, 10, 4, 10),
            (768, 10, 4, 10),
            (952, 10, 4, 1),
            (1136, 10, 4, 1),
            (1320, 10, 4, 1),
            (1504, 16, 2, 2),
        ],
        b"unit at=792 bits=1728 fix=151 status=111111111111111111111111 ",
    ),
    // In the LDU2 four Hamming words are replaced by other codewords; a bit of each other is inverted, and two of each
    // word of its low speed data (LSD).
    (
        315,
        531,
        &[
            (405, 10, 4, 3),
            (584, 10, 4, 1),
            (768, 10, 4, 1),
            (952, 10, 4, 1),
            (1136, 10, 4, 1),
            (1320, 10, 4, 1),
            (1504, 16, 2, 2),
        ],
        b"unit at=2520 bits=1728 fix=51 status=111111111111111111111111 ",
    ),
    // In the TDULC three Golay words are inverted, and three bits of each other.
    (
        531,
        585,
        &[(112, 24, 3, 24), (184, 24, 9, 3)],
        b"unit at=4248 bits=432 fix=114 status=111111 ",
    ),
];

// Inverts the bits of a data unit.
fn damage(call: &mut [u8], unit: &AtRadius) {
    let bits = call.get_mut(unit.0..unit.1).unwrap_or(&mut []);
    for inverted in FRONT.iter().chain(unit.2) {
        invert(bits, inverted);
    }
}

// The output of `show` for the call.
fn shown() -> Line {
    let mut text = Line::new();
    for (unit, part) in CALL.iter().zip(PARTS.iter()) {
        put_short(&mut text, unit.3);
        put_short(&mut text, part.0);
        put_short(&mut text, if part.1 { &[b'0'; 324] } else { b"" });
        put_short(&mut text, b"\n");
    }
    text
}

#[test]
fn a_call_with_each_unit_at_its_radius(rt: HostRuntime) {
    let mut room = [0; 585];
    build(rt.alloc(), b"1", lines_of(4, false).octets(), &mut room);
    let sent = room;
    for unit in &CALL {
        damage(&mut room, unit);
    }
    assert!(rt; writes(rt.alloc(), &[b"show"], &room, shown().octets()));
    assert!(rt; writes(rt.alloc(), &[b"check"], &room, b"check units=4 faults=0\n"));
    assert!(rt; writes(rt.alloc(), &[b"repair"], &room, &sent));
}
