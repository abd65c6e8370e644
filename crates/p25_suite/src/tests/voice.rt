//! Voice data units (HDU, LDU1, LDU2 and TDULC): built from a line, damaged, shown in chunks of 1, of 2, of 7 and of
//! all octets, and repaired.

use super::{Inverted, build, invert, reads_as, writes};
use p25_line::Line;
use p25_link::{LinkControl, LinkKind};
use std::alloc::Global;

// A data unit: the purpose of the row, its status symbols, its line, the nine voice frames' digit if it has them, the
// inverted bits, and the output of `show`, which the line follows if the data unit is whole.
type Row = (
    &'static str,
    &'static [u8],
    &'static [u8],
    Option<u8>,
    &'static [Inverted],
    &'static [u8],
);

const ZERO_HEADER: &[u8] = b"hdu nac=000 mi=000000000000000000 mfid=00 algid=00 kid=0000 tgid=0000";

const ZERO_LINK_1: &[u8] = b"ldu1 nac=000 lc=000000000000000000 lsd=0000 voice=";

const ZERO_LINK_2: &[u8] = b"ldu2 nac=000 mi=000000000000000000 algid=00 kid=0000 lsd=0000 voice=";

const ZERO_END_LINK: &[u8] = b"tdulc nac=000 lc=000000000000000000";

// Header data units (HDU).
const HEADERS: [Row; 6] = [
    (
        "a header of zeros",
        b"0",
        ZERO_HEADER,
        None,
        &[],
        b"unit at=0 bits=792 fix=0 status=00000000000 ",
    ),
    (
        "a header with eight words inverted whole, and three wrong bits in each other",
        b"0",
        ZERO_HEADER,
        None,
        &[(112, 18, 8, 18), (256, 18, 28, 3)],
        b"unit at=0 bits=792 fix=228 status=00000000000 ",
    ),
    (
        "a header with sixteen words that are marks",
        b"0",
        ZERO_HEADER,
        None,
        &[(112, 18, 16, 4)],
        b"unit at=0 bits=792 fix=64 status=00000000000 ",
    ),
    (
        "a header with seventeen",
        b"0",
        ZERO_HEADER,
        None,
        &[(112, 18, 17, 4)],
        b"broken at=0 bits=792 nac=000 duid=0 fields=header_word",
    ),
    (
        "a header with fourteen words that are marks, and another word of the Golay code",
        b"0",
        ZERO_HEADER,
        None,
        &[
            (112, 18, 14, 4),
            (369, 0, 1, 2),
            (374, 0, 1, 3),
            (378, 0, 1, 1),
            (380, 0, 1, 2),
        ],
        b"unit at=0 bits=792 fix=64 status=00000000000 ",
    ),
    (
        "a header of ones",
        b"3",
        b"hdu nac=fff mi=ffffffffffffffffff mfid=ff algid=ff kid=ffff tgid=ffff",
        None,
        &[],
        b"unit at=0 bits=792 fix=0 status=33333333333 ",
    ),
];

// Voice with link control (LDU1), and with encryption sync (LDU2).
const LINK_UNITS: [Row; 11] = [
    (
        "a link unit 1 with a wrong bit in each Hamming word",
        b"3",
        ZERO_LINK_1,
        Some(b'f'),
        &[
            (400, 10, 4, 1),
            (584, 10, 4, 1),
            (768, 10, 4, 1),
            (952, 10, 4, 1),
            (1136, 10, 4, 1),
            (1320, 10, 4, 1),
        ],
        b"unit at=0 bits=1728 fix=24 status=333333333333333333333333 ",
    ),
    (
        "a link unit 1 with two wrong bits in each low speed word",
        b"0",
        ZERO_LINK_1,
        Some(b'0'),
        &[(1504, 16, 2, 2)],
        b"unit at=0 bits=1728 fix=4 status=000000000000000000000000 ",
    ),
    (
        "a link unit 1 with twelve Hamming words inverted, which are marks",
        b"0",
        ZERO_LINK_1,
        Some(b'0'),
        &[(400, 10, 4, 10), (584, 10, 4, 10), (768, 10, 4, 10)],
        b"unit at=0 bits=1728 fix=120 status=000000000000000000000000 ",
    ),
    (
        "a link unit 1 with six Hamming words that are others of their code",
        b"0",
        ZERO_LINK_1,
        Some(b'0'),
        &[(405, 10, 4, 3), (589, 10, 2, 3)],
        b"unit at=0 bits=1728 fix=18 status=000000000000000000000000 ",
    ),
    (
        "a link unit 1 with seven",
        b"0",
        ZERO_LINK_1,
        Some(b'0'),
        &[(405, 10, 4, 3), (589, 10, 3, 3)],
        b"broken at=0 bits=1728 nac=000 duid=5 fields=link_control",
    ),
    (
        "a link unit 1 each of whose fields fails",
        b"0",
        ZERO_LINK_1,
        Some(b'0'),
        &[
            (405, 10, 4, 3),
            (589, 10, 3, 3),
            (1516, 16, 2, 1),
            (1518, 16, 2, 2),
        ],
        b"broken at=0 bits=1728 nac=000 duid=5 fields=link_control,low_speed_1,low_speed_2",
    ),
    (
        "a link unit 1 of ones",
        b"1",
        b"ldu1 nac=fff lc=ffffffffffffffffff lsd=ffff voice=",
        Some(b'f'),
        &[],
        b"unit at=0 bits=1728 fix=0 status=111111111111111111111111 ",
    ),
    (
        "a link unit 2 whose first low speed word is far from each word of its code",
        b"0",
        ZERO_LINK_2,
        Some(b'0'),
        &[(1516, 0, 1, 1), (1518, 0, 1, 2)],
        b"broken at=0 bits=1728 nac=000 duid=a fields=low_speed_1",
    ),
    (
        "a link unit 2 whose second is",
        b"0",
        ZERO_LINK_2,
        Some(b'0'),
        &[(1532, 0, 1, 1), (1534, 0, 1, 2)],
        b"broken at=0 bits=1728 nac=000 duid=a fields=low_speed_2",
    ),
    (
        "a link unit 2 with five Hamming words that are others of their code, and the second low speed word beyond",
        b"0",
        ZERO_LINK_2,
        Some(b'0'),
        &[
            (405, 10, 4, 3),
            (589, 0, 1, 3),
            (1532, 0, 1, 1),
            (1534, 0, 1, 2),
        ],
        b"broken at=0 bits=1728 nac=000 duid=a fields=encryption_sync,low_speed_2",
    ),
    (
        "a link unit 2 of ones",
        b"2",
        b"ldu2 nac=fff mi=ffffffffffffffffff algid=ff kid=ffff lsd=ffff voice=",
        Some(b'f'),
        &[],
        b"unit at=0 bits=1728 fix=0 status=222222222222222222222222 ",
    ),
];

// Terminators with link control (TDULC).
const TERMINATORS: [Row; 5] = [
    (
        "a terminator with three Golay words inverted",
        b"0",
        ZERO_END_LINK,
        None,
        &[(112, 24, 3, 24)],
        b"unit at=0 bits=432 fix=72 status=000000 ",
    ),
    (
        "a terminator with six words that are marks",
        b"0",
        ZERO_END_LINK,
        None,
        &[(116, 24, 6, 4)],
        b"unit at=0 bits=432 fix=24 status=000000 ",
    ),
    (
        "a terminator with seven",
        b"0",
        ZERO_END_LINK,
        None,
        &[(116, 24, 7, 4)],
        b"broken at=0 bits=432 nac=000 duid=f fields=link_control",
    ),
    (
        "a terminator of ones with its nulls inverted",
        b"3",
        b"tdulc nac=fff lc=ffffffffffffffffff",
        None,
        &[(400, 0, 1, 20)],
        b"unit at=0 bits=432 fix=0 status=333333 ",
    ),
    (
        "a terminator with 4 wrong sync bits, 11 wrong identifier bits and the bit P inverted",
        b"2",
        ZERO_END_LINK,
        None,
        &[(0, 0, 1, 4), (48, 0, 1, 11), (111, 0, 1, 1)],
        b"unit at=0 bits=432 fix=15 status=222222 ",
    ),
];

// The line of a row, with its voice frames.
fn line_of(row: &Row) -> Line {
    let mut line = Line::new();
    if row.2.len() <= 200 {
        line.put(row.2);
        if let Some(digit) = row.3 {
            line.put(&[digit; 324]);
        }
    }
    line
}

// Whether a row holds: its data unit has this output of `show`, and is repaired if it is whole.
fn holds(alloc: Global, row: &Row) -> bool {
    let line = line_of(row);
    let mut room = [0; 256];
    let size = build(alloc, row.1, line.octets(), &mut room);
    let sent = room;
    for inverted in row.4 {
        invert(&mut room, inverted);
    }
    size > 0 && size <= 256 && reads_as(alloc, line.octets(), row.5, &sent[..size], &room[..size])
}

// The HDU of zeros, except that its 36 symbols are 20 zeros and the coefficients of (x - α)(x - α^2)..(x - α^15): in at
// least 16 symbols it differs from each codeword.
const FAR_HEADER: [u8; 99] = [
    0x55, 0x75, 0xF5, 0xFF, 0x77, 0xFF, 0x00, 0x00, 0x00, 0x00, 0x00, 0x00, 0x00, 0x00, 0x00, 0x00,
    0x00, 0x00, 0x00, 0x00, 0x00, 0x00, 0x00, 0x00, 0x00, 0x00, 0x00, 0x00, 0x00, 0x00, 0x00, 0x00,
    0x00, 0x00, 0x00, 0x00, 0x00, 0x00, 0x00, 0x00, 0x00, 0x00, 0x00, 0x00, 0x00, 0x00, 0x00, 0x00,
    0x00, 0x00, 0x00, 0x00, 0x00, 0x00, 0x00, 0x00, 0x00, 0x00, 0x00, 0x00, 0x00, 0x63, 0xAC, 0x3D,
    0xA1, 0x39, 0x08, 0x72, 0x37, 0x18, 0xDF, 0xB8, 0x93, 0x2B, 0x27, 0xB4, 0x21, 0x96, 0x4A, 0xA8,
    0x8C, 0x5D, 0xFB, 0xA1, 0xF5, 0xE3, 0x77, 0x37, 0x45, 0x24, 0xF3, 0x57, 0xD6, 0xF6, 0x84, 0x3E,
    0xBC, 0x50, 0x00,
];

#[test]
fn a_header_far_from_each_word(rt: HostRuntime) {
    let text = b"broken at=0 bits=792 nac=000 duid=0 fields=header_word\n";
    assert!(rt; writes(rt.alloc(), &[b"show"], &FAR_HEADER, text));
    assert!(rt; writes(rt.alloc(), &[b"repair"], &FAR_HEADER, &FAR_HEADER));
    let mut zeros = [0; 99];
    zeros[..6].copy_from_slice(b"\x55\x75\xF5\xFF\x77\xFF");
    let mut room = [1; 99];
    assert!(rt; build(rt.alloc(), b"0", ZERO_HEADER, &mut room) == 99 && room == zeros);
}

#[test]
fn headers(rt: HostRuntime) {
    for row in &HEADERS {
        assert!(rt; holds(rt.alloc(), row));
    }
}

#[test]
fn link_units(rt: HostRuntime) {
    for row in &LINK_UNITS {
        assert!(rt; holds(rt.alloc(), row));
    }
}

#[test]
fn terminators_with_link_control(rt: HostRuntime) {
    for row in &TERMINATORS {
        assert!(rt; holds(rt.alloc(), row));
    }
}

#[test]
fn link_control_of_another_kind(rt: HostRuntime) {
    let link = LinkControl([0x15, 0, 0, 0, 0, 0, 0, 0, 0]);
    assert!(rt; link.kind() == LinkKind::Other);
}
