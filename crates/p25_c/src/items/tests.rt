//! The items of a short recording: the numbers and the text of each, and when there is no item.

use super::*;

// A gap of 24 bits, a TDU with one bit error, a TDULC whose link control (LC) fails, and the first ten octets of another TDU.
const RECORDING: [u8; 85] = [
    0x00, 0x00, 0x00, 0xD5, 0x75, 0xF5, 0xFF, 0x77, 0xFF, 0x29, 0x33, 0x38, 0x5D, 0xDC, 0xA3, 0x3B,
    0x5B, 0x80, 0x00, 0x00, 0x01, 0x55, 0x75, 0xF5, 0xFF, 0x77, 0xFF, 0x29, 0x3F, 0xE2, 0x11, 0xF3,
    0xD7, 0xD7, 0xF7, 0x80, 0x00, 0x00, 0x02, 0x00, 0x00, 0xA5, 0x5A, 0xA5, 0xA5, 0x3E, 0xB9, 0x97,
    0x5A, 0xC6, 0x09, 0x5A, 0xC6, 0x0A, 0xA3, 0x60, 0xDF, 0xEA, 0xF3, 0x70, 0xCE, 0x7C, 0x47, 0x68,
    0xD0, 0xF7, 0x90, 0x5C, 0x78, 0xAF, 0xCC, 0xFF, 0x00, 0x00, 0x02, 0xD5, 0x75, 0xF5, 0xFF, 0x77,
    0xFF, 0x29, 0x33, 0x38, 0x5D,
];

// The numbers and the text of an item: position, bits, fixes, network access code (NAC), data unit identifier (DUID), kind and text.
type Told = (u64, u32, u32, u16, u8, u8, &'static [u8]);

// The items of the recording.
const ITEMS: [Told; 4] = [
    (0, 24, 0, 0, 0, 4, b"gap at=0 bits=24"),
    (
        24,
        144,
        1,
        0x293,
        3,
        1,
        b"unit at=24 bits=144 fix=1 status=01 tdu nac=293",
    ),
    (
        168,
        432,
        0,
        0x293,
        15,
        2,
        b"broken at=168 bits=432 nac=293 duid=f fields=link_control",
    ),
    (600, 80, 0, 0, 0, 5, b"cut at=600 bits=80"),
];

// The numbers of an item before a call.
const BEFORE: ItemParts = ItemParts {
    place: 7,
    bits: 7,
    fixes: 7,
    text_length: 7,
    nac: 7,
    duid: 7,
    kind: 7,
};

// Whether an item has these parts.
fn is_item(
    item: &ItemParts,
    place: u64,
    counts: (u32, u32, usize),
    nac: u16,
    duid: u8,
    kind: u8,
) -> bool {
    item.place == place
        && item.bits == counts.0
        && item.fixes == counts.1
        && item.text_length as usize == counts.2
        && item.nac == nac
        && item.duid == duid
        && item.kind == kind
}

// Whether an item is as it was.
fn is_left(item: &ItemParts) -> bool {
    is_item(item, 7, (7, 7, 7), 7, 7, 7)
}

// Whether a buffer begins with a text and a zero.
fn has_text(room: &[u8], text: &[u8]) -> bool {
    text.len() < room.len() && &room[..text.len()] == text && room[text.len()] == 0
}

// Whether a call returns an item of the recording at a position.
fn is_told(told: &Told, from: u64) -> bool {
    let (place, bits, fixes, nac, duid, kind, text) = *told;
    let mut item = BEFORE;
    let mut room = [9; 64];
    p25_next_item(&RECORDING, 0, from, true, &mut item, &mut room) == 1
        && is_item(&item, place, (bits, fixes, text.len()), nac, duid, kind)
        && has_text(&room, text)
}

// Whether a call returns a number and no item at a position of the octets from bit `begin` on, and all stays as it is.
fn is_none(begin: u64, from: u64, answer: i32) -> bool {
    let mut item = BEFORE;
    let mut room = [9; 64];
    p25_next_item(&RECORDING, begin, from, true, &mut item, &mut room) == answer
        && is_left(&item)
        && room[0] == 9
}

#[test]
fn each_item_in_turn(rt: HostRuntime) {
    let mut from = 0;
    for told in &ITEMS {
        assert!(rt; is_told(told, from));
        from = told.0 + u64::from(told.1);
    }
    assert!(rt; is_none(0, from, 0));
}

// The octets that are left out before and after, the position, whether the recording ends, the returned number, and the kind.
type Piece = (usize, usize, u64, bool, i32, u8);

// Whether a call returns such an item of a chunk of the recording.
fn piece_tells(piece: &Piece) -> bool {
    let (before, after, from, ended, answer, kind) = *piece;
    if before > 80 || after > 85 - before {
        return false;
    }
    let mut item = BEFORE;
    let octets = &RECORDING[before..85 - after];
    let place = if answer == 1 { from } else { 7 };
    p25_next_item(octets, 8 * before as u64, from, ended, &mut item, &mut []) == answer
        && item.kind == kind
        && item.place == place
}

#[test]
fn pieces_that_begin_later(rt: HostRuntime) {
    let pieces: [Piece; 7] = [
        (3, 0, 24, true, 1, 1),
        (3, 64, 24, false, 1, 1),
        (3, 65, 24, false, 0, 7),
        (3, 65, 24, true, 1, 5),
        (21, 10, 168, false, 1, 2),
        (75, 0, 600, false, 0, 7),
        (75, 0, 600, true, 1, 5),
    ];
    for piece in &pieces {
        assert!(rt; piece_tells(piece));
    }
}

// Whether the text of the gap, of 16 octets, is written into a buffer of so many octets, or is not.
fn gap_is_written(count: usize, written: bool) -> bool {
    let mut item = BEFORE;
    let mut room = [9; 64];
    if count > 64 {
        return false;
    }
    let first = if written { b'g' } else { 9 };
    p25_next_item(&RECORDING, 0, 0, true, &mut item, &mut room[..count]) == 1
        && item.text_length == 16
        && has_text(&room, b"gap at=0 bits=24") == written
        && room[0] == first
        && room[17] == 9
}

#[test]
fn room_for_a_text(rt: HostRuntime) {
    // It needs 17 octets, one for the zero after it.
    for (count, written) in [(0usize, false), (16, false), (17, true), (64, true)] {
        assert!(rt; gap_is_written(count, written));
    }
}

#[test]
fn places_outside(rt: HostRuntime) {
    // Rows: the bit at which the octets begin, and the position at which the call looks for an item.
    for (begin, from) in [
        (4, 24),
        (32, 24),
        (0, 681),
        (8, 689),
        (1 << 59, (1 << 59) + 1),
    ] {
        assert!(rt; is_none(begin, from, -1));
    }
    assert!(rt; is_none(0, 680, 0));
    let mut item = BEFORE;
    assert!(rt; p25_next_item(&RECORDING, 1 << 59, 1 << 59, true, &mut item, &mut []) == 1);
}
