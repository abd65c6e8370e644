//! A terminator (TDU) whose sync is lost, after one with link control (TDULC).

use super::*;

// A terminator with link control (TDULC), and a terminator (TDU) of the same network with five bit errors in its sync.
const RECORDING: [u8; 72] = [
    0x55, 0x75, 0xF5, 0xFF, 0x77, 0xFF, 0x00, 0x0F, 0xED, 0xDF, 0x24, 0xA9, 0xD7, 0x87, 0x00, 0x00,
    0x00, 0x01, 0x00, 0x00, 0x00, 0x00, 0x00, 0x00, 0x00, 0x00, 0x01, 0x00, 0x00, 0x00, 0x00, 0x00,
    0x00, 0x00, 0x00, 0x01, 0x00, 0x00, 0x00, 0x00, 0x00, 0x00, 0x00, 0x00, 0x01, 0x00, 0x00, 0x00,
    0x00, 0x00, 0x00, 0x00, 0x00, 0x01, 0xAD, 0x75, 0xF5, 0xFF, 0x77, 0xFF, 0x00, 0x03, 0x35, 0x93,
    0x0B, 0xDD, 0x3B, 0x2B, 0x00, 0x00, 0x00, 0x01,
];

// The terminator (TDU) as transmitted.
const TERMINATOR: [u8; 18] = [
    0x55, 0x75, 0xF5, 0xFF, 0x77, 0xFF, 0x00, 0x03, 0x35, 0x93, 0x0B, 0xDD, 0x3B, 0x2B, 0x00, 0x00,
    0x00, 0x01,
];

// The two items.
const UNIT: ItemParts = ItemParts {
    place: 0,
    bits: 432,
    fixes: 0,
    text_length: 0,
    nac: 0,
    duid: 15,
    kind: 1,
};

const GAP: ItemParts = ItemParts {
    place: 432,
    bits: 144,
    fixes: 0,
    text_length: 0,
    nac: 0,
    duid: 0,
    kind: 4,
};

// Whether the first octets of two lists are the same.
fn are_alike(one: &[u8], other: &[u8], count: usize) -> bool {
    count <= one.len() && count <= other.len() && one[..count] == other[..count]
}

#[test]
fn lost_terminator(rt: HostRuntime) {
    let mut follower = fresh();
    let mut room = [9; 60];
    let mut last = [9; 18];
    assert_eq!(rt;
        p25_follower_take(&mut follower, &RECORDING, 0, &GAP, &mut room),
        -1
    );
    assert_eq!(rt;
        p25_follower_take(&mut follower, &RECORDING, 0, &UNIT, &mut [9; 53]),
        -2
    );
    assert_eq!(rt;
        p25_follower_take(&mut follower, &RECORDING, 0, &UNIT, &mut room),
        54
    );
    assert!(rt; are_alike(&room, &RECORDING, 54));
    assert_eq!(rt;
        p25_follower_take(&mut follower, &TERMINATOR, 0, &GAP, &mut room),
        -1
    );
    assert_eq!(rt;
        p25_follower_take(&mut follower, &RECORDING, 0, &GAP, &mut []),
        0
    );
    assert_eq!(rt; p25_follower_finish(&mut follower, &mut [9; 17]), -2);
    assert_eq!(rt; p25_follower_finish(&mut follower, &mut last), 18);
    assert!(rt; are_alike(&last, &TERMINATOR, 18));
    assert_eq!(rt; p25_follower_finish(&mut follower, &mut []), 0);
}

#[test]
fn numbers_of_no_follower(rt: HostRuntime) {
    // Rows: how many bits are kept, whether a unit is before them, and how many wait for their octet, as a number.
    for (stretch, has_unit, waits, waiting, answer) in [
        (0u16, 0u8, 0u8, 0u8, 0),
        (8, 1, 0, 0, 1),
        (8, 0, 0, 0, -1),
        (6_912, 1, 0, 0, -1),
        (1, 1, 7, 1, 1),
        (1, 1, 8, 0, -1),
        (1, 1, 0, 1, -1),
    ] {
        let mut follower = fresh();
        follower.stretch = stretch;
        follower.has_unit = has_unit;
        follower.waits = waits;
        follower.waiting = waiting;
        assert_eq!(rt; p25_follower_finish(&mut follower, &mut [9; 900]), answer);
    }
}
