//! A terminator (TDU) and a gap, forwarded in place.

use super::*;

// A terminator (TDU) of the network 000 with the status symbol 1, and an octet after it.
const RECORDING: [u8; 19] = [
    0x55, 0x75, 0xF5, 0xFF, 0x77, 0xFF, 0x00, 0x03, 0x35, 0x93, 0x0B, 0xDD, 0x3B, 0x2B, 0x00, 0x00,
    0x00, 0x01, 0x5A,
];

// Whether the first octets of two lists are the same.
fn are_alike(one: &[u8], other: &[u8], count: usize) -> bool {
    count <= one.len() && count <= other.len() && one[..count] == other[..count]
}

#[test]
fn items_forwarded(rt: HostRuntime) {
    let mut room = [9; 20];
    assert_eq!(rt; p25_relay_at(&RECORDING, 0, 0, 0, 1, &mut room), 18);
    assert!(rt; are_alike(&room, &RECORDING, 18));
    assert_eq!(rt; p25_relay_at(&RECORDING, 0, 144, 0x293, 3, &mut room), 1);
    assert!(rt; are_alike(&room, &[0x5A, 0x75], 2));
}

#[test]
fn refusals(rt: HostRuntime) {
    // Rows: the position, the network access code (NAC), the status symbol, the size of the buffer, and the returned number.
    for (from, nac, status, count, answer) in [
        (0u64, 4_096u16, 4u8, 0usize, -4),
        (0, 4_095, 4, 0, -5),
        (153, 0, 0, 0, -1),
        (152, 0, 0, 0, 0),
        (0, 0, 0, 17, -2),
    ] {
        let mut room = [9; 20];
        assert_eq!(rt;
            p25_relay_at(&RECORDING, 0, from, nac, status, &mut room[..count.min(20)]),
            answer
        );
        assert!(rt; room == [9; 20]);
    }
}
