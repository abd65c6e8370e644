//! Soft symbols as dibits and as octets.

use super::*;

#[test]
fn levels_and_dibits(rt: HostRuntime) {
    // Rows: a level, and the dibit that it is nearest to.
    for (level, dibit) in [
        (127i8, 1u8),
        (64, 1),
        (63, 0),
        (0, 0),
        (-1, 2),
        (-64, 2),
        (-65, 3),
        (-128, 3),
    ] {
        assert_eq!(rt; p25_level_dibit(level), dibit);
    }
    // Rows: an octet, and the soft symbol of the dibit of its two lowest bits.
    for (dibit, level) in [(0u8, 32i8), (1, 96), (2, -32), (3, -96), (255, -96)] {
        assert_eq!(rt; p25_dibit_level(dibit), level);
    }
}

#[test]
fn octets_of_levels(rt: HostRuntime) {
    let mut octets = [9; 3];
    assert_eq!(rt; p25_soften(&[100, -1, 0, -128, 64], &mut octets), 2);
    assert_eq!(rt; octets, [0x63, 0x40, 9]);
    assert_eq!(rt; p25_soften(&[0; 13], &mut octets), -2);
    assert_eq!(rt; p25_soften(&[0; 12_961], &mut octets), -1);
    assert_eq!(rt; octets, [0x63, 0x40, 9]);
    assert_eq!(rt; p25_soften(&[], &mut octets), 0);
}
