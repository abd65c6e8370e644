//! Check values computed apart from this code.

use super::*;

// Whether octets have these checks, of 16 and of 32 bits.
fn have_checks(octets: &[u8], crc16: u16, crc32: u32) -> bool {
    p25_crc16(octets) == crc16 && p25_crc32(octets) == crc32
}

// Whether sixteen zeros with a serial number have this check, of nine bits.
fn zeros_have_check(serial: u8, crc9: u16) -> bool {
    p25_crc9(serial, &[0; 16]) == crc9
}

#[test]
fn check_values(rt: HostRuntime) {
    assert!(rt; have_checks(b"123456789", 0xCE3C, 0x765E_7680));
    assert!(rt; have_checks(&[], 0xFFFF, 0xFFFF_FFFF));
    for (serial, check) in [(0, 0x1FF), (1, 0x122), (128, 0xFFFF), (255, 0xFFFF)] {
        assert!(rt; zeros_have_check(serial, check));
    }
}
