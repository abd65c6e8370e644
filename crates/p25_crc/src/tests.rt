//! Check values computed apart from this code.

use super::{crc9, crc16, crc32};

#[test]
fn the_example_of_the_head(rt: HostRuntime) {
    let octets = b"123456789";
    let check = crc16(octets);
    assert_eq!(rt; check.to_be_bytes(), [0xCE, 0x3C]);
}

#[test]
fn check_values(rt: HostRuntime) {
    let rows: [(&[u8], u16, u32); 4] = [
        (b"123456789", 0xCE3C, 0x765E_7680),
        (&[], 0xFFFF, 0xFFFF_FFFF),
        (&[0xA5], 0x1AB0, 0x1915_C29A),
        (&[0x12, 0x34], 0xEC39, 0x886A_E1AF),
    ];
    for (octets, header, packet) in rows {
        assert_eq!(rt; crc16(octets), header);
        assert_eq!(rt; crc32(octets), packet);
    }
}

// The octets are 3, 10, 17 and so on, modulo 256.
#[test]
fn long_check_values(rt: HostRuntime) {
    let mut octets = [0; 1524];
    for i in 0..1524 {
        octets[i] = ((7 * i + 3) % 256) as u8;
    }
    assert_eq!(rt; crc16(&octets), 0xC433);
    assert_eq!(rt; crc32(&octets), 0xCF03_4F21);
}

#[test]
fn block_check_values(rt: HostRuntime) {
    assert_eq!(rt; crc9(0, &[0; 16]), 0x1FF);
    assert_eq!(rt;
        crc9(0, &[0, 0, 0, 0, 0, 0, 0, 0, 0, 0, 0, 0, 0, 0, 0, 1]),
        0x1A6
    );
    assert_eq!(rt; crc9(1, &[0; 16]), 0x122);
    assert_eq!(rt;
        crc9(127, &[0, 1, 2, 3, 4, 5, 6, 7, 8, 9, 10, 11, 12, 13, 14, 15]),
        0x0B7
    );
}
