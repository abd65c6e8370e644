//! Blocks that another program made from the standard's tables.

use super::*;
use p25_trellis::{Half, ThreeQuarter};

#[test]
fn blocks_of_half_rate(rt: HostRuntime) {
    let rows: [([u8; 12], [u8; 25]); 2] = [
        (
            [0; 12],
            [
                0x22, 0x22, 0x22, 0x22, 0x22, 0x22, 0x22, 0x22, 0x22, 0x22, 0x22, 0x22, 0x22, 0x22,
                0x22, 0x22, 0x22, 0x22, 0x22, 0x22, 0x22, 0x22, 0x22, 0x22, 0x20,
            ],
        ),
        (
            [
                0x56, 0xC0, 0x00, 0x12, 0x34, 0x56, 0x81, 0x00, 0x08, 0x9A, 0xBC, 0xDE,
            ],
            [
                0xC4, 0x22, 0x9C, 0xAE, 0x21, 0xAF, 0x90, 0x52, 0xCF, 0x09, 0x22, 0x74, 0xB0, 0x22,
                0xEB, 0x02, 0x21, 0xD8, 0x3D, 0x22, 0x1E, 0xDC, 0x29, 0xA5, 0x60,
            ],
        ),
    ];
    for (octets, sent) in &rows {
        assert!(rt; half_rate_goes_both_ways(octets, sent));
    }
}

// Whether octets are encoded as a block, and decoded from it with two bit errors, and with other values of the last
// four bits.
fn half_rate_goes_both_ways(octets: &[u8; 12], sent: &[u8; 25]) -> bool {
    let mut bits = [255; 25];
    write_octet_block::<Half>(octets, &mut bits);
    if bits != *sent {
        return false;
    }
    bits[0] ^= 0x80;
    bits[24] ^= 0x1F;
    let mut read = [9; 12];
    read_octet_block::<Half>(&bits, &mut read) == 2 && read == *octets
}

#[test]
fn blocks_of_three_quarter_rate(rt: HostRuntime) {
    let rows: [([u8; 18], [u8; 25]); 2] = [
        (
            [0; 18],
            [
                0x22, 0x22, 0x22, 0x22, 0x22, 0x22, 0x22, 0x22, 0x22, 0x22, 0x22, 0x22, 0x22, 0x22,
                0x22, 0x22, 0x22, 0x22, 0x22, 0x22, 0x22, 0x22, 0x22, 0x22, 0x20,
            ],
        ),
        (
            [
                0x56, 0xC0, 0x00, 0x12, 0x34, 0x56, 0x81, 0x00, 0x08, 0x9A, 0xBC, 0xDE, 0xF0, 0x0F,
                0x1E, 0x2D, 0x3C, 0x4B,
            ],
            [
                0xEF, 0x2F, 0x22, 0x7A, 0x14, 0x8A, 0x60, 0x27, 0x5F, 0x26, 0x4E, 0xE8, 0x89, 0x2A,
                0x7E, 0xDD, 0x0F, 0xCF, 0x16, 0x2C, 0x3A, 0xE5, 0xA2, 0xA9, 0x80,
            ],
        ),
    ];
    for (octets, sent) in &rows {
        assert!(rt; three_quarter_rate_goes_both_ways(octets, sent));
    }
}

// Whether octets are encoded as a block, and decoded from it with one bit error, and with other values of the last four
// bits.
fn three_quarter_rate_goes_both_ways(octets: &[u8; 18], sent: &[u8; 25]) -> bool {
    let mut bits = [255; 25];
    write_octet_block::<ThreeQuarter>(octets, &mut bits);
    if bits != *sent {
        return false;
    }
    bits[7] ^= 0x01;
    bits[24] ^= 0x0F;
    let mut read = [9; 18];
    read_octet_block::<ThreeQuarter>(&bits, &mut read) == 1 && read == *octets
}
