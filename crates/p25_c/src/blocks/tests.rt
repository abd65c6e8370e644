//! Blocks decoded from soft symbols.

use super::*;

// The soft symbols of the block of zeros, 49 times 00 and 10, with two that may be others.
fn levels_with(seventh: i8, eighth: i8) -> [i8; 98] {
    let mut levels = [32; 98];
    for i in 0..49 {
        levels[2 * i + 1] = -32;
    }
    levels[6] = seventh;
    levels[7] = eighth;
    levels
}

// Whether soft symbols decode to zeros at half rate, with a sum of squares.
fn half_rate_zeros(levels: &[i8; 98], sum: u32) -> bool {
    let mut octets = [9; 12];
    p25_half_rate_read_levels(levels, &mut octets) == sum && octets == [0; 12]
}

// Whether soft symbols decode to zeros at three-quarter rate, with a sum of squares.
fn three_quarter_rate_zeros(levels: &[i8; 98], sum: u32) -> bool {
    let mut octets = [9; 18];
    p25_three_quarter_rate_read_levels(levels, &mut octets) == sum && octets == [0; 18]
}

#[test]
fn levels_of_zeros(rt: HostRuntime) {
    assert!(rt; half_rate_zeros(&levels_with(32, -32), 0));
    assert!(rt; three_quarter_rate_zeros(&levels_with(-1, 0), 2_113));
}
