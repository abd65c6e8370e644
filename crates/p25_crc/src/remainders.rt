//! The remainders from which the checks are computed. All three divisors are used with degree 32: each is multiplied by
//! the power of x that it lacks, and so are its remainders.

use p25_bits::sums;

// The remainders by a divisor of v · x^(32 + 8 · position), by the position, below 4, and the octet v.
pub(crate) type Remainders = [[u32; 256]; 4];

// The remainders of x^39 to x^32, of x^47 to x^40, of x^55 to x^48 and of x^63 to x^56 are enough to make all.
macro_rules! remainders {
    ($([$($power:expr),*]),*) => { [$(sums! { $($power),* }),*] };
}

/// By x^23 times the divisor of a confirmed block, x^9 + x^6 + x^4 + x^3 + 1.
pub(crate) static BLOCK: Remainders = remainders! {
    [0x3A00_0000, 0x1D00_0000, 0x0E80_0000, 0x9100_0000, 0x4880_0000, 0xB200_0000, 0x5900_0000, 0x2C80_0000],
    [0x8E00_0000, 0x4700_0000, 0x2380_0000, 0x8780_0000, 0xD580_0000, 0xFC80_0000, 0xE800_0000, 0x7400_0000],
    [0x9980_0000, 0xDA80_0000, 0xFB00_0000, 0x7D80_0000, 0xA880_0000, 0xC200_0000, 0x6100_0000, 0x3080_0000],
    [0x4F00_0000, 0x2780_0000, 0x8580_0000, 0xD480_0000, 0xFC00_0000, 0x7E00_0000, 0x3F00_0000, 0x1F80_0000]
};

/// By x^16 times the divisor of a packet header, x^16 + x^12 + x^5 + 1.
pub(crate) static HEADER: Remainders = remainders! {
    [0x9188_0000, 0x48C4_0000, 0x2462_0000, 0x1231_0000, 0x8108_0000, 0x4084_0000, 0x2042_0000, 0x1021_0000],
    [0x1B98_0000, 0x0DCC_0000, 0x06E6_0000, 0x0373_0000, 0x89A9_0000, 0xCCC4_0000, 0x6662_0000, 0x3331_0000],
    [0x3B5A_0000, 0x1DAD_0000, 0x86C6_0000, 0x4363_0000, 0xA9A1_0000, 0xDCC0_0000, 0x6E60_0000, 0x3730_0000],
    [0xDD38_0000, 0x6E9C_0000, 0x374E_0000, 0x1BA7_0000, 0x85C3_0000, 0xCAF1_0000, 0xED68_0000, 0x76B4_0000]
};

/// By the divisor of a whole packet, x^32 + x^26 + x^23 + x^22 + x^16 + x^12 + x^11 + x^10 + x^8 + x^7 + x^5 + x^4 + x^2 +
/// x + 1.
pub(crate) static PACKET: Remainders = remainders! {
    [0x690C_E0EE, 0x3486_7077, 0x9823_B6E0, 0x4C11_DB70, 0x2608_EDB8, 0x1304_76DC, 0x0982_3B6E, 0x04C1_1DB7],
    [0x828C_D898, 0x4146_6C4C, 0x20A3_3626, 0x1051_9B13, 0x8A48_4352, 0x4524_21A9, 0xA0F2_9E0F, 0xD219_C1DC],
    [0xEC56_4380, 0x762B_21C0, 0x3B15_90E0, 0x1D8A_C870, 0x0EC5_6438, 0x0762_B21C, 0x03B1_590E, 0x01D8_AC87],
    [0xA6E6_3D1D, 0xD113_9055, 0xEAE9_46F1, 0xF714_2DA3, 0xF9EA_980A, 0x7CF5_4C05, 0xBC1A_28D9, 0xDC6D_9AB7]
};
