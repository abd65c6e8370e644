//! The positions of the decoded parts of voice data units, by the layouts. TIA-102.BAAA, Voice Data Units.

/// The positions of the Golay (18,6) codewords of an HDU, a header.
pub const HDU_WORDS: [usize; 36] = [
    112, 130, 148, 166, 184, 202, 220, 238, 256, 274, 292, 310, 328, 346, 364, 382, 400, 418, 436,
    454, 472, 490, 508, 526, 544, 562, 580, 598, 616, 634, 652, 670, 688, 706, 724, 742,
];

/// The positions of the Hamming (10,6) codewords of an LDU1 or an LDU2, a data unit with voice.
pub const LDU_WORDS: [usize; 24] = [
    400, 410, 420, 430, 584, 594, 604, 614, 768, 778, 788, 798, 952, 962, 972, 982, 1136, 1146,
    1156, 1166, 1320, 1330, 1340, 1350,
];

/// The positions of the Golay (24,12) codewords of a TDULC, a terminator with link control.
pub const TDULC_WORDS: [usize; 12] = [112, 136, 160, 184, 208, 232, 256, 280, 304, 328, 352, 376];

/// The positions of the low speed data (LSD) words of an LDU1 or an LDU2, a data unit with voice.
pub const LOW_WORDS: [usize; 2] = [1504, 1520];

/// The positions of the voice frames of an LDU1 or an LDU2, a data unit with voice.
pub(crate) const FRAMES: [usize; 9] = [112, 256, 440, 624, 808, 992, 1176, 1360, 1536];
