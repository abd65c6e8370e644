//! Data units of packets (PDU) before their status symbols are inserted, by their words of 64 bits, the most
//! significant bit first; bits 0 follow.

use p25_status::Field;

// Data units of packets (PDU) that are decoded and encoded: the network access code, the length in bits, the words.
pub(super) const UNITS: [(u16, usize, &[u64]); 4] = [
    (
        0x293,
        560,
        &[
            0x5575_F5FF_77FF_293C,
            0xD60B_E02B_B372_2322,
            0x22DE_22CD_9F52_2229,
            0x2223_AB22_2222_2225,
            0x9022_22CC_222C_1222,
            0x2222_2F88_8522_2222,
            0x2288_8822_2222_2288,
            0x8822_2222_2288_8800,
        ],
    ),
    (
        0x293,
        350,
        &[
            0x5575_F5FF_77FF_293C,
            0xD60B_E02B_B372_2522,
            0x22D2_222D_5122_2229,
            0x2221_A912_2222_222A,
            0xAF92_22C2_2227_4000,
        ],
    ),
    (
        0x123,
        700,
        &[
            0x5575_F5FF_77FF_123C,
            0x9B8F_E05E_7D3E_2322,
            0x9CA9_22F5_2C52_CF09,
            0x222B_1022_EB02_2223,
            0x9022_1ED1_2228_2259,
            0xE259_E2B7_0222_CCC1,
            0x1FFE_E021_ED37_4B62,
            0x1EFA_C98D_BE41_72CB,
            0x70CB_ADFD_7320_0DD3,
            0x3998_9D50_3745_6215,
            0xFA13_605F_AC9C_6790,
        ],
    ),
    (
        0xABC,
        700,
        &[
            0x5575_F5FF_77FF_ABCC,
            0xC425_E74B_DC0A_C42F,
            0x4199_52CC_2052_8B42,
            0x2F2D_3022_8362_262A,
            0xBD22_65A1_F929_E222,
            0xD6E7_7E8F_4BE7_2EDF,
            0xDFE6_1B32_E2EF_2DF0,
            0xFD82_A12B_71FB_AD4C,
            0x4452_1ED1_98B8_DE81,
            0xC1C7_08DE_7CAC_705D,
            0x8D55_754D_E840_E580,
        ],
    ),
];

// Damaged data units of packets (PDU): the field that fails; the index of the data unit, and the words that replace its
// own from a position on.
pub(super) const DAMAGED: [(Option<Field>, usize, usize, &[u64]); 8] = [
    // confirmed blocks zeroed
    (
        None,
        3,
        5,
        &[
            0x2222_2222_2222_2222,
            0x2222_2222_2222_2222,
            0x2222_2222_2222_2222,
            0x2222_2222_2222_2222,
            0x2222_2222_2222_2222,
            0x2222_2222_2222_2220,
        ],
    ),
    // an unconfirmed block zeroed
    (
        Some(Field::PacketCrc),
        0,
        5,
        &[
            0x2222_2222_2222_2222,
            0x2222_2222_2222_2222,
            0x2222_2222_2222_2200,
        ],
    ),
    // the header block zeroed
    (
        Some(Field::PacketHeader),
        1,
        1,
        &[
            0xD60B_E02B_B372_2222,
            0x2222_2222_2222_2222,
            0x2222_2222_2222_2222,
            0x2222_2222_2222_2000,
        ],
    ),
    // format 17 hex
    (
        Some(Field::Format),
        1,
        1,
        &[
            0xD60B_E02B_B372_2822,
            0x22D2_22F1_EC52_2229,
            0x2226_7022_2222_2229,
            0xE322_22C2_2222_C000,
        ],
    ),
    // the beginning of a packet of 127 blocks
    (
        Some(Field::Length),
        1,
        1,
        &[
            0xD60B_E02B_B372_C422,
            0x2235_22F4_2052_2228,
            0x2226_8022_2228_2129,
            0x8D22_22C8_2921_5282,
            0x2222_2220_0000_0000,
        ],
    ),
    // five bit errors of the sync
    (Some(Field::Sync), 1, 0, &[0xAD75_F5FF_77FF_293C]),
    // twelve bit errors of the NID
    (Some(Field::Nid), 1, 0, &[0x5575_F5FF_77FF_D6CC]),
    // DUID 3, that of a TDU
    (
        Some(Field::Duid),
        1,
        0,
        &[0x5575_F5FF_77FF_2933, 0x3977_728C_ED6E_2522],
    ),
];
