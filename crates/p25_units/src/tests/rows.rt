//! Data units before their status symbols are inserted, by their words of 64 bits, the most significant bit first,
//! which a program apart from this code made; and their needs.

use crate::{Field, Need};

// Sync and NID of the network access code (NAC) 293 hex and of the packets (PDU) below.
const FRONT: u64 = 0x5575_F5FF_77FF_293C;

// A response without blocks (PDU).
const RESPONSE: [u64; 6] = [
    FRONT,
    0xD60B_E02B_B372_2522,
    0x22D2_222D_5122_2229,
    0x2221_A912_2222_222A,
    0xAF92_22C2_2227_4000,
    0,
];

// Its header block zeroed.
const NO_HEADER: [u64; 3] = [FRONT, 0xD60B_E02B_B372_2222, 0x2222_2222_2222_2222];

// A packet (PDU) of format 17 hex without blocks.
const FORMAT_17: [u64; 6] = [
    FRONT,
    0xD60B_E02B_B372_2822,
    0x22D2_22F1_EC52_2229,
    0x2226_7022_2222_2229,
    0xE322_22C2_2222_C000,
    0,
];

// A confirmed packet (PDU) of one block, of 560 bits.
const CONFIRMED: [u64; 9] = [
    FRONT,
    0xD60B_E02B_B372_C422,
    0x22DE_2224_5052_2229,
    0x2222_B022_2222_2122,
    0xED22_22CC_2921_F282,
    0x2222_2222_222E_2222,
    0x2222_221F_2222_2222,
    0x2252_2222_2222_2200,
    0,
];

// An unconfirmed packet (PDU) of one block, of 560 bits, with its block zeroed.
const NO_CHECK: [u64; 6] = [
    FRONT,
    0xD60B_E02B_B372_2322,
    0x22DE_22CD_9F52_2229,
    0x2223_AB22_2222_2225,
    0x9022_22CC_222C_1222,
    0x2222_2222_2222_2222,
];

// A confirmed packet (PDU) of two blocks, both zeroed, of 700 bits.
const NO_BLOCKS: [u64; 6] = [
    0x5575_F5FF_77FF_ABCC,
    0xC425_E74B_DC0A_C42F,
    0x4199_52CC_2052_8B42,
    0x2F2D_3022_8362_262A,
    0xBD22_65A1_F929_E222,
    0x2222_2222_2222_2222,
];

// A confirmed packet (PDU) of 127 blocks, all zeroed.
pub(super) const LARGEST: [u64; 6] = [
    FRONT,
    0xD60B_E02B_B372_C422,
    0x2235_22F4_2052_2228,
    0x2226_8022_2228_2129,
    0x8D22_22C8_2921_5282,
    0x2222_2222_2222_2222,
];

// A terminator (TDU); one whose sync has five bit errors; one whose network identifier (NID) is more than eleven bits
// away from each codeword.
const TERMINATOR: [u64; 3] = [0x5575_F5FF_77FF_0003, 0x364C_2F74_ECAC_0000, 0];

const NO_SYNC: [u64; 3] = [0x5575_F5FF_77E0_0003, 0x364C_2F74_ECAC_0000, 0];

const FAR: [u64; 3] = [0x5575_F5FF_77FF_0003, 0x682D_4527_4B06_0000, 0];

// Voice data units whose fields and frames are zeros: an HDU, an LDU1, an LDU2 and a TDULC.
const HEADER: [u64; 2] = [0x5575_F5FF_77FF_0000, 0];

const LINK_1: [u64; 3] = [0x5575_F5FF_77FF_2935, 0x55EF_2C65_3437_0000, 0];

const LINK_2: [u64; 3] = [0x5575_F5FF_77FF_293A, 0xBA93_BEC2_6A2B_0000, 0];

const END_LINK: [u64; 3] = [0x5575_F5FF_77FF_FFFF, 0xFFFF_FFFF_FFFE_0000, 0];

// The need at each number of transmitted bits of a response without blocks.
const RESPONSE_NEEDS: [(usize, Need); 5] = [
    (113, Need::More(114)),
    (114, Need::More(316)),
    (315, Need::More(316)),
    (316, Need::More(360)),
    (360, Need::Length(360)),
];

// The needs of the first bits of the confirmed packet of one block.
const CONFIRMED_NEEDS: [(usize, Need); 5] = [
    (47, Need::More(48)),
    (315, Need::More(316)),
    (316, Need::More(576)),
    (575, Need::More(576)),
    (576, Need::Length(576)),
];

// For the confirmed packet of two blocks.
const NO_BLOCKS_NEEDS: [(usize, Need); 5] = [
    (114, Need::More(316)),
    (316, Need::More(720)),
    (360, Need::More(720)),
    (719, Need::More(720)),
    (720, Need::Length(720)),
];

// For a packet of 127 blocks.
const LARGEST_NEEDS: [(usize, Need); 5] = [
    (315, Need::More(316)),
    (316, Need::More(25_920)),
    (720, Need::More(25_920)),
    (25_919, Need::More(25_920)),
    (25_920, Need::Length(25_920)),
];

// For the packet of format 17 hex.
const FORMAT_17_NEEDS: [(usize, Need); 5] = [
    (114, Need::More(316)),
    (315, Need::More(316)),
    (316, Need::More(360)),
    (359, Need::More(360)),
    (360, Need::Length(360)),
];

// For a packet without a header.
const NO_HEADER_NEEDS: [(usize, Need); 5] = [
    (113, Need::More(114)),
    (114, Need::More(316)),
    (315, Need::More(316)),
    (316, Need::NoLength(Field::PacketHeader)),
    (360, Need::NoLength(Field::PacketHeader)),
];

// For a terminator (TDU).
const TERMINATOR_NEEDS: [(usize, Need); 7] = [
    (0, Need::More(48)),
    (47, Need::More(48)),
    (48, Need::More(114)),
    (113, Need::More(114)),
    (114, Need::More(144)),
    (143, Need::More(144)),
    (144, Need::Length(144)),
];

// Data units, their number of bits, and the need at each number of transmitted bits.
pub(super) const NEEDS: [(&[u64], usize, &[(usize, Need)]); 14] = [
    (&RESPONSE, 350, &RESPONSE_NEEDS),
    (&CONFIRMED, 560, &CONFIRMED_NEEDS),
    (&NO_BLOCKS, 700, &NO_BLOCKS_NEEDS),
    (&LARGEST, 25_200, &LARGEST_NEEDS),
    (&FORMAT_17, 350, &FORMAT_17_NEEDS),
    (&NO_HEADER, 350, &NO_HEADER_NEEDS),
    (&TERMINATOR, 140, &TERMINATOR_NEEDS),
    (&NO_SYNC, 140, &[(144, Need::NoSync)]),
    (&FAR, 140, &[(144, Need::NoLength(Field::Nid))]),
    // with one bit less, with all, and with more after
    (
        &TERMINATOR,
        210,
        &[(143, Need::More(144)), (160, Need::Length(144))],
    ),
    (
        &HEADER,
        840,
        &[
            (791, Need::More(792)),
            (792, Need::Length(792)),
            (808, Need::Length(792)),
        ],
    ),
    (
        &LINK_1,
        1_750,
        &[
            (1_727, Need::More(1_728)),
            (1_728, Need::Length(1_728)),
            (1_744, Need::Length(1_728)),
        ],
    ),
    (
        &LINK_2,
        1_750,
        &[
            (1_727, Need::More(1_728)),
            (1_728, Need::Length(1_728)),
            (1_744, Need::Length(1_728)),
        ],
    ),
    (
        &END_LINK,
        490,
        &[
            (431, Need::More(432)),
            (432, Need::Length(432)),
            (448, Need::Length(432)),
        ],
    ),
];

// Four bits of the sync, eleven of the network identifier (NID), and its last bit, P, which is ignored.
const AT_RADIUS: [usize; 16] = [0, 1, 2, 3, 48, 53, 58, 63, 68, 75, 80, 85, 90, 95, 100, 113];

// Data units, their number of bits, the inverted transmitted bits, the fixes, and the fields that fail.
pub(super) const READINGS: [(&[u64], usize, &[usize], u32, &[Field]); 17] = [
    (&RESPONSE, 350, &[], 0, &[]),
    // a bit of the sync, of the NID and two of the header block; a status symbol, P and a null are ignored
    (&RESPONSE, 350, &[0, 50, 70, 113, 120, 250, 340], 4, &[]),
    (&CONFIRMED, 560, &[115, 284, 318], 3, &[]),
    (&NO_BLOCKS, 700, &[], 0, &[Field::Block(0), Field::Block(1)]),
    (&NO_CHECK, 560, &[], 0, &[Field::PacketCrc]),
    (&FORMAT_17, 350, &[], 0, &[Field::Format]),
    (&FORMAT_17, 350, &[0, 120, 121], 0, &[Field::Format]),
    (&CONFIRMED, 560, &[70, 142, 570], 0, &[]),
    (&HEADER, 770, &AT_RADIUS, 15, &[]),
    (&TERMINATOR, 140, &AT_RADIUS, 15, &[]),
    (
        &TERMINATOR,
        140,
        &[
            44, 45, 46, 47, 99, 100, 101, 102, 103, 104, 105, 106, 107, 108, 109,
        ],
        15,
        &[],
    ),
    // nulls of an HDU
    (&HEADER, 770, &[780, 785, 789], 0, &[]),
    // voice bits of the first frame of an LDU1 and of the second
    (&LINK_1, 1_680, &[114, 263, 264, 409], 0, &[]),
    // two bits of each low speed data (LSD) word of an LDU1
    (&LINK_1, 1_680, &[1_546, 1_547, 1_562, 1_563], 4, &[]),
    // both low speed data (LSD) words uncorrectable
    (
        &LINK_2,
        1_680,
        &[1_558, 1_560, 1_561, 1_574, 1_576, 1_577],
        0,
        &[Field::LowSpeed1, Field::LowSpeed2],
    ),
    // three bits of the first codeword of a TDULC and of the last
    (&END_LINK, 420, &[114, 115, 116, 386, 387, 388], 6, &[]),
    (&LINK_2, 1_680, &[], 0, &[]),
];
