//! Levels, blocks decoded from them, and broken packets (PDU) of header blocks that a program apart from this code
//! made.

ghost use Rattle.std.specs.Prelude.{◌≡◌, length};
ghost use Rattle.p25_soft.specs.Levels.{hard_bits};

use super::{hard, hard_bits_of, nominal, read_soft, soften};
use p25_bits::BitBuf;
use p25_status::{Status, Statuses, weave};
use p25_trellis::{Half, ThreeQuarter, encode_block, read_block};
use p25_units::{Begun, Need, need, unit_item};

// The octets of header blocks, with their check: of confirmed packets (PDU) of one block and of two, of an unconfirmed packet of one
// block, and of a packet of the format 17 hex without blocks.
const CONFIRMED: [u8; 12] = [0x56, 0xC0, 0, 0, 0, 1, 0x81, 0, 0x08, 0, 0x02, 0xD3];

const TWO_BLOCKS: [u8; 12] = [
    0x56, 0xC0, 0, 0xFE, 0xDC, 0xBA, 0x02, 0x03, 0x38, 0, 0x68, 0x74,
];

const PLAIN: [u8; 12] = [0x35, 0xC0, 0, 0, 0, 1, 0x81, 0, 0, 0, 0x71, 0xA2];

const FORMAT_17: [u8; 12] = [0x17, 0xC0, 0, 0, 0, 1, 0x80, 0, 0, 0, 0xE0, 0x91];

// A confirmed block of zeros with its check.
const GOOD: [u8; 18] = [1, 0xFF, 0, 0, 0, 0, 0, 0, 0, 0, 0, 0, 0, 0, 0, 0, 0, 0];

// A transmitted packet (PDU) of at most two blocks under the network access code (NAC) 293 hex, with the status symbol
// 0 throughout, by the octets of its header block and of its blocks. A block of zeros is the same at either rate.
fn sent(header: &[u8; 12], blocks: &[[u8; 18]]) -> BitBuf {
    let mut bare = BitBuf::new();
    bare.put_field(0x5575_F5FF_77FF, 48);
    bare.put_field(0x293C_D60B_E02B_B372, 64);
    encode_block::<Half>(header, &mut bare);
    for octets in blocks {
        if bare.len() < 700 {
            encode_block::<ThreeQuarter>(octets, &mut bare);
        }
    }
    for _null in 0..(70 - bare.len() % 70) % 70 {
        if bare.len() < 25_200 {
            bare.push(false);
        }
    }
    let statuses = Statuses::filled(Status::default(), (bare.len() / 70).min(360));
    let mut out = BitBuf::new();
    if 70 * statuses.len() == bare.len() {
        weave(&bare, &statuses, &mut out);
    }
    out
}

// The nominal levels of at most 720 bits.
fn levels_of(bits: &BitBuf) -> [i8; 360]
    ensures { length result ≡ 360 }
{
    let mut levels = [0; 360];
    for i in 0..360 {
        if 2 * i + 2 <= bits.len() {
            levels[i] = nominal(bits.field(2 * i, 2) as u8);
        }
    }
    levels
}

// Softens the data unit of some levels, and returns the number of replaced blocks, or none if they are no data unit.
fn soften_unit(levels: &[i8], raw: &mut BitBuf) -> Option<u32>
    requires { raw.old ≡ hard_bits levels.now }
{
    match need(raw, 0) {
        Need::Length(count) => {
            if count != raw.len() {
                return None;
            }
            let item = unit_item(raw, 0, count, Begun::new(), 0);
            Some(soften(&item, levels, raw))
        }
        _ => None,
    }
}

#[test]
fn broken_packets(rt: HostRuntime) {
    // Rows: a header block, the blocks to follow, levels of the packet that differ, and the number of replaced blocks.
    let rows: [(&[u8; 12], &[[u8; 18]], &[(usize, i8)], u32); 5] = [
        (&CONFIRMED, &[GOOD], &[], 0),
        (&CONFIRMED, &[GOOD], &[(164, -1), (165, 0)], 1),
        (
            &TWO_BLOCKS,
            &[[0; 18], [0; 18]],
            &[(164, -1), (165, 0), (265, -1), (266, 0)],
            2,
        ),
        (&PLAIN, &[[0; 18]], &[(158, -1), (159, 0), (185, -1)], 1),
        (&FORMAT_17, &[], &[], 0),
    ];
    for (header, blocks, changed, replaced) in rows {
        let bits = sent(header, blocks);
        let mut levels = levels_of(&bits);
        for (place, level) in changed {
            assert!(rt; *place < 360);
            levels[*place] = *level;
        }
        let levels = &levels[..(bits.len() / 2).min(360)];
        let mut raw = hard_bits_of(levels);
        assert_eq!(rt; soften_unit(levels, &mut raw), Some(replaced));
        assert!(rt; raw.len() == bits.len() && BitBuf::distance(&raw, &bits) == 0);
    }
}

#[test]
fn level_near_a_border(rt: HostRuntime) {
    let mut levels = [32; 98];
    for i in 0..49 {
        levels[2 * i + 1] = -32;
    }
    levels[6] = -1;
    let mut octets = [9; 12];
    let cost = read_soft::<Half>(&levels, &mut octets);
    assert_eq!(rt; (octets, cost), ([0; 12], 1_089));
}

#[test]
fn soft_beats_hard(rt: HostRuntime) {
    // The block of zeros at either rate: 49 times the dibits 00 and 10.
    let mut levels = [32; 98];
    for i in 0..49 {
        assert!(rt; 2 * i + 1 < levels.len());
        levels[2 * i + 1] = -32;
    }
    let mut halves = [9; 12];
    assert_eq!(rt; read_soft::<Half>(&levels, &mut halves), 0);
    assert_eq!(rt; halves, [0; 12]);

    levels[6] = -1;
    levels[7] = 0;
    let mut octets = [9; 18];
    assert_eq!(rt; read_soft::<ThreeQuarter>(&levels, &mut octets), 2_113);
    assert_eq!(rt; octets, [0; 18]);
    let hard_bits = hard_bits_of(&levels);
    assert!(rt; hard_bits.len() == 196);
    assert_eq!(rt; read_block::<ThreeQuarter>(&hard_bits, 0, &mut octets), 1);
    assert_eq!(rt;
        octets,
        [0, 0, 0, 0, 10, 0, 0, 0, 0, 0, 0, 0, 0, 0, 0, 0, 0, 0]
    );
}

#[test]
fn levels_and_dibits(rt: HostRuntime) {
    // Rows: a dibit and its level.
    for (dibit, level) in [(0, 32), (1, 96), (2, -32), (3, -96)] {
        assert_eq!(rt; nominal(dibit), level);
    }
    // Rows: a level, and the dibit that it decodes to.
    let rows: [(i8, u8); 10] = [
        (127, 1),
        (64, 1),
        (63, 0),
        (32, 0),
        (0, 0),
        (-1, 2),
        (-64, 2),
        (-65, 3),
        (-96, 3),
        (-128, 3),
    ];
    for (level, dibit) in rows {
        assert_eq!(rt; hard(level), dibit);
    }
}
