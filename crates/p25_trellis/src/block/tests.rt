//! Tests of the trellis decoder on blocks.

ghost use Rattle.std.specs.Prelude.{◌≡◌, length};

use super::*;
use crate::rate::{Half, ThreeQuarter};

// The list of 196 bits that three numbers of 64 bits and the lowest four bits of another write.
fn sent_block(numbers: &[u64; 4]) -> BitBuf
    ensures { length result ≡ 196 }
{
    let mut bits = BitBuf::new();
    bits.put_field(numbers[0], 64);
    bits.put_field(numbers[1], 64);
    bits.put_field(numbers[2], 64);
    bits.put_field(numbers[3] % 16, 4);
    bits
}

#[test]
fn the_example_of_the_head(rt: HostRuntime) {
    let mut bits = BitBuf::new();
    encode_block::<Half>(&[7; 12], &mut bits);
    bits.flip(3);
    let mut octets = [0; 12];
    let distance = read_block::<Half>(&bits, 0, &mut octets);
    assert!(rt; distance == 1 && octets == [7; 12]);
}

// The block of zeros, at either rate: 49 nibbles 2.
const ZEROS: [u64; 4] = [
    0x2222_2222_2222_2222,
    0x2222_2222_2222_2222,
    0x2222_2222_2222_2222,
    2,
];

// Blocks that another program made from the standard's tables are the encodings of their octets, and decode with
// distance 0.
#[test]
fn blocks_of_half_rate(rt: HostRuntime) {
    let rows: [([u8; 12], [u64; 4]); 3] = [
        ([0; 12], ZEROS),
        (
            [0, 0, 0, 0, 0, 0, 0, 0, 0, 0, 0xFF, 0xFF],
            [
                0x2222_2222_22F8_5222,
                0x2222_2228_8222_2222,
                0x2228_8222_2222_2228,
                8,
            ],
        ),
        (
            [
                0x56, 0xC0, 0, 0x12, 0x34, 0x56, 0x81, 0, 0x08, 0x9A, 0xBC, 0xDE,
            ],
            [
                0xC422_9CAE_21AF_9052,
                0xCF09_2274_B022_EB02,
                0x21D8_3D22_1EDC_29A5,
                6,
            ],
        ),
    ];
    for (octets, numbers) in rows {
        let sent = sent_block(&numbers);
        let mut bits = BitBuf::new();
        encode_block::<Half>(&octets, &mut bits);
        assert!(rt; bits.len() == 196 && BitBuf::distance(&bits, &sent) == 0);
        let mut read = [9; 12];
        assert_eq!(rt; read_block::<Half>(&sent, 0, &mut read), 0);
        assert_eq!(rt; read, octets);
    }
}

#[test]
fn blocks_of_three_quarter_rate(rt: HostRuntime) {
    let rows: [([u8; 18], [u64; 4]); 2] = [
        ([0; 18], ZEROS),
        (
            [
                0x56, 0xC0, 0, 0x12, 0x34, 0x56, 0x81, 0, 0x08, 0x9A, 0xBC, 0xDE, 0xF0, 0x0F, 0x1E,
                0x2D, 0x3C, 0x4B,
            ],
            [
                0xEF2F_227A_148A_6027,
                0x5F26_4EE8_892A_7EDD,
                0x0FCF_162C_3AE5_A2A9,
                8,
            ],
        ),
    ];
    for (octets, numbers) in rows {
        let sent = sent_block(&numbers);
        let mut bits = BitBuf::new();
        encode_block::<ThreeQuarter>(&octets, &mut bits);
        assert!(rt; bits.len() == 196 && BitBuf::distance(&bits, &sent) == 0);
        let mut read = [9; 18];
        assert_eq!(rt; read_block::<ThreeQuarter>(&sent, 0, &mut read), 0);
        assert_eq!(rt; read, octets);
    }
}

// The block of zeros with two bit errors at half rate, and with one at three-quarter rate.
#[test]
fn blocks_with_wrong_bits(rt: HostRuntime) {
    for place in 0..195 {
        let mut bits = sent_block(&ZEROS);
        bits.flip(place);
        let mut octets = [9; 18];
        assert_eq!(rt; read_block::<ThreeQuarter>(&bits, 0, &mut octets), 1);
        assert_eq!(rt; octets, [0; 18]);
        bits.flip(195);
        let mut octets = [9; 12];
        assert_eq!(rt; read_block::<Half>(&bits, 0, &mut octets), 2);
        assert_eq!(rt; octets, [0; 12]);
    }
}

// Two bit errors at three-quarter rate: at the same distance from another path, which comes later; and nearer to
// another path.
#[test]
fn a_tie_and_a_nearer_path(rt: HostRuntime) {
    let mut bits = sent_block(&ZEROS);
    bits.flip(12);
    bits.flip(15);
    let mut octets = [9; 18];
    assert_eq!(rt; read_block::<ThreeQuarter>(&bits, 0, &mut octets), 2);
    assert_eq!(rt; octets, [0; 18]);
    bits.flip(15);
    bits.flip(14);
    assert_eq!(rt; read_block::<ThreeQuarter>(&bits, 0, &mut octets), 1);
    assert_eq!(rt;
        octets,
        [0, 0, 0, 0, 0x0A, 0, 0, 0, 0, 0, 0, 0, 0, 0, 0, 0, 0, 0]
    );
}
