//! Codewords and network identifiers (NID) that other programs encoded and decoded.

use super::*;
use p25_golay::{Golay18, Golay24};
use p25_hamming::{Hamming10, Lsd16};

// A received word, the result, and the word left.
type Row = (u32, i32, u32);

// Whether each received word decodes as its row states.
fn are_read<C: NumberCode>(rows: &[Row]) -> bool
    requires { C.HasCode }
{
    for (received, answer, left) in rows {
        let mut word = *received;
        if read_number::<C>(&mut word) != *answer || word != *left {
            return false;
        }
    }
    true
}

// Whether each information is encoded as the codeword of its row.
fn are_written<C: NumberCode>(rows: &[(u32, u32)]) -> bool
    requires { C.HasCode }
{
    for (info, word) in rows {
        if write_number::<C>(*info) != *word {
            return false;
        }
    }
    true
}

#[test]
fn the_example_of_the_head(rt: HostRuntime) {
    let mut word = 0x8CBDFF;
    assert!(rt; read_number::<Golay24>(&mut word) == 1 && word == 0x84BDFF);
}

#[test]
fn golay_words(rt: HostRuntime) {
    let rows: [Row; 5] = [
        (0xF6CE97, 0, 0xF6CE97),
        (0x8CBDFF, 1, 0x84BDFF),
        (0x05F20F, 3, 0x85F40F),
        (0xF00000, -1, 0xF00000),
        (0x1000000, -2, 0x1000000),
    ];
    assert!(rt; are_read::<Golay24>(&rows));
    let rows: [Row; 4] = [
        (0x018EB, 0, 0x018EB),
        (0x206CA, 3, 0x206CD),
        (0x40000, -2, 0x40000),
        (0xFFFFFFFF, -2, 0xFFFFFFFF),
    ];
    assert!(rt; are_read::<Golay18>(&rows));
    assert!(rt;
        are_written::<Golay24>(&[(0x800, 0x800C75), (0x001, 0x0018EB), (0x1000, u32::MAX)])
    );
    assert!(rt; are_written::<Golay18>(&[(0x01, 0x018EB), (0x20, 0x206CD), (0x40, u32::MAX)]));
}

#[test]
fn hamming_and_low_speed_words(rt: HostRuntime) {
    let rows: [Row; 4] = [
        (0x0B4, 0, 0x0B4),
        (0x18E, 1, 0x186),
        (0x00F, -1, 0x00F),
        (0x400, -2, 0x400),
    ];
    assert!(rt; are_read::<Hamming10>(&rows));
    let rows: [Row; 4] = [
        (0x62DA, 0, 0x62DA),
        (0x1451, 2, 0x9471),
        (0x000B, -1, 0x000B),
        (0x10000, -2, 0x10000),
    ];
    assert!(rt; are_read::<Lsd16>(&rows));
    assert!(rt; are_written::<Hamming10>(&[(0x20, 0x20E), (0x01, 0x01C), (0x40, u32::MAX)]));
    assert!(rt; are_written::<Lsd16>(&[(0x01, 0x0139), (0x80, 0x804E), (0x100, u32::MAX)]));
}

#[test]
fn identifiers(rt: HostRuntime) {
    let rows: [(u16, u8, u64); 4] = [
        (0x800, 0x0, 0x8000_CD93_0BDD_3B2A),
        (0x293, 0x5, 0x2935_55EF_2C65_3437),
        (0x293, 0xA, 0x293A_BA93_BEC2_6A2B),
        (0xFFF, 0xF, 0xFFFF_FFFF_FFFF_FFFE),
    ];
    for (nac, duid, bits) in rows {
        assert!(rt; write_identifier(nac, duid) == bits);
        for (wrong, answer) in [(0, 0), (1, 0), (0x7FF0, 11)] {
            assert!(rt; reads_as(bits ^ wrong, answer, nac, duid));
        }
    }
    assert!(rt; reads_as(0x0003_682D_4527_4B06, -1, 7, 9));
    for (nac, duid) in [(4_096, 0), (0, 16), (65_535, 255)] {
        assert!(rt; write_identifier(nac, duid) == u64::MAX);
    }
}

// Whether 64 bits are decoded with a result, and leave a NAC and a DUID in variables that held 7 and 9.
fn reads_as(bits: u64, answer: i32, nac: u16, duid: u8) -> bool {
    let (mut read_nac, mut read_duid) = (7, 9);
    read_identifier(bits, &mut read_nac, &mut read_duid) == answer
        && read_nac == nac
        && read_duid == duid
}
