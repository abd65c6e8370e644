//! Data units as their octets arrive.

use crate::{Item, Scanner};
use p25_bits::BitBuf;
use p25_units::Field;

// 16 bits of a gap, and a terminator (TDU) of NAC 0 with the status symbol 1, with one bit error in its sync.
const OCTETS: [u8; 20] = [
    0x12, 0x34, 0x55, 0x75, 0xF5, 0xFF, 0x77, 0xFE, 0x00, 0x03, 0x35, 0x93, 0x0B, 0xDD, 0x3B, 0x2B,
    0x00, 0x00, 0x00, 0x01,
];

// A sync, and a NID that is far from each codeword.
const FAR: [u8; 16] = [
    0x55, 0x75, 0xF5, 0xFF, 0x77, 0xFF, 0x00, 0x03, 0x69, 0x0B, 0x51, 0x49, 0xD2, 0xC1, 0x80, 0x00,
];

// Whether the gap is returned with its bits as soon as a sync follows it, and the others stay, from their position on.
fn gap_comes() -> bool {
    let mut scanner = Scanner::new();
    let mut raw = BitBuf::new();
    if scanner.push_some(&OCTETS) != 8 || scanner.held() != 64 {
        return false;
    }
    let is_gap = match scanner.next(&mut raw) {
        Some(Item::Gap { place, length }) => {
            place == 0 && length == 16 && raw.len() == 16 && raw.field(0, 16) == 0x1234
        }
        _ => false,
    };
    scanner.finish();
    match scanner.next(&mut raw) {
        Some(Item::Cut { place, have }) => is_gap && place == 16 && have == 48,
        _ => false,
    }
}

// Whether the terminator is returned with its bits as they arrived, once its last octet is there and not before.
fn terminator_comes() -> bool {
    let mut scanner = Scanner::new();
    let mut raw = BitBuf::new();
    if scanner.push_some(&OCTETS[2..]) != 8 || scanner.held() != 64 || !scanner.is_drained() {
        return false;
    }
    if scanner.push_some(&OCTETS[10..]) != 8 || scanner.held() != 128 || !scanner.is_drained() {
        return false;
    }
    scanner.push(0x00);
    if scanner.held() != 136 || !scanner.is_drained() {
        return false;
    }
    scanner.push(0x01);
    match scanner.next(&mut raw) {
        Some(Item::Whole { place, fixes, .. }) => {
            place == 0
                && fixes == 1
                && raw.len() == 144
                && raw.field(0, 48) == 0x5575_F5FF_77FE
                && raw.field(80, 64) == 0x0BDD_3B2B_0000_0001
                && scanner.held() == 0
        }
        _ => false,
    }
}

// Whether a sync without a data unit is returned with one bit, the first, instead of those that were there, and the
// bits after it, which begin within an octet, as a gap from there on.
fn sync_alone_comes() -> bool {
    let mut scanner = Scanner::new();
    let mut raw = BitBuf::new();
    raw.put_field(7, 3);
    if scanner.push_some(&FAR) != 8 || scanner.held() != 64 || !scanner.is_drained() {
        return false;
    }
    if scanner.push_some(&FAR[8..]) != 8 {
        return false;
    }
    let is_sync = match scanner.next(&mut raw) {
        Some(Item::NoUnit { place, field }) => {
            place == 0
                && field == Field::Nid
                && raw.len() == 1
                && raw.field(0, 1) == 0
                && scanner.held() == 127
        }
        _ => false,
    };
    scanner.finish();
    match scanner.next(&mut raw) {
        Some(Item::Gap { place, length }) => {
            is_sync && place == 1 && length == 127 && raw.len() == 127 && raw.field(0, 15) == 0x5575
        }
        _ => false,
    }
}

#[test]
fn units_as_their_octets_come(rt: HostRuntime) {
    assert!(rt; gap_comes());
    assert!(rt; terminator_comes());
    assert!(rt; sync_alone_comes());
}
