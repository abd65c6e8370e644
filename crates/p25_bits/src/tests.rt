//! Values from outside, and each call once.

ghost use Rattle.std.specs.Prelude.{◌≡◌, ◌<◌, length};

use super::*;

#[test]
fn the_example_of_the_head(rt: HostRuntime) {
    let mut bits = BitBuf::new();
    bits.put_field(0x5575_F5FF_77FF, 48);
    bits.push(true);
    bits.drop_front(8);
    assert_eq!(rt; bits.field(0, 8), 0x75);
}

// A full list: 405 times 64 bits, and 8 more.
fn full() -> BitBuf
    ensures { length result ≡ 25928 }
{
    let mut bits = BitBuf::new();
    for _word in 0..405u32 {
        bits.put_field(0x0123_4567_89AB_CDEF, 64);
    }
    bits.put_field(0x5A, 8);
    bits
}

// Returns the number of positions in which a list differs from itself with one bit inverted.
fn distance_inverted(bits: &BitBuf, place: usize) -> u32
    requires { place < length bits.now }
{
    let mut other = BitBuf::new();
    other.append(bits, 0, bits.len());
    other.flip(place);
    BitBuf::distance(bits, &other)
}

// Fields that begin near the border of two words, and the last bits.
#[test]
fn fields_by_place(rt: HostRuntime) {
    let bits = full();
    for (at, width, want) in [
        (0, 64, 0x0123_4567_89AB_CDEF),
        (1, 64, 0x0246_8ACF_1357_9BDE),
        (63, 8, 0x80),
        (64, 12, 0x012),
        (65, 11, 0x012),
        (25_864, 64, 0x2345_6789_ABCD_EF5A),
        (25_927, 1, 0),
    ] {
        assert!(rt; at < 25_928 && width <= 64 && width <= 25_928 - at);
        assert_eq!(rt; bits.field(at, width as u32), want);
        let mut part = BitBuf::new();
        part.push(true);
        part.append(&bits, at, width);
        assert_eq!(rt; part.field(1, width as u32), want);
        assert_eq!(rt; distance_inverted(&bits, at), 1);
    }
    assert_eq!(rt; bits.field(25_928, 0), 0);
}

#[test]
fn changes(rt: HostRuntime) {
    let mut bits = BitBuf::new();
    bits.put_field(0x5575F5, 24);
    bits.flip(23);
    bits.set(0, true);
    assert_eq!(rt; bits.field(0, 24), 0xD575F4);
    assert!(rt; bits.get(0) && !bits.get(23));
    bits.drop_front(4);
    bits.push(true);
    assert_eq!(rt; bits.field(0, 21), 0xAEBE9);
    assert!(rt; bits != BitBuf::new());
    bits.clear();
    assert_eq!(rt; bits, BitBuf::new());
    assert_eq!(rt; BITS_MOST, 25_928);
}

#[test]
fn numbers(rt: HostRuntime) {
    let mut bits = BitBuf::new();
    bits.put_numbers(&[5, 2, 7], 3);
    bits.extend(&[true, false, true, true]);
    assert_eq!(rt; bits.field(0, 13), 0b101_010_111_1011);
    let mut numbers = [0; 3];
    bits.take_numbers(1, 4, &mut numbers);
    assert_eq!(rt; numbers, [5, 7, 11]);
    let mut word = [true; 5];
    put_number(0b1_0110, &mut word);
    assert_eq!(rt; word, [true, false, true, true, false]);
    assert_eq!(rt; number_of(&word), 0b1_0110);
}

#[test]
fn octets_eight_at_once(rt: HostRuntime) {
    let octets = [0x01, 0x23, 0x45, 0x67, 0x89, 0xAB, 0xCD, 0xEF, 0xFE];
    let mut bits = BitBuf::new();
    bits.push(true);
    bits.put_eight(&octets);
    bits.put_eight(&octets[1..]);
    assert!(rt; bits.len() == 129 && bits.field(1, 64) == 0x0123_4567_89AB_CDEF);
    assert_eq!(rt; bits.field(65, 64), 0x2345_6789_ABCD_EFFE);
}

// The generator of the BCH code (63,16), two of its codewords, and a codeword with one bit error.
#[test]
fn remainders(rt: HostRuntime) {
    let generator = 0xCD93_0BDD_3B2B;
    for (word, want) in [
        (0x8000_CD93_0BDD_3B2A >> 1, 0),
        (0x0003_364C_2F74_ECAC >> 1, 0),
        ((0x0003_364C_2F74_ECAC >> 1) ^ 1, 1),
    ] {
        assert_eq!(rt; number_remainder(word, generator, 47), want);
    }
    assert_eq!(rt; next_remainder(1, true, 0b1011, 3), 3);
    assert_eq!(rt; next_remainder(4, false, 0b1011, 3), 3);
}
