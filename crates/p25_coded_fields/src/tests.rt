//! A field of two Golay codewords, each with two symbols of an outer codeword of four, encoded and decoded.

ghost use Rattle.std.specs.Prelude.{◌≤◌};

use super::{put_coded, read_field};
use p25_bits::BitBuf;
use p25_code::{BlockCode, Reading};
use p25_gf64::Sym;
use p25_golay::Golay24;
use p25_reed_solomon::Rs;

#[test]
fn the_example_of_the_head(rt: HostRuntime) {
    let mut bare = BitBuf::new();
    put_coded::<Golay24>(&[Sym::ZERO; 4], 2, &mut bare);
    bare.flip(5);
    let mut word = [Sym::ONE; 4];
    let reading = read_field::<Golay24, Rs<4, 2>>(&bare, &[0, 24], &mut word);
    assert!(rt; word == [Sym::ZERO; 4] && reading == Reading::Found { fixes: 1 });
}

// The outer code: two symbols of information and two check symbols.
type Outer = Rs<4, 2>;

// The positions of the inner words, after eight other bits.
const PLACES: [usize; 2] = [8, 32];

// Inverts the first bits of the inner word at a position.
fn invert(bits: &mut BitBuf, place: usize, count: usize)
    requires place { place ≤ 32 }
    requires count { count ≤ 24 }
{
    for i in 0..count {
        if place + i < bits.len() {
            bits.flip(place + i);
        }
    }
}

#[test]
fn fields(rt: HostRuntime) {
    let mut sent = [Sym::ZERO; 4];
    Outer::encode(&[Sym::pow_alpha(7), Sym::ONE], &mut sent);
    // Rows: the bit errors of both words, and the fixes of the field, if it is decoded.
    for (first, second, read) in [
        (0, 0, Some(0)),
        (3, 3, Some(6)),
        (4, 3, Some(7)),
        (2, 4, Some(6)),
        (4, 4, None),
    ] {
        let mut bare = BitBuf::new();
        bare.put_field(0xA5, 8);
        put_coded::<Golay24>(&sent, 2, &mut bare);
        // The information of the first word: α^7 is 6, and then 1.
        assert_eq!(rt; bare.field(8, 12), 0o0601);
        invert(&mut bare, PLACES[0], first);
        invert(&mut bare, PLACES[1], second);
        assert_eq!(rt; bare.len(), 56);
        let mut word = [Sym::ZERO; 4];
        match read_field::<Golay24, Outer>(&bare, &PLACES, &mut word) {
            Reading::Found { fixes } => {
                assert!(rt; read == Some(fixes) && word == sent, "{first} {second}");
            }
            Reading::Beyond => assert!(rt; read.is_none(), "{first} {second}"),
        }
    }
}
