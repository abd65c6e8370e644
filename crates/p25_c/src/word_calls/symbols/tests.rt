//! Words that other programs encoded and decoded. A text represents a symbol by two octal digits.

ghost use Rattle.std.specs.Prelude.{◌≤◌};
ghost use Rattle.p25_reed_solomon.specs.Words.{IsCode};

use super::*;

// The octets of a text.
fn octets_of<const N: usize>(text: &str) -> [u8; N]
    requires { N ≤ 36 }
{
    let digits = text.as_bytes();
    let mut octets = [0; N];
    for i in 0..N {
        if 2 * i + 1 < digits.len() {
            octets[i] = digits[2 * i] % 8 * 8 + digits[2 * i + 1] % 8;
        }
    }
    octets
}

// Whether a received word is decoded so, and by the call for erased symbols too, with no symbol erased.
fn is_read<const N: usize, const K: usize>(received: &str, answer: i32, left: &str) -> bool
    requires code { IsCode N K }
    requires short { N ≤ 36 }
{
    let (mut symbols, mut again) = (octets_of::<N>(received), octets_of::<N>(received));
    let left = octets_of::<N>(left);
    read_symbols::<N, K>(&mut symbols) == answer
        && symbols == left
        && read_with_erased::<N, K>(&mut again, &[false; N]) == answer
        && again == left
}

// Whether a codeword is encoded again from its information, with its first check symbol and the one at 23 replaced
// before.
fn is_written<const N: usize, const K: usize>(word: &str) -> bool
    requires code { IsCode N K }
    requires short { N ≤ 36 }
{
    let word = octets_of::<N>(word);
    let mut symbols = word;
    for place in [K, 23] {
        if place < N {
            symbols[place] = 255;
        }
    }
    write_symbols::<N, K>(&mut symbols) == 0 && symbols == word
}

#[test]
fn words_of_36_20(rt: HostRuntime) {
    // Rows: received, the result, and the word left.
    let rows: [(&str, i32, &str); 3] = [
        (
            "270175232777377521255315260744575571261610414715134206634110723660117725",
            0,
            "270175232777377521255315260744575571261610414715134206634110723660117725",
        ),
        (
            "660625573120222010135302235553062704027367413061650364234754741551050455",
            8,
            "660625573120222010135302235553232743025767463061650364403554741551051162",
        ),
        (
            "461001661736227254432211533442736450766440774515115732277604062776100667",
            -1,
            "461001661736227254432211533442736450766440774515115732277604062776100667",
        ),
    ];
    for (received, answer, left) in rows {
        assert!(rt; is_read::<36, 20>(received, answer, left));
        assert!(rt; answer < 0 || is_written::<36, 20>(left));
    }
}

#[test]
fn words_of_24_12(rt: HostRuntime) {
    // Rows: received, the result, and the word left.
    let rows: [(&str, i32, &str); 3] = [
        (
            "035000476356506273717415466536506351313017440371",
            0,
            "035000476356506273717415466536506351313017440371",
        ),
        (
            "372102203243321154121254771204302603045662547415",
            6,
            "112102203243321154121254314204306003045621545615",
        ),
        (
            "763443146210754671737443625421306553103166362115",
            -1,
            "763443146210754671737443625421306553103166362115",
        ),
    ];
    for (received, answer, left) in rows {
        assert!(rt; is_read::<24, 12>(received, answer, left));
        assert!(rt; answer < 0 || is_written::<24, 12>(left));
    }
}

#[test]
fn words_of_24_16(rt: HostRuntime) {
    // Rows: received, the result, and the word left.
    let rows: [(&str, i32, &str); 3] = [
        (
            "031163745554154624037047554717145530440712313622",
            0,
            "031163745554154624037047554717145530440712313622",
        ),
        (
            "262374065031234751523251520654713464222525644234",
            4,
            "262374065031236147523210520654713464222525646634",
        ),
        (
            "746717323430621124136252227675522472721125553423",
            -1,
            "746717323430621124136252227675522472721125553423",
        ),
    ];
    for (received, answer, left) in rows {
        assert!(rt; is_read::<24, 16>(received, answer, left));
        assert!(rt; answer < 0 || is_written::<24, 16>(left));
    }
}

// Whether a codeword of zeros whose first twelve symbols were received as 63 is decoded so, with the first `erased` of
// them erased.
fn zeros_are_read(erased: usize, answer: i32, left: u8) -> bool {
    let (mut symbols, mut gone, mut word) = ([0; 24], [false; 24], [0; 24]);
    for i in 0..12 {
        symbols[i] = 63;
        gone[i] = i < erased;
        word[i] = left;
    }
    read_with_erased::<24, 12>(&mut symbols, &gone) == answer && symbols == word
}

// As many symbols as there are check symbols are erased, and then one fewer with one more wrong.
#[test]
fn erased_symbols(rt: HostRuntime) {
    assert!(rt; zeros_are_read(12, 12, 0));
    assert!(rt; zeros_are_read(11, -1, 63));
}

// Zeros, except for the octet at a position.
fn zeros_but(place: usize, octet: u8) -> [u8; 24] {
    let mut symbols = [0; 24];
    if place < 24 {
        symbols[place] = octet;
    }
    symbols
}

// Whether the decoders refuse zeros with another octet at a position, and leave them unchanged.
fn readers_refuse(place: usize, octet: u8) -> bool {
    let mut symbols = zeros_but(place, octet);
    let received = symbols;
    read_symbols::<24, 12>(&mut symbols) == -2
        && read_with_erased::<24, 16>(&mut symbols, &[true; 24]) == -2
        && symbols == received
}

// Whether the encoders do.
fn writers_refuse(place: usize, octet: u8) -> bool {
    let mut symbols = zeros_but(place, octet);
    let given = symbols;
    write_symbols::<24, 12>(&mut symbols) == -2
        && write_symbols::<24, 16>(&mut symbols) == -2
        && symbols == given
}

// Octets that represent no symbol, also if they are erased.
#[test]
fn octets_above_63(rt: HostRuntime) {
    assert!(rt; readers_refuse(23, 64));
    assert!(rt; writers_refuse(11, 255));
}
