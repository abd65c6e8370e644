//! Words that other programs encoded and decoded.

use crate::{Hamming10, Lsd16};
use p25_bits::put_number;
use p25_code::{BlockCode, Reading, read_received};

#[test]
fn the_example_of_the_head(rt: HostRuntime) {
    use p25_code::{BlockCode, Reading};

    let mut word = [false; 16];
    Lsd16::encode(&[false; 8], &mut word);
    word[1] = true;
    word[14] = true;
    assert_eq!(rt; Lsd16::read(&mut word), Reading::Found { fixes: 2 });
}

#[test]
fn the_example_of_block_codes(rt: HostRuntime) {
    let mut word = [false; 10];
    Hamming10::encode(&[true, false, false, false, false, false], &mut word);
    word[3] = !word[3];
    assert_eq!(rt; Hamming10::read(&mut word), Reading::Found { fixes: 1 });
}

#[test]
fn hamming10_encodes(rt: HostRuntime) {
    for (info, sent) in [
        (0b100000, 0b1000001110),
        (0b010000, 0b0100001101),
        (0b000001, 0b0000011100),
        (0, 0),
    ] {
        let (mut information, mut word, mut wanted) = ([false; 6], [false; 10], [false; 10]);
        put_number(info, &mut information);
        put_number(sent, &mut wanted);
        Hamming10::encode(&information, &mut word);
        assert_eq!(rt; word, wanted, "{info}");
        assert_eq!(rt;
            read_received::<Hamming10>(&mut word),
            Reading::Found { fixes: 0 }
        );
        assert_eq!(rt; word, wanted, "{info}");
    }
}

#[test]
fn hamming10_reads(rt: HostRuntime) {
    assert_eq!(rt; Hamming10::radius(), 1);
    for (received, reading, left) in [
        (0b0000001111, Reading::Beyond, 0b0000001111),
        (0b0000000001, Reading::Found { fixes: 1 }, 0),
        (0x111, Reading::Found { fixes: 0 }, 0x111),
        (0x0B4, Reading::Found { fixes: 0 }, 0x0B4),
        (0x20E, Reading::Found { fixes: 0 }, 0x20E),
        (0x18E, Reading::Found { fixes: 1 }, 0x186),
        (0x2BD, Reading::Found { fixes: 1 }, 0x2FD),
        (0x3CC, Reading::Found { fixes: 1 }, 0x3EC),
        (0x046, Reading::Found { fixes: 1 }, 0x047),
        (0x11D, Reading::Found { fixes: 1 }, 0x10D),
        (0x379, Reading::Found { fixes: 1 }, 0x37B),
        (0x0BB, Reading::Beyond, 0x0BB),
        (0x09D, Reading::Beyond, 0x09D),
        (0x283, Reading::Beyond, 0x283),
        (0x2B0, Reading::Beyond, 0x2B0),
        (0x1CB, Reading::Beyond, 0x1CB),
    ] {
        let (mut word, mut wanted) = ([false; 10], [false; 10]);
        put_number(received, &mut word);
        put_number(left, &mut wanted);
        assert_eq!(rt;
            read_received::<Hamming10>(&mut word),
            reading,
            "{received}"
        );
        assert_eq!(rt; word, wanted, "{received}");
    }
}

#[test]
fn lsd16_encodes(rt: HostRuntime) {
    for (info, sent) in [(0x01, 0x0139), (0x80, 0x804E), (0, 0)] {
        let (mut information, mut word, mut wanted) = ([false; 8], [false; 16], [false; 16]);
        put_number(info, &mut information);
        put_number(sent, &mut wanted);
        Lsd16::encode(&information, &mut word);
        assert_eq!(rt; word, wanted, "{info}");
        assert_eq!(rt;
            read_received::<Lsd16>(&mut word),
            Reading::Found { fixes: 0 }
        );
        assert_eq!(rt; word, wanted, "{info}");
    }
}

#[test]
fn lsd16_reads(rt: HostRuntime) {
    assert_eq!(rt; Lsd16::radius(), 2);
    for (received, reading, left) in [
        (0x000B, Reading::Beyond, 0x000B),
        (0x62DA, Reading::Found { fixes: 0 }, 0x62DA),
        (0xC9A1, Reading::Found { fixes: 0 }, 0xC9A1),
        (0xC6F7, Reading::Found { fixes: 1 }, 0xC6FF),
        (0x08F5, Reading::Found { fixes: 1 }, 0x08F1),
        (0x0CF5, Reading::Found { fixes: 2 }, 0x08F1),
        (0x1451, Reading::Found { fixes: 2 }, 0x9471),
        (0xE7C4, Reading::Found { fixes: 2 }, 0xC7C6),
        (0xE363, Reading::Found { fixes: 2 }, 0x63E3),
        (0xD6D4, Reading::Found { fixes: 2 }, 0xDED5),
        (0x8A18, Reading::Beyond, 0x8A18),
        (0x1057, Reading::Beyond, 0x1057),
        (0xC948, Reading::Beyond, 0xC948),
        (0x7DF9, Reading::Beyond, 0x7DF9),
        (0xDA0F, Reading::Beyond, 0xDA0F),
    ] {
        let (mut word, mut wanted) = ([false; 16], [false; 16]);
        put_number(received, &mut word);
        put_number(left, &mut wanted);
        assert_eq!(rt; read_received::<Lsd16>(&mut word), reading, "{received}");
        assert_eq!(rt; word, wanted, "{received}");
    }
}
