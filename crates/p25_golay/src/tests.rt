//! Words that other programs encoded and decoded, and every pattern of three and of four bit errors.

use crate::{Golay18, Golay24};
use p25_bits::put_number;
use p25_code::{BlockCode, Reading, read_received};

#[test]
fn the_example_of_the_head(rt: HostRuntime) {
    use p25_code::{BlockCode, Reading};

    let mut word = [false; 18];
    Golay18::encode(&[false, false, false, false, false, true], &mut word); // 018EB hex
    word[0] = true;
    word[17] = false;
    assert_eq!(rt; Golay18::read(&mut word), Reading::Found { fixes: 2 });
}

#[test]
fn golay24_encodes(rt: HostRuntime) {
    for (info, sent) in [(0x800, 0x800C75), (0x001, 0x0018EB), (0, 0)] {
        let (mut information, mut word, mut wanted) = ([false; 12], [false; 24], [false; 24]);
        put_number(info, &mut information);
        put_number(sent, &mut wanted);
        Golay24::encode(&information, &mut word);
        assert_eq!(rt; word, wanted, "{info}");
        assert_eq!(rt;
            read_received::<Golay24>(&mut word),
            Reading::Found { fixes: 0 }
        );
        assert_eq!(rt; word, wanted, "{info}");
    }
}

#[test]
fn golay18_encodes(rt: HostRuntime) {
    for (info, sent) in [(0x01, 0x018EB), (0x20, 0x206CD), (0, 0)] {
        let (mut information, mut word, mut wanted) = ([false; 6], [false; 18], [false; 18]);
        put_number(info, &mut information);
        put_number(sent, &mut wanted);
        Golay18::encode(&information, &mut word);
        assert_eq!(rt; word, wanted, "{info}");
        assert_eq!(rt;
            read_received::<Golay18>(&mut word),
            Reading::Found { fixes: 0 }
        );
        assert_eq!(rt; word, wanted, "{info}");
    }
}

#[test]
fn golay24_reads(rt: HostRuntime) {
    assert_eq!(rt; Golay24::radius(), 3);
    for (received, reading, left) in [
        (0xF00000, Reading::Beyond, 0xF00000),
        (0xF6CE97, Reading::Found { fixes: 0 }, 0xF6CE97),
        (0xBC57FE, Reading::Found { fixes: 1 }, 0x9C57FE),
        (0x8CBDFF, Reading::Found { fixes: 1 }, 0x84BDFF),
        (0xDD8E7E, Reading::Found { fixes: 2 }, 0xDC8E7F),
        (0x05F20F, Reading::Found { fixes: 3 }, 0x85F40F),
        (0x4EA848, Reading::Found { fixes: 3 }, 0x4EAA4D),
        (0xDD3B93, Reading::Found { fixes: 3 }, 0x5F3BB3),
        (0x02D013, Reading::Found { fixes: 3 }, 0x52C013),
        (0x94AE25, Reading::Found { fixes: 3 }, 0x8CBE25),
        (0x99CDC7, Reading::Beyond, 0x99CDC7),
        (0xE58A90, Reading::Beyond, 0xE58A90),
        (0xC24A78, Reading::Beyond, 0xC24A78),
        (0x992937, Reading::Beyond, 0x992937),
        (0x4A103C, Reading::Beyond, 0x4A103C),
    ] {
        let (mut word, mut wanted) = ([false; 24], [false; 24]);
        put_number(received, &mut word);
        put_number(left, &mut wanted);
        assert_eq!(rt; read_received::<Golay24>(&mut word), reading, "{received}");
        assert_eq!(rt; word, wanted, "{received}");
    }
}

#[test]
fn golay18_reads(rt: HostRuntime) {
    assert_eq!(rt; Golay18::radius(), 3);
    for (received, reading, left) in [
        (0x3C000, Reading::Beyond, 0x3C000),
        // The end of a codeword of the code (24,12) that begins with 100000.
        (0x00C75, Reading::Beyond, 0x00C75),
        (0x0F684, Reading::Found { fixes: 0 }, 0x0F684),
        (0x3886C, Reading::Found { fixes: 0 }, 0x3886C),
        (0x30C94, Reading::Found { fixes: 1 }, 0x32C94),
        (0x11B9C, Reading::Found { fixes: 1 }, 0x11B8C),
        (0x2BA9A, Reading::Found { fixes: 2 }, 0x2BADE),
        (0x2B418, Reading::Found { fixes: 3 }, 0x23718),
        (0x27343, Reading::Found { fixes: 3 }, 0x07B42),
        (0x05A6E, Reading::Found { fixes: 3 }, 0x0527C),
        (0x2FD08, Reading::Found { fixes: 3 }, 0x1ED08),
        (0x22CC8, Reading::Beyond, 0x22CC8),
        (0x1F417, Reading::Beyond, 0x1F417),
        (0x3269D, Reading::Beyond, 0x3269D),
        (0x03CCF, Reading::Beyond, 0x03CCF),
        (0x19D99, Reading::Beyond, 0x19D99),
    ] {
        let (mut word, mut wanted) = ([false; 18], [false; 18]);
        put_number(received, &mut word);
        put_number(left, &mut wanted);
        assert_eq!(rt; read_received::<Golay18>(&mut word), reading, "{received}");
        assert_eq!(rt; word, wanted, "{received}");
    }
}

#[test]
fn golay24_reads_any_three_wrong_bits(rt: HostRuntime) {
    let mut sent = [false; 24];
    put_number(0xF6CE97, &mut sent);
    for i in 0..24usize {
        for j in 0..i {
            for k in 0..j {
                let mut word = sent;
                word[i] = !word[i];
                word[j] = !word[j];
                word[k] = !word[k];
                assert_eq!(rt; Golay24::read(&mut word), Reading::Found { fixes: 3 });
                assert_eq!(rt; word, sent);
            }
        }
    }
}

#[test]
fn golay24_reads_no_four_wrong_bits(rt: HostRuntime) {
    for i in 0..24usize {
        for j in 0..i {
            for k in 0..j {
                for l in 0..k {
                    let mut received = [false; 24];
                    received[i] = true;
                    received[j] = true;
                    received[k] = true;
                    received[l] = true;
                    let mut word = received;
                    assert_eq!(rt; Golay24::read(&mut word), Reading::Beyond);
                    assert_eq!(rt; word, received);
                }
            }
        }
    }
}
