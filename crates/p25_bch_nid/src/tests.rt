//! Values from outside, and each call once.

use super::*;
use p25_bits::{number_of, put_number};
use p25_code::{BlockCode, Reading};

// A network identifier (NID) and its 64 transmitted bits. P, the last bit, is 1 for DUID 5 (LDU1) and A hex (LDU2)
// alone.
const SENT: [(u16, u8, u64); 6] = [
    (0x800, 0x0, 0x8000_CD93_0BDD_3B2A),
    (0x000, 0x3, 0x0003_364C_2F74_ECAC),
    (0x000, 0x0, 0x0000_0000_0000_0000),
    (0x293, 0x5, 0x2935_55EF_2C65_3437),
    (0x293, 0xA, 0x293A_BA93_BEC2_6A2B),
    (0xFFF, 0xF, 0xFFFF_FFFF_FFFF_FFFE),
];

#[test]
fn the_example_of_the_head(rt: HostRuntime) {
    let nid = Nid::from(0x2933); // NAC 293 hex, DUID 3
    let received = nid_bits(&nid) ^ 0x7FF0;
    let fixes = nid_distance(received, &nid);
    assert!(rt; read_nid(received) == Some(nid) && fixes == 11);
}

#[test]
fn sent_bits(rt: HostRuntime) {
    for (nac, duid, bits) in SENT {
        let nid = Nid::new(nac, duid);
        assert_eq!(rt;
            nid.map(|nid| nid_bits(&nid)),
            Some(bits),
            "{nac:x} {duid:x}"
        );
    }
}

// A network access code (NAC) and a data unit identifier (DUID), and whether they make a network identifier (NID).
const PARTS: [(u16, u8, bool); 6] = [
    (0, 0, true),
    (4_095, 15, true),
    (4_096, 0, false),
    (0, 16, false),
    (4_095, 16, false),
    (65_535, 255, false),
];

#[test]
fn identifiers_of_parts_that_fit(rt: HostRuntime) {
    for (nac, duid, fits) in PARTS {
        let parts = Nid::new(nac, duid).map(|nid| (nid.nac, nid.duid));
        assert_eq!(rt; parts, fits.then_some((nac, duid)), "{nac} {duid}");
    }
}

// Received words of 63 bits, the codewords that they decode to, and the number of bits that change; decoded by another
// program.
const FOUND: [(u64, u64, u32); 9] = [
    (0x0848_3548_9CBF_78B4, 0x0848_3548_9CBF_78B4, 0),
    (0x214E_C9F6_4C49_BD49, 0x214E_C9F6_4C49_BD69, 1),
    (0x0A04_BBD3_56E3_E467, 0x0A04_BBD3_56C3_E467, 1),
    (0x722A_305B_8CB8_DBD7, 0x522A_A05B_8CB0_DBD7, 4),
    (0x656A_CE21_992B_8104, 0x446A_CE21_910B_8115, 6),
    (0x38DE_73DC_AB36_3408, 0x3A5F_7B7C_AB76_3408, 7),
    (0x0919_F055_BAB2_46D7, 0x0921_F035_BAB2_46EF, 8),
    (0x3D75_4E63_CB9E_CCB3, 0x0D77_D363_CBBE_CEB3, 10),
    (0x7FF0_0000_0000_0000, 0x0000_0000_0000_0000, 11),
];

// Received words that are more than 11 bits from every codeword.
const BEYOND: [u64; 5] = [
    0x43B7_8B0C_DB17_5F9C,
    0x6C4B_198E_6004_0547,
    0x44B5_66CB_180B_119B,
    0x143B_2B72_DB83_DBF8,
    0x47FA_6DC4_DD8E_6E47,
];

// Decodes 63 bits, and returns the word left as well.
fn read_bits(received: u64) -> (Reading, u64) {
    let mut word = [false; 63];
    put_number(received, &mut word);
    let reading = Bch63::read(&mut word);
    (reading, number_of(&word))
}

#[test]
fn words_of_another_reader(rt: HostRuntime) {
    for (received, word, fixes) in FOUND {
        assert_eq!(rt;
            read_bits(received),
            (Reading::Found { fixes }, word),
            "{received:x}"
        );
    }
    for received in BEYOND {
        assert_eq!(rt;
            read_bits(received),
            (Reading::Beyond, received),
            "{received:x}"
        );
    }
}

#[test]
fn information_becomes_the_word_that_is_sent(rt: HostRuntime) {
    assert_eq!(rt; Bch63::radius(), 11);
    for (nac, duid, bits) in SENT {
        let mut info = [false; 16];
        put_number(bits >> 48, &mut info);
        let mut word = [false; 63];
        Bch63::encode(&info, &mut word);
        assert_eq!(rt; number_of(&word), bits >> 1, "{nac:x} {duid:x}");
    }
}

#[test]
fn identifiers_with_wrong_bits(rt: HostRuntime) {
    for (nac, duid, bits) in SENT {
        let nid = Nid::new(nac, duid);
        assert_eq!(rt; read_nid(bits), nid, "{nac:x} {duid:x}");
        assert_eq!(rt; read_nid(bits ^ 1), nid, "{nac:x} {duid:x} with P inverted");
        assert_eq!(rt;
            nid.map(|nid| (
                nid_distance(bits ^ 1, &nid),
                nid_distance(bits ^ 0xFFF0, &nid)
            )),
            Some((0, 12)),
            "{nac:x} {duid:x}"
        );
        let counted = read_nid_counted(bits ^ 0x1FF).map(|read| read.wrong);
        assert_eq!(rt;
            counted,
            Some(8),
            "{nac:x} {duid:x} with P and eight more inverted"
        );
        for start in 1..54_u32 {
            assert_eq!(rt;
                read_nid(bits ^ (0x7FF << start)),
                nid,
                "{nac:x} {duid:x} with a run from {start}"
            );
        }
        for (teeth, shifts) in COMBS {
            for shift in 0..shifts {
                assert_eq!(rt;
                    read_nid(bits ^ (teeth << shift)),
                    nid,
                    "{nac:x} {duid:x} with {teeth:x} from {shift}"
                );
            }
        }
    }
    // It differs from each codeword in at least 21 positions.
    assert_eq!(rt; read_nid(0x0003_682D_4527_4B06), None);
}

// The sum of the last of these identifiers and of the transmitted bits for NAC 0 and DUID 3. The code is linear, so
// adding the transmitted bits of any other NAC leaves the distance from each codeword the same.
#[test]
fn far_from_each_access_code(rt: HostRuntime) {
    for nac in 0..4096_u16 {
        let read = Nid::new(nac, 3).and_then(|nid| read_nid(
            nid_bits(&nid) ^ 0x0000_5E61_6A53_A7AA,
        ));
        assert_eq!(rt; read, None, "{nac:x}");
    }
}

// Eleven bits at every second to sixth position, none the lowest, and the number of positions at which they can begin.
const COMBS: [(u64, u32); 5] = [
    (0x0000_0000_002A_AAAA, 43),
    (0x0000_0000_9249_2492, 33),
    (0x0000_0222_2222_2222, 23),
    (0x0008_4210_8421_0842, 13),
    (0x2082_0820_8208_2082, 3),
];

#[test]
fn single_and_double_errors(rt: HostRuntime) {
    let word = 0x4000_66C9_85EE_9D95;
    for first in 0..63_u32 {
        let received = word ^ (1 << first);
        assert_eq!(rt;
            read_bits(received),
            (Reading::Found { fixes: 1 }, word),
            "{first}"
        );
        for second in 0..first {
            assert_eq!(rt;
                read_bits(received ^ (1 << second)),
                (Reading::Found { fixes: 2 }, word),
                "{first} {second}"
            );
        }
    }
}
