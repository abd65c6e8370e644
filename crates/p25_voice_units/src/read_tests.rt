//! Data units of each type, HDU, LDU1, LDU2, TDU and TDULC, with damage: decoded with a number of fixes, or refused
//! with the fields that fail.

use super::{
    Voice, VoiceFrame, VoiceUnit, read_voice, read_voice_in, voice_fixes, voice_image, voice_length,
};
use p25_bits::BitBuf;
use p25_link::{EncryptionSync, HeaderWord, LinkControl};
use p25_status::{Field, ReadOutcome};

#[test]
fn the_example_of_the_head(rt: HostRuntime) {
    let link = LinkControl([7; 9]);
    let unit = VoiceUnit::EndLink { link };
    let mut bare = BitBuf::new();
    voice_image(0x293, &unit, &mut bare);
    let mut read = VoiceUnit::End;
    let outcome = read_voice_in(unit.duid(), &bare, &mut read);
    assert!(rt; read == unit && outcome == ReadOutcome::Read { wrong: 0 });
}

// Inverted bits: the first position, a step, the number of positions that are such steps apart, and the number of bits
// from each of them on.
type Damage = (usize, usize, u32, usize);

fn invert(bits: &mut BitBuf, at: usize, count: usize) {
    for place in at..at.saturating_add(count) {
        if place < bits.len() {
            bits.flip(place);
        }
    }
}

fn spoil(bits: &mut BitBuf, all: &[Damage]) {
    for (first, step, times, count) in all {
        let mut at = *first;
        for _place in 0..*times {
            invert(bits, at, *count);
            at = at.saturating_add(*step);
        }
    }
}

// Whether a data unit decodes to another after damage with a number of fixes, or, if fields are given, exactly these
// fail.
fn is_read_as(
    unit: &VoiceUnit,
    all: &[Damage],
    other: &VoiceUnit,
    fixes: u32,
    fields: &[Field],
) -> bool {
    let mut image = BitBuf::new();
    voice_image(0x293, unit, &mut image);
    let mut bare = BitBuf::new();
    bare.append(&image, 0, image.len());
    spoil(&mut bare, all);
    if bare.len() != image.len() {
        return false;
    }
    let is_read = matches!(read_voice(unit.duid(), &bare), Ok(_));
    let mut read = VoiceUnit::End;
    match read_voice_in(unit.duid(), &bare, &mut read) {
        ReadOutcome::Read { wrong } => {
            is_read
                && fields.len() == 0
                && read == *other
                && wrong == fixes
                && voice_fixes(unit, &bare, &image) == fixes
        }
        ReadOutcome::Failing { fields: failing } => !is_read
            && fields.len() > 0
            && failing.as_slice() == fields,
    }
}

// Whether a data unit is decoded in spite of the damage of each row, with its number of fixes.
fn are_read(unit: &VoiceUnit, rows: &[(&[Damage], u32)]) -> bool {
    for (all, fixes) in rows {
        if !is_read_as(unit, all, unit, *fixes, &[]) {
            return false;
        }
    }
    true
}

// Whether a data unit is refused after the damage of each row, with its fields.
fn are_failing(unit: &VoiceUnit, rows: &[(&[Damage], &[Field])]) -> bool {
    for (all, fields) in rows {
        if !is_read_as(unit, all, unit, 0, fields) {
            return false;
        }
    }
    true
}

// An HDU whose header word is made of one octet.
fn hdu(octet: u8) -> VoiceUnit {
    VoiceUnit::Header(HeaderWord {
        mi: [octet; 9],
        mfid: octet,
        algid: octet,
        kid: u16::from(octet) * 257,
        tgid: u16::from(octet),
    })
}

// An LDU1 whose last voice frame begins with an octet.
fn ldu1(octet: u8) -> VoiceUnit {
    let mut frames = [VoiceFrame([0x35; 18]); 9];
    frames[8].0[0] = octet;
    VoiceUnit::Link1 {
        link: LinkControl([0x00, 0x90, 0x80, 0x00, 0x12, 0x34, 0x56, 0x78, 0x9A]),
        low: [0x5A, 0xC3],
        voice: Voice::new(frames),
    }
}

// An LDU2.
fn ldu2() -> VoiceUnit {
    VoiceUnit::Link2 {
        sync: EncryptionSync {
            mi: [0x12, 0x34, 0x56, 0x78, 0x9A, 0xBC, 0xDE, 0xF0, 0x0F],
            algid: 0x81,
            kid: 0x1234,
        },
        low: [0, 0xFF],
        voice: Voice::new([VoiceFrame([0xFF; 18]); 9]),
    }
}

// A TDULC.
fn tdulc() -> VoiceUnit {
    VoiceUnit::EndLink {
        link: LinkControl([0x03, 0x90, 0, 0x12, 0x34, 0x56, 0x78, 0x9A, 0xBC]),
    }
}

// An HDU undamaged; its nulls; three bits of each word; eight words inverted and three bits of the others; sixteen
// uncorrectable words; fourteen of them, and another codeword in one position.
const HDU_READ: [(&[Damage], u32); 6] = [
    (&[], 0),
    (&[(760, 0, 1, 10)], 0),
    (&[(112, 18, 36, 3)], 108),
    (&[(112, 18, 8, 18), (256, 18, 28, 3)], 228),
    (&[(112, 18, 16, 4)], 64),
    (
        &[
            (112, 18, 14, 4),
            (369, 0, 1, 2),
            (374, 0, 1, 3),
            (378, 0, 1, 1),
            (380, 0, 1, 2),
        ],
        64,
    ),
];

// Seventeen uncorrectable words of an HDU; sixteen, and another codeword.
const HDU_FAILING: [(&[Damage], &[Field]); 2] = [
    (&[(112, 18, 17, 4)], &[Field::HeaderWord]),
    (
        &[
            (112, 18, 14, 4),
            (382, 18, 1, 4),
            (369, 0, 1, 2),
            (374, 0, 1, 3),
            (378, 0, 1, 1),
            (380, 0, 1, 2),
        ],
        &[Field::HeaderWord],
    ),
];

// Three bits of the first low speed data (LSD) word such that no codeword is within 2 bits.
const LOW_1: [Damage; 2] = [(1516, 0, 1, 1), (1518, 0, 1, 2)];

// Three such bits of the second.
const LOW_2: [Damage; 2] = [(1532, 0, 1, 1), (1534, 0, 1, 2)];

// An LDU1 undamaged; one bit of each Hamming word; two bits of each low speed data word; twelve uncorrectable words.
const LDU1_READ: [(&[Damage], u32); 4] = [
    (&[], 0),
    (
        &[
            (400, 10, 4, 1),
            (584, 10, 4, 1),
            (768, 10, 4, 1),
            (952, 10, 4, 1),
            (1136, 10, 4, 1),
            (1320, 10, 4, 1),
        ],
        24,
    ),
    (&[(1504, 16, 2, 2)], 4),
    (&LINK_WORDS, 120),
];

// Twelve uncorrectable words of an LDU1.
const LINK_WORDS: [Damage; 3] = [(400, 10, 4, 10), (584, 10, 4, 10), (768, 10, 4, 10)];

// These, and one more.
const LINK_BEYOND: [Damage; 4] = [
    (400, 10, 4, 10),
    (584, 10, 4, 10),
    (768, 10, 4, 10),
    (952, 0, 1, 10),
];

// Each field of an LDU1 uncorrectable by itself, and all together.
const LDU1_FAILING: [(&[Damage], &[Field]); 4] = [
    (&LINK_BEYOND, &[Field::LinkControl]),
    (&LOW_1, &[Field::LowSpeed1]),
    (&LOW_2, &[Field::LowSpeed2]),
    (
        &[
            (400, 10, 4, 10),
            (584, 10, 4, 10),
            (768, 10, 4, 10),
            (952, 0, 1, 10),
            (1516, 0, 1, 1),
            (1518, 0, 1, 2),
            (1532, 0, 1, 1),
            (1534, 0, 1, 2),
        ],
        &[Field::LinkControl, Field::LowSpeed1, Field::LowSpeed2],
    ),
];

// Eight uncorrectable words of an LDU2, with two bits of each low speed data word.
const LDU2_READ: [(&[Damage], u32); 2] = [
    (&[], 0),
    (
        &[(1136, 10, 4, 10), (1320, 10, 4, 10), (1504, 16, 2, 2)],
        84,
    ),
];

// Nine uncorrectable words of an LDU2.
const SYNC_BEYOND: [Damage; 3] = [(1136, 10, 4, 10), (1320, 10, 4, 10), (430, 0, 1, 10)];

// Each field of an LDU2 uncorrectable by itself, and all together.
const LDU2_FAILING: [(&[Damage], &[Field]); 4] = [
    (&SYNC_BEYOND, &[Field::EncryptionSync]),
    (&LOW_1, &[Field::LowSpeed1]),
    (&LOW_2, &[Field::LowSpeed2]),
    (
        &[
            (1136, 10, 4, 10),
            (1320, 10, 4, 10),
            (430, 0, 1, 10),
            (1516, 0, 1, 1),
            (1518, 0, 1, 2),
            (1532, 0, 1, 1),
            (1534, 0, 1, 2),
        ],
        &[Field::EncryptionSync, Field::LowSpeed1, Field::LowSpeed2],
    ),
];

// A TDULC undamaged; three bits of each word, and the zeros after them; three words inverted to other ones; six
// uncorrectable words.
const TDULC_READ: [(&[Damage], u32); 4] = [
    (&[], 0),
    (&[(112, 24, 12, 3), (400, 0, 1, 20)], 36),
    (&[(112, 24, 3, 24)], 72),
    (&[(116, 24, 6, 4)], 24),
];

// Seven uncorrectable words of a TDULC.
const TDULC_FAILING: [(&[Damage], &[Field]); 1] = [(&[(116, 24, 7, 4)], &[Field::LinkControl])];

#[test]
fn damaged_hdu(rt: HostRuntime) {
    for octet in [0, 0xA7] {
        assert!(rt; are_read(&hdu(octet), &HDU_READ));
        assert!(rt; are_failing(&hdu(octet), &HDU_FAILING));
    }
}

#[test]
fn damaged_ldu1(rt: HostRuntime) {
    assert!(rt; are_read(&ldu1(0x35), &LDU1_READ));
    assert!(rt; are_failing(&ldu1(0x35), &LDU1_FAILING));
}

#[test]
fn damaged_ldu2(rt: HostRuntime) {
    assert!(rt; are_read(&ldu2(), &LDU2_READ));
    assert!(rt; are_failing(&ldu2(), &LDU2_FAILING));
}

#[test]
fn damaged_tdu_and_tdulc(rt: HostRuntime) {
    assert!(rt; are_read(&tdulc(), &TDULC_READ));
    assert!(rt; are_failing(&tdulc(), &TDULC_FAILING));
    assert!(rt; are_read(&VoiceUnit::End, &[(&[(0, 0, 1, 140)], 0)]));
    assert!(rt; voice_length(7).is_none());
}

#[test]
fn voice_is_answered_as_received(rt: HostRuntime) {
    assert!(rt; is_read_as(&ldu1(0x35), &[(1536, 0, 1, 4)], &ldu1(0xC5), 0, &[]));
}
