//! Units of zeros whose soft symbols are moved. The expected octets are from a program that shares no code with this one.

ghost use Rattle.std.specs.Prelude.{◌≡◌, length};

use super::{decide_unit, level_cost};
use p25_bits::BitBuf;
use p25_link::{EncryptionSync, HeaderWord, LinkControl};
use p25_soft::nominal;
use p25_status::{Status, Statuses, weave};
use p25_voice_units::{
    HDU_WORDS, LDU_WORDS, LOW_WORDS, TDULC_WORDS, Voice, VoiceFrame, VoiceUnit, voice_image,
    voice_length,
};

// Codewords of least weight of each inner code, by their dibits.
const SHORT_GOLAY: [u8; 9] = [1, 0, 2, 2, 2, 1, 1, 2, 1];

const GOLAY: [u8; 12] = [0, 0, 1, 0, 2, 2, 2, 1, 1, 2, 0, 1];

const HAMMING: [u8; 5] = [0, 1, 2, 1, 0];

const LOW: [u8; 8] = [0, 1, 1, 1, 0, 0, 1, 2];

// The most soft symbols of a unit.
const MOST: usize = 864;

// Soft symbols of some inner codewords of zeros are moved to a codeword: from the first word to the one before the last, the soft symbols of the dibits
// that are 01 in the codeword, and those that are 10.
#[derive(Clone, Copy)]
struct Moved<'a> {
    places: &'a [usize],
    codeword: &'a [u8],
    words: (usize, usize),
    levels: (i8, i8),
}

// A unit by its number, its inner words that are moved and their soft symbols, and the octets of the output from a position on; all others stay.
type Row<'a> = (usize, (usize, usize), (i8, i8), usize, &'a [u8]);

// A unit of zeros, by its number in a row.
fn unit_of(unit: usize) -> VoiceUnit {
    let voice = Voice::new([VoiceFrame([0; 18]); 9]);
    let link = LinkControl([0; 9]);
    let low = [0; 2];
    match unit {
        0 => VoiceUnit::Header(HeaderWord {
            mi: [0; 9],
            mfid: 0,
            algid: 0,
            kid: 0,
            tgid: 0,
        }),
        1 => VoiceUnit::Link1 { link, low, voice },
        2 => VoiceUnit::Link2 {
            sync: EncryptionSync {
                mi: [0; 9],
                algid: 0,
                kid: 0,
            },
            low,
            voice,
        },
        3 => VoiceUnit::EndLink { link },
        _ => VoiceUnit::End,
    }
}

// A unit as it is transmitted, with the network access code (NAC) 0 and the status symbol 1 throughout.
fn sent(unit: &VoiceUnit) -> BitBuf {
    let mut bare = BitBuf::new();
    voice_image(0, unit, &mut bare);
    let status = Status::new(1).unwrap_or_default();
    let statuses = Statuses::filled(status, (bare.len() / 70).min(360));
    let mut raw = BitBuf::new();
    if 70 * statuses.len() == bare.len() {
        weave(&bare, &statuses, &mut raw);
    }
    raw
}

// The nominal soft symbols of a unit.
fn levels_of(raw: &BitBuf) -> [i8; MOST]
    ensures { length result ≡ 864 }
{
    let mut levels = [0; MOST];
    for i in 0..MOST {
        if 2 * i + 2 <= raw.len() {
            levels[i] = nominal(raw.field(2 * i, 2) as u8);
        }
    }
    levels
}

// Sets the soft symbols of an inner word at a position.
fn move_word(levels: &mut [i8], at: usize, moved: &Moved) {
    for (i, dibit) in moved.codeword.iter().enumerate() {
        if at >= 2000 || i >= 12 {
            return;
        }
        let place = at / 2 + i;
        let place = place + place / 35;
        if place < levels.len() && *dibit == 1 {
            levels[place] = moved.levels.0;
        }
        if place < levels.len() && *dibit == 2 {
            levels[place] = moved.levels.1;
        }
    }
}

// Decides a unit of zeros by soft symbols that are moved.
fn decided(unit: &VoiceUnit, moved: &Moved) -> BitBuf {
    let mut raw = sent(unit);
    let mut levels = levels_of(&raw);
    for i in moved.words.0..moved.words.1 {
        if i < moved.places.len() {
            move_word(&mut levels, moved.places[i], moved);
        }
    }
    let count = (raw.len() / 2).min(MOST);
    let levels = &levels[..count];
    if let Some(bare) = voice_length(unit.duid()) {
        if bare == 70 * (count / 36) && 36 * (count / 36) == count && raw.len() == 2 * count {
            decide_unit(unit.duid(), levels, &mut raw);
        }
    }
    raw
}

// Whether a unit of zeros comes out as a row says, with inner words at positions moved to a codeword.
fn comes_out(places: &[usize], codeword: &[u8], row: &Row) -> bool {
    let (unit, words, levels, from, octets) = *row;
    let unit = unit_of(unit);
    let moved = Moved {
        places,
        codeword,
        words,
        levels,
    };
    let (before, after) = (sent(&unit), decided(&unit, &moved));
    if before.len() != after.len() || before.len() % 8 != 0 || before.is_empty() {
        return false;
    }
    for i in 0..before.len() / 8 {
        let was = before.field(8 * i, 8) as u8;
        let inside = i >= from && i - from < octets.len();
        let wanted = if inside { octets[i - from] } else { was };
        if after.field(8 * i, 8) as u8 != wanted {
            return false;
        }
    }
    true
}

// Half way between two codewords, which then cost the same, and past that.
const HALF: (i8, i8) = (64, 0);

const BEYOND: (i8, i8) = (65, -1);

#[test]
fn terminators(rt: HostRuntime) {
    // All words half way; four past half way, which are erased; five, which stay as decoded; four that the soft symbols are sure of, erased by
    // position, and four that are not.
    let rows: [Row; 6] = [
        (3, (0, 12), HALF, 0, &[]),
        (3, (0, 4), BEYOND, 0, &[]),
        (
            3,
            (0, 5),
            BEYOND,
            13,
            &[
                0x87, 0x01, 0x2A, 0x58, 0x41, 0x4A, 0x96, 0x10, 0x4A, 0x96, 0x10, 0x4A, 0x96, 0x11,
                0x12, 0xA5, 0x84, 0x00, 0x00, 0x00, 0x00, 0x00, 0x01, 0x00, 0x00, 0x00, 0x00, 0x00,
                0x00, 0x00, 0x00, 0x01, 0x00, 0x00, 0x00, 0x00, 0x00, 0x00, 0x00, 0x00, 0x01,
            ],
        ),
        (3, (0, 4), (96, -32), 0, &[]),
        (
            3,
            (8, 12),
            (96, -32),
            13,
            &[
                0x87, 0x00, 0x00, 0x00, 0x01, 0x00, 0x00, 0x00, 0x00, 0x00, 0x00, 0x00, 0x00, 0x01,
                0x00, 0x00, 0x00, 0x00, 0x00, 0x00, 0x00, 0x00, 0x01, 0x00, 0x00, 0x00, 0x04, 0xA9,
                0x61, 0x04, 0xA9, 0x61, 0x41, 0x2A, 0x58, 0x41, 0x2A, 0x58, 0x40, 0x00, 0x01,
            ],
        ),
        (4, (0, 1), BEYOND, 0, &[]),
    ];
    for row in &rows {
        assert!(rt; comes_out(&TDULC_WORDS, &GOLAY, row));
    }
}

#[test]
fn logical_links(rt: HostRuntime) {
    // All words half way; as many past half way as are corrected in an LDU1 and in an LDU2, and one more.
    let rows: [Row; 5] = [
        (1, (0, 24), HALF, 0, &[]),
        (1, (0, 8), BEYOND, 0, &[]),
        (
            1,
            (0, 9),
            BEYOND,
            51,
            &[
                0x06, 0x41, 0x91, 0x19, 0x06, 0x40, 0x00, 0x00, 0x00, 0x00, 0x00, 0x01, 0x00, 0x00,
                0x00, 0x00, 0x00, 0x00, 0x00, 0x00, 0x01, 0x00, 0x00, 0x00, 0x19, 0x06, 0x41, 0x90,
                0x64, 0x01, 0x00, 0x00, 0x00, 0x00, 0x00, 0x00, 0x00, 0x00, 0x01, 0x00, 0x00, 0x00,
                0x00, 0x00, 0x00, 0x00, 0x00, 0x01, 0x64,
            ],
        ),
        (2, (0, 5), BEYOND, 0, &[]),
        (
            2,
            (0, 6),
            BEYOND,
            51,
            &[
                0x06, 0x41, 0x91, 0x19, 0x06, 0x40, 0x00, 0x00, 0x00, 0x00, 0x00, 0x01, 0x00, 0x00,
                0x00, 0x00, 0x00, 0x00, 0x00, 0x00, 0x01, 0x00, 0x00, 0x00, 0x19, 0x06, 0x40,
            ],
        ),
    ];
    for row in &rows {
        assert!(rt; comes_out(&LDU_WORDS, &HAMMING, row));
    }
}

#[test]
fn headers(rt: HostRuntime) {
    // As many codewords past half way as are corrected, and one more.
    let rows: [Row; 2] = [
        (0, (0, 11), BEYOND, 0, &[]),
        (
            0,
            (0, 12),
            BEYOND,
            14,
            &[
                0x12, 0xA5, 0x94, 0xA9, 0x59, 0x4A, 0x96, 0x52, 0xA5, 0x94, 0xA9, 0x65, 0x29, 0x96,
                0x52, 0xA5, 0x94, 0xA9, 0x65, 0x2A, 0x59, 0x49, 0xA5, 0x94, 0xA9, 0x65, 0x2A, 0x59,
            ],
        ),
    ];
    for row in &rows {
        assert!(rt; comes_out(&HDU_WORDS, &SHORT_GOLAY, row));
    }
}

#[test]
fn low_speed_data(rt: HostRuntime) {
    // A codeword half way and past that.
    let rows: [Row; 3] = [
        (1, (0, 1), HALF, 0, &[]),
        (1, (0, 1), BEYOND, 193, &[0x05, 0x41, 0x80]),
        (2, (0, 1), BEYOND, 193, &[0x05, 0x41, 0x80]),
    ];
    for row in &rows {
        assert!(rt; comes_out(&LOW_WORDS, &LOW, row));
    }
}

#[test]
fn costs_of_levels(rt: HostRuntime) {
    // Rows: a level, a dibit and its cost.
    for (level, dibit, cost) in [
        (96, 1, 0),
        (96, 3, 9216),
        (-128, 1, 9216),
        (-128, 3, 1024),
        (0, 0, 1024),
        (-1, 0, 1089),
        (127, 0, 9025),
        (127, 2, 9216),
    ] {
        assert_eq!(rt; level_cost(level, dibit), cost);
    }
}
