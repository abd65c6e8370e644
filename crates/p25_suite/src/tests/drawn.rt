//! Drawn data units (HDU, LDU1, LDU2, TDU, TDULC and PDU): a line of a drawn type with drawn values, its image, and
//! that image with bit errors at drawn positions, as few as the codes of the data unit correct. Each type after noise,
//! and 200 data units end to end, are shown and repaired as transmitted.

ghost use Rattle.std.specs.Prelude.{◌<◌};

use super::{build, change_bit, put_named, put_short, words_of, writes};
use p25_bits::BitBuf;
use p25_io::{Sink, SliceSink, SteadySource};
use p25_line::Line;
use p25_tool::{Outcome, run};
use std::alloc::Global;

// Words of a data unit: the first position, the distance to the next, their number, the number of bits of each, the
// most bit errors of each, and the number of words with any number of bit errors. Positions count the bits of a data
// unit without its status symbols.
type Damage = (u16, u16, u16, u16, u16, u16);

// A type of data unit: its line with a question mark for each drawn digit, whether the digits of nine voice frames end
// it, and the possible bit errors after its network identifier (NID).
type Kind = (&'static [u8], bool, &'static [Damage]);

// The possible bit errors of an LDU1 after sync and NID.
const LINK_1: [Damage; 7] = [
    (400, 10, 4, 10, 1, 1),
    (584, 10, 4, 10, 1, 1),
    (768, 10, 4, 10, 1, 1),
    (952, 10, 4, 10, 1, 1),
    (1136, 10, 4, 10, 1, 1),
    (1320, 10, 4, 10, 1, 1),
    (1504, 16, 2, 16, 2, 0),
];

// The possible bit errors of an LDU2 after sync and NID.
const LINK_2: [Damage; 7] = [
    (400, 10, 4, 10, 1, 2),
    (584, 10, 4, 10, 1, 0),
    (768, 10, 4, 10, 1, 1),
    (952, 10, 4, 10, 1, 0),
    (1136, 10, 4, 10, 1, 1),
    (1320, 10, 4, 10, 1, 0),
    (1504, 16, 2, 16, 2, 0),
];

const KINDS: [Kind; 8] = [
    (
        b"hdu nac=??? mi=?????????????????? mfid=?? algid=?? kid=???? tgid=????",
        false,
        &[(112, 18, 36, 18, 3, 8)],
    ),
    (
        b"ldu1 nac=??? lc=?????????????????? lsd=???? voice=",
        true,
        &LINK_1,
    ),
    (
        b"ldu2 nac=??? mi=?????????????????? algid=?? kid=???? lsd=???? voice=",
        true,
        &LINK_2,
    ),
    (b"tdu nac=???", false, &[]),
    (
        b"tdulc nac=??? lc=??????????????????",
        false,
        &[(112, 24, 12, 24, 3, 3)],
    ),
    (
        b"confirmed nac=??? head=56c000??????82000800 blocks=0?:????????????????????????????????,1?:????????????????????????????????",
        false,
        &[(112, 0, 1, 196, 2, 0), (308, 196, 2, 196, 1, 0)],
    ),
    (
        b"plain nac=??? head=35c000??????81000000 octets=????????????????",
        false,
        &[(112, 0, 1, 196, 2, 0), (308, 0, 1, 196, 2, 0)],
    ),
    (
        b"response nac=??? head=238000??????81000000 octets=????????????????",
        false,
        &[(112, 0, 1, 196, 2, 0), (308, 0, 1, 196, 2, 0)],
    ),
];

// The sync and the network identifier (NID), the last bit of which is free.
const FRONT: [Damage; 2] = [(0, 0, 1, 48, 4, 0), (48, 0, 1, 63, 11, 0)];

// Drawn numbers: a linear congruence of 64 bits, of which the upper ones are returned.
#[derive(Drop)]
struct Draw {
    state: u64,
}

impl Draw {
    fn new(seed: u64) -> Draw {
        Draw { state: seed }
    }

    // A number below a bound.
    fn below(&mut self, bound: u64) -> u64
        requires { 0 < bound }
        ensures { result < bound }
    {
        self.state = self
            .state
            .wrapping_mul(6_364_136_223_846_793_005)
            .wrapping_add(1_442_695_040_888_963_407);
        (self.state >> 33) % bound
    }
}

// A drawn data unit: its line, its status symbol, its image and that image with bit errors, their number of octets, and
// the number of bit errors.
#[derive(Drop)]
struct Drawn {
    line: Line,
    symbol: u8,
    sent: [u8; 256],
    came: [u8; 256],
    size: usize,
    wrong: u64,
}

impl Drawn {
    fn sent(&self) -> &[u8] {
        self.sent.get(..self.size).unwrap_or(&[])
    }

    fn came(&self) -> &[u8] {
        self.came.get(..self.size).unwrap_or(&[])
    }

    // The output of `show` for the data unit at a position, with a number of fixes.
    fn shown(&self, place: u64, fixes: u64) -> Line {
        let mut text = Line::new();
        put_named(&mut text, b"unit at=", place);
        put_named(&mut text, b" bits=", 8 * self.size.min(256) as u64);
        put_named(&mut text, b" fix=", fixes);
        put_short(&mut text, b" status=");
        for _ in 0..self.size.min(256) / 9 {
            put_short(&mut text, &[self.symbol]);
        }
        put_short(&mut text, b" ");
        put_short(&mut text, self.line.octets());
        put_short(&mut text, b"\n");
        text
    }
}

fn put_drawn(line: &mut Line, octet: u8, draw: &mut Draw) {
    let digit = draw.below(16);
    if octet == b'?' && digit < 10 {
        put_short(line, &[b'0' + digit as u8]);
    } else if octet == b'?' {
        put_short(line, &[b'a' + (digit as u8 - 10)]);
    } else {
        put_short(line, &[octet]);
    }
}

// The line of a data unit of a type.
fn line_of(kind: &Kind, draw: &mut Draw) -> Line {
    let mut line = Line::new();
    for octet in kind.0 {
        put_drawn(&mut line, *octet, draw);
    }
    if kind.1 {
        for _ in 0..324 {
            put_drawn(&mut line, b'?', draw);
        }
    }
    line
}

// Inverts `wrong` bits of a word at drawn positions: each position is equally probable.
fn damage_word(unit: &mut [u8], first: usize, width: u16, wrong: u64, draw: &mut Draw)
    requires { first < 30000 }
{
    let mut left = wrong;
    for i in 0..width {
        if draw.below(u64::from(width - i)) < left {
            change_bit(unit, first + usize::from(i), None);
            left -= 1;
        }
    }
}

// The number of bit errors of a word: any number in a lost word, otherwise as many as possible, or fewer if they are
// drawn.
fn wrong_in(words: &Damage, lost: bool, full: bool, draw: &mut Draw) -> u64 {
    let (_, _, _, width, most, _) = *words;
    if lost {
        draw.below(u64::from(width) + 1)
    } else if full {
        u64::from(most)
    } else {
        draw.below(u64::from(most) + 1)
    }
}

// Damages some words, and returns the number of bit errors.
fn damage_words(unit: &mut [u8], words: &Damage, full: bool, draw: &mut Draw) -> u64 {
    let (first, step, count, width, _, lost) = *words;
    let mut lost = u64::from(lost);
    let mut all: u64 = 0;
    for i in 0..count {
        let is_lost = draw.below(u64::from(count - i)) < lost;
        if is_lost {
            lost -= 1;
        }
        let wrong = wrong_in(words, is_lost, full, draw);
        let place = usize::from(first) + usize::from(i) * usize::from(step);
        if place < 30_000 {
            damage_word(unit, place, width, wrong, draw);
        }
        all = all.saturating_add(wrong);
    }
    all
}

// A data unit of a type, with as many bit errors as possible in its sync, its network identifier (NID) and its words,
// or with drawn numbers of them. The last bit of the NID is wrong.
fn draw_unit(alloc: Global, kind: &Kind, full: bool, draw: &mut Draw) -> Drawn {
    let line = line_of(kind, draw);
    let symbol = b'0' + draw.below(4) as u8;
    let mut sent = [0; 256];
    let size = build(alloc, &[symbol], line.octets(), &mut sent);
    let mut came = sent;
    let mut wrong: u64 = 0;
    for words in FRONT.iter().chain(kind.2) {
        wrong = wrong.saturating_add(damage_words(&mut came, words, full, draw));
    }
    change_bit(&mut came, 111, None);
    Drawn {
        line,
        symbol,
        sent,
        came,
        size,
        wrong,
    }
}

// Appends a small number of equal bits.
fn put_bits(bits: &mut BitBuf, bit: bool, count: u32) {
    for _ in 0..count {
        if bits.len() < 4_000 {
            bits.push(bit);
        }
    }
}

// Octets after a number of bits 1, with zeros after them up to a whole octet.
fn behind(noise: u32, octets: &[u8], out: &mut [u8; 257])
    requires { noise < 8 }
{
    let mut bits = BitBuf::new();
    put_bits(&mut bits, true, noise);
    for octet in octets {
        if bits.len() < 4_000 {
            bits.put_field(u64::from(*octet), 8);
        }
    }
    put_bits(&mut bits, false, 8 - noise);
    for (i, octet) in out.iter_mut().enumerate() {
        if 8 * i + 8 <= bits.len() {
            *octet = bits.field(8 * i, 8) as u8;
        }
    }
}

// The output of `show` for a data unit after noise.
fn shown_behind(noise: u32, unit: &Drawn, fixes: u64) -> Line
    requires { noise < 8 }
{
    let size = unit.size.min(256) as u64;
    let mut text = Line::new();
    put_named(&mut text, b"gap at=0 bits=", u64::from(noise));
    put_short(&mut text, b"\n");
    put_short(&mut text, unit.shown(u64::from(noise), fixes).octets());
    put_named(&mut text, b"gap at=", u64::from(noise) + 8 * size);
    put_named(&mut text, b" bits=", u64::from(8 - noise));
    put_short(&mut text, b"\n");
    text
}

// Whether a data unit after noise is shown and repaired, and then shown without fixes.
fn is_found(alloc: Global, noise: u32, unit: &Drawn) -> bool
    requires { noise < 8 }
{
    let mut came = [0; 257];
    let mut sent = [0; 257];
    behind(noise, unit.came(), &mut came);
    behind(noise, unit.sent(), &mut sent);
    let size = unit.size.min(256) + 1;
    let damaged = shown_behind(noise, unit, unit.wrong);
    let undamaged = shown_behind(noise, unit, 0);
    writes(alloc, &[b"show"], &came[..size], damaged.octets())
        && writes(alloc, &[b"repair"], &came[..size], &sent[..size])
        && writes(alloc, &[b"show"], &sent[..size], undamaged.octets())
}

// Whether drawn data units of a type are found, each after one more bit of noise.
fn are_found(alloc: Global, kind: &Kind, draw: &mut Draw) -> bool {
    let mut all = true;
    for noise in 1..8_u32 {
        let unit = draw_unit(alloc, kind, true, draw);
        all = all && unit.size > 0 && is_found(alloc, noise, &unit);
    }
    all
}

#[test]
fn each_kind_at_its_radius_behind_noise(rt: HostRuntime) {
    let mut draw = Draw::new(25);
    for kind in &KINDS {
        assert!(rt; are_found(rt.alloc(), kind, &mut draw));
    }
}

// Whether a command ends as done with this output.
fn gives(alloc: Global, word: &[u8], input: &[u8], output: &[u8]) -> bool {
    let mut source = SteadySource::new(input, 4_096);
    let mut room = [0; 65_536];
    let mut sink = SliceSink::new(&mut room, &[]);
    run(alloc, &words_of(&[word]), &mut source, &mut sink) == Outcome::Done
        && sink.written() == output
}

// Whether drawn data units of all types, end to end, each with bit errors at drawn positions, are shown and repaired as
// transmitted.
fn all_read_back(alloc: Global, seed: u64, count: usize) -> bool {
    let mut draw = Draw::new(seed);
    let (mut sent_room, mut came_room, mut text_room) = ([0; 32_768], [0; 32_768], [0; 65_536]);
    let mut sent = SliceSink::new(&mut sent_room, &[]);
    let mut came = SliceSink::new(&mut came_room, &[]);
    let mut text = SliceSink::new(&mut text_room, &[]);
    let (mut fits, mut place) = (true, 0_u64);
    for _ in 0..count {
        let kind = KINDS
            .get(draw.below(8) as usize)
            .copied()
            .unwrap_or(KINDS[0]);
        let unit = draw_unit(alloc, &kind, false, &mut draw);
        fits = fits
            && unit.size > 0
            && text.write(unit.shown(place, unit.wrong).octets()).is_ok()
            && sent.write(unit.sent()).is_ok()
            && came.write(unit.came()).is_ok();
        place = place.saturating_add(8 * unit.size.min(256) as u64);
    }
    fits && gives(alloc, b"show", came.written(), text.written())
        && gives(alloc, b"repair", came.written(), sent.written())
}

#[test]
fn two_hundred_drawn_units_are_read_back(rt: HostRuntime) {
    for seed in [1, 2, 3, 293, 4_095] {
        assert!(rt; all_read_back(rt.alloc(), seed, 200));
    }
}
