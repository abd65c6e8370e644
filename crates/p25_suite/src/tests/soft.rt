//! Soft recordings: data units built from lines, their levels changed, and the output of `soft` and `show` for them in
//! chunks of 1, of 3 and of all octets.

ghost use Rattle.std.specs.Prelude.{◌≡◌, length};

use super::{build, words_of};
use p25_io::{MemorySource, SliceSink, SteadySource};
use p25_tool::{Outcome, run};
use std::alloc::Global;

// A data unit: the purpose of the row, its line, the number of bits 0 before it, the levels that become other octets,
// the output of `show` for the hard bits, whether the output is the transmitted bits, and the octets of these that
// differ in it.
type Row = (
    &'static str,
    &'static [u8],
    usize,
    &'static [(usize, u8)],
    &'static [u8],
    bool,
    &'static [(usize, u8)],
);

// The line of a confirmed packet (PDU).
const CONFIRMED: &[u8] =
    b"confirmed nac=293 head=56c00000000181000800 blocks=00:00000000000000000000000000000000";

const ROWS: [Row; 7] = [
    (
        "a block is read from its levels",
        CONFIRMED,
        0,
        &[(164, 255), (165, 0)],
        b"broken at=0 bits=576 nac=293 duid=c fields=block.0\n",
        true,
        &[],
    ),
    (
        "a block whose nearest path fails too becomes that path",
        CONFIRMED,
        0,
        &[(164, 224), (165, 32)],
        b"broken at=0 bits=576 nac=293 duid=c fields=block.0\n",
        true,
        &[(41, 0x82), (48, 0xC8)],
    ),
    (
        "only the block that fails is read from its levels",
        b"confirmed nac=293 head=56c00000000182000800 blocks=00:00000000000000000000000000000000,01:00000000000000000000000000000000",
        0,
        &[(265, 255), (266, 0)],
        b"broken at=0 bits=720 nac=293 duid=c fields=block.1\n",
        true,
        &[],
    ),
    (
        "both blocks of a packet whose CRC fails are read from their levels",
        b"plain nac=293 head=35c00000000182000000 octets=0000000000000000000000000000000000000000",
        0,
        &[
            (158, 255),
            (159, 0),
            (185, 255),
            (259, 255),
            (260, 0),
            (285, 255),
        ],
        b"broken at=0 bits=720 nac=293 duid=c fields=packet_crc\n",
        true,
        &[],
    ),
    (
        "a block behind two bits is read from its levels",
        CONFIRMED,
        2,
        &[(165, 255), (166, 0)],
        b"gap at=0 bits=2\nbroken at=2 bits=576 nac=293 duid=c fields=block.0\ngap at=578 bits=6\n",
        true,
        &[],
    ),
    (
        "a block at an odd place stays as it is",
        CONFIRMED,
        1,
        &[(164, 96), (165, 0)],
        b"gap at=0 bits=1\nbroken at=1 bits=576 nac=293 duid=c fields=block.0\ngap at=577 bits=7\n",
        false,
        &[],
    ),
    (
        "a broken voice unit stays as it is",
        b"tdulc nac=293 lc=ffffffffffffffffff",
        0,
        &[],
        b"broken at=0 bits=432 nac=293 duid=f fields=link_control\n",
        false,
        &[],
    ),
];

// The octet of a dibit's level: 32, 96, -32 and -96 in two's complement.
fn level_of(dibit: u8) -> u8 {
    match dibit {
        0 => 32,
        1 => 96,
        2 => 224,
        _ => 160,
    }
}

// The dibit whose level is nearest to the octet of a level.
fn dibit_of(level: u8) -> u8 {
    match level {
        0..=63 => 0,
        64..=127 => 1,
        192..=255 => 2,
        _ => 3,
    }
}

// Inserts a number of bits 0 before octets.
fn shifted(octets: &[u8; 128], shift: usize) -> [u8; 128]
    ensures { length result ≡ 128 }
{
    let mut out = [0; 128];
    for place in 0..1024 {
        if place >= shift && shift < 8 {
            let from = place - shift;
            let bit = (octets[from / 8] >> (7 - from % 8)) & 1;
            out[place / 8] |= bit << (7 - place % 8);
        }
    }
    out
}

// The octets of the levels of octets.
fn levels_of(octets: &[u8; 128]) -> [u8; 512]
    ensures { length result ≡ 512 }
{
    let mut levels = [0; 512];
    for i in 0..512 {
        levels[i] = level_of((octets[i / 4] >> (6 - 2 * (i % 4))) & 3);
    }
    levels
}

// The octets of the dibits whose levels are nearest to the given ones.
fn hard_of(levels: &[u8; 512]) -> [u8; 128]
    ensures { length result ≡ 128 }
{
    let mut octets = [0; 128];
    for i in 0..512 {
        octets[i / 4] |= dibit_of(levels[i]) << (6 - 2 * (i % 4));
    }
    octets
}

// Whether a command of one word ends as done with this output, in chunks of 1, of 3 and of all octets.
fn does(alloc: Global, word: &[u8], input: &[u8], output: &[u8]) -> bool {
    for piece in [1, 3, 8_192] {
        let mut source = SteadySource::new(input, piece);
        let mut room = [0; 256];
        let mut sink = SliceSink::new(&mut room, &[]);
        if run(alloc, &words_of(&[word]), &mut source, &mut sink) != Outcome::Done
            || sink.written() != output
        {
            return false;
        }
    }
    true
}

// Whether a row holds. A voice data unit is broken by six words of zeros after its NID.
fn holds(alloc: Global, row: &Row) -> bool {
    let mut room = [0; 128];
    let size = build(alloc, b"0", row.1, &mut room).min(128) + row.2.min(1);
    if size > 128 || size < 20 {
        return false;
    }
    let mut sent = shifted(&room, row.2);
    let mut levels = levels_of(&sent);
    for (place, level) in row.3 {
        if let Some(octet) = levels.get_mut(*place) {
            *octet = *level;
        }
    }
    if row.3.len() == 0 {
        for octet in &mut levels[58..130] {
            *octet = 0;
        }
    }
    let hard = hard_of(&levels);
    if !does(alloc, b"show", &hard[..size], row.4) {
        return false;
    }
    for (place, octet) in row.6 {
        if let Some(other) = sent.get_mut(*place) {
            *other = *octet;
        }
    }
    if row.5 {
        does(alloc, b"soft", &levels[..4 * size], &sent[..size])
    } else {
        does(alloc, b"soft", &levels[..4 * size], &hard[..size])
    }
}

#[test]
fn blocks_and_their_levels(rt: HostRuntime) {
    for row in &ROWS {
        assert!(rt; holds(rt.alloc(), row));
    }
}

// A terminator (TDU) of NAC 0 with both status symbols 1.
const TERMINATOR: [u8; 18] = [
    0x55, 0x75, 0xF5, 0xFF, 0x77, 0xFF, 0x00, 0x03, 0x35, 0x93, 0x0B, 0xDD, 0x3B, 0x2B, 0, 0, 0, 1,
];

// The levels of a terminator (TDU).
fn terminator_levels() -> [u8; 512]
    ensures { length result ≡ 512 }
{
    let mut octets = [0; 128];
    octets[..18].copy_from_slice(&TERMINATOR);
    levels_of(&octets)
}

// Whether this is the output of `soft` for the first `count` of its levels.
fn comes_of(alloc: Global, count: usize, output: &[u8]) -> bool {
    let levels = terminator_levels();
    does(alloc, b"soft", &levels[..count.min(512)], output)
}

// Whether a read of 75 of its levels that fails ends the call, after this number of octets.
fn ends_at_a_fault(alloc: Global, call: u64, count: usize) -> bool {
    let levels = terminator_levels();
    let some = levels.len().min(75);
    let fails = [call];
    let mut source = MemorySource::new(&levels[..some], 1, &fails);
    let mut room = [0; 32];
    let mut sink = SliceSink::new(&mut room, &[]);
    run(alloc, &words_of(&[b"soft"]), &mut source, &mut sink) == Outcome::ReadFault
        && sink.written() == &TERMINATOR[..count.min(18)]
}

#[test]
fn a_terminator_and_its_first_levels(rt: HostRuntime) {
    assert!(rt; comes_of(rt.alloc(), 72, &TERMINATOR));
    // The last group is filled by the dibit 00.
    let mut filled = TERMINATOR;
    filled[17] = 0;
    assert!(rt; comes_of(rt.alloc(), 70, &filled));
    assert!(rt; comes_of(rt.alloc(), 0, &[]));
}

// After a read fault only the output that whole groups of four levels determine is written, and nothing is filled.
#[test]
fn a_read_fails(rt: HostRuntime) {
    // Rows: the read that fails, and the number of octets written before.
    for (call, count) in [(1, 0), (71, 0), (72, 0), (73, 18), (75, 18)] {
        assert!(rt; ends_at_a_fault(rt.alloc(), call, count));
    }
}
