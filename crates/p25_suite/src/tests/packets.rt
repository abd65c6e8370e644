//! Packets (PDU): built from a line, their blocks damaged or replaced, shown in chunks of 1, of 2, of 7 and of all
//! octets, and repaired.

ghost use Rattle.std.specs.Prelude.{◌<◌};

use super::{build, change_bit, put_named, reads_as, writes};
use p25_line::Line;
use std::alloc::Global;

// A change of some bits of a transmitted data unit. Positions count its bits without status symbols.
#[derive(Clone, Copy)]
enum Change {
    // This number of bits from a position on is inverted.
    Inverted(u16, u16),
    // The 196 bits of the block at a position become those of a block of zeros: 49 times 0010.
    Zeroed(u16),
}

use Change::{Inverted, Zeroed};

// A packet (PDU): the purpose of the row, its line, the change of its bits, and the output of `show`, which the line
// follows if the packet is whole.
type Row = (
    &'static str,
    &'static [u8],
    &'static [Change],
    &'static [u8],
);

const CONFIRMED: &[u8] =
    b"confirmed nac=293 head=56c00000000181000800 blocks=00:00000000000000000000000000000000";

const PLAIN: &[u8] = b"plain nac=293 head=35c00000000181000000 octets=0000000000000000";

const RESPONSE: &[u8] = b"response nac=293 head=23080000000180000000 octets=-";

const ROWS: [Row; 12] = [
    (
        "a response without blocks",
        RESPONSE,
        &[],
        b"unit at=0 bits=360 fix=0 status=00000 ",
    ),
    (
        "a confirmed packet without blocks, whose free bits are ones",
        b"confirmed nac=293 head=f6ffffffffff80ffffff blocks=-",
        &[],
        b"unit at=0 bits=360 fix=0 status=00000 ",
    ),
    (
        "a confirmed packet of a block with the highest serial",
        b"confirmed nac=293 head=56c00000000181000800 blocks=7f:ffffffffffffffffffffffffffffffff",
        &[],
        b"unit at=0 bits=576 fix=0 status=00000000 ",
    ),
    (
        "a plain packet of two blocks",
        b"plain nac=fff head=35c00000000102000000 octets=000102030405060708090a0b0c0d0e0f10111213",
        &[],
        b"unit at=0 bits=720 fix=0 status=0000000000 ",
    ),
    (
        "a plain packet with two wrong bits in its header and in its block",
        PLAIN,
        &[Inverted(112, 2), Inverted(308, 2)],
        b"unit at=0 bits=576 fix=4 status=00000000 ",
    ),
    (
        "a confirmed packet with a wrong bit in its block, and its nulls inverted",
        CONFIRMED,
        &[Inverted(308, 1), Inverted(504, 56)],
        b"unit at=0 bits=576 fix=1 status=00000000 ",
    ),
    (
        "a confirmed packet whose block is replaced",
        CONFIRMED,
        &[Zeroed(308)],
        b"broken at=0 bits=576 nac=293 duid=c fields=block.0",
    ),
    (
        "a confirmed packet of two blocks, both of which are replaced",
        b"confirmed nac=293 head=56c00000000182000800 blocks=00:00000000000000000000000000000000,01:00000000000000000000000000000001",
        &[Zeroed(308), Zeroed(504)],
        b"broken at=0 bits=720 nac=293 duid=c fields=block.0,block.1",
    ),
    (
        "a confirmed packet of two blocks, the second of which is replaced",
        b"confirmed nac=293 head=56c00000000182000800 blocks=05:00000000000000000000000000000000,01:00000000000000000000000000000001",
        &[Zeroed(504)],
        b"broken at=0 bits=720 nac=293 duid=c fields=block.1",
    ),
    (
        "a plain packet whose block is replaced",
        PLAIN,
        &[Zeroed(308)],
        b"broken at=0 bits=576 nac=293 duid=c fields=packet_crc",
    ),
    (
        "a response whose block is replaced",
        b"response nac=293 head=23800000000181000000 octets=f000000000000000",
        &[Zeroed(308)],
        b"broken at=0 bits=576 nac=293 duid=c fields=packet_crc",
    ),
    (
        "a response whose header is replaced",
        RESPONSE,
        &[Zeroed(112)],
        b"nounit at=0 field=packet_header\ngap at=1 bits=359",
    ),
];

// A packet (PDU) of the format 17 hex, with no blocks to follow.
const UNKNOWN_FORMAT: [u8; 45] = [
    0x55, 0x75, 0xF5, 0xFF, 0x77, 0xFF, 0x29, 0x3C, 0xD4, 0x82, 0xF8, 0x0A, 0xEC, 0xDC, 0x8A, 0x08,
    0x88, 0xB4, 0x22, 0x2F, 0x1E, 0xC5, 0x22, 0x22, 0x92, 0x22, 0x64, 0xC0, 0x88, 0x88, 0x88, 0x88,
    0xA7, 0x8C, 0x88, 0x88, 0xC2, 0x22, 0x22, 0xC0, 0x00, 0x00, 0x00, 0x00, 0x00,
];

// Changes a bit by a change.
fn change_at(octets: &mut [u8], change: Change, i: u16)
    requires { i < 10000 }
{
    match change {
        Inverted(first, count) => {
            if i < count {
                change_bit(octets, usize::from(first) + usize::from(i), None);
            }
        }
        Zeroed(first) => {
            if i < 196 {
                change_bit(
                    octets,
                    usize::from(first) + usize::from(i),
                    Some(i % 4 == 2),
                );
            }
        }
    }
}

fn changed(octets: &mut [u8], change: Change) {
    for i in 0..196 {
        change_at(octets, change, i);
    }
}

// Whether a row holds: its packet has this output of `show`, and is repaired if it is whole.
fn holds(alloc: Global, row: &Row) -> bool {
    let mut room = [0; 128];
    let size = build(alloc, b"0", row.1, &mut room);
    let sent = room;
    for change in row.2 {
        changed(&mut room, *change);
    }
    size > 0 && size <= 128 && reads_as(alloc, row.1, row.3, &sent[..size], &room[..size])
}

#[test]
fn packets(rt: HostRuntime) {
    for row in &ROWS {
        assert!(rt; holds(rt.alloc(), row));
    }
    let text = b"broken at=0 bits=360 nac=293 duid=c fields=format\n";
    assert!(rt; writes(rt.alloc(), &[b"show"], &UNKNOWN_FORMAT, text));
}

// The line of the largest packet (PDU): 127 blocks of zeros, in order.
fn largest_line() -> Line {
    let mut line = Line::new();
    line.put(b"confirmed nac=293 head=56c000000001ff000800 blocks=");
    for serial in 0..127_u8 {
        if line.len() <= 8_000 {
            if serial > 0 {
                line.put(b",");
            }
            line.put_hex(&[serial]);
            line.put(b":");
            line.put_hex(&[0; 16]);
        }
    }
    line
}

// The output of `show` for it.
fn largest_text(line: &Line) -> Line {
    let mut text = Line::new();
    text.put(b"unit at=0 bits=25920 fix=0 status=");
    text.put(&[b'0'; 360]);
    text.put(b" ");
    if line.len() <= 7_000 {
        text.put(line.octets());
    }
    text.put(b"\n");
    text
}

#[test]
fn the_largest_packet(rt: HostRuntime) {
    let line = largest_line();
    let mut room = [0; 4_096];
    assert!(rt; build(rt.alloc(), b"0", line.octets(), &mut room) == 3_240);
    let text = largest_text(&line);
    assert!(rt; writes(rt.alloc(), &[b"show"], &room[..3_240], text.octets()));
    assert!(rt; writes(rt.alloc(), &[b"repair"], &room[..3_240], &room[..3_240]));
    // A header whose blocks are not there.
    assert!(rt; writes(rt.alloc(), &[b"show"], &room[..45], b"cut at=0 bits=360\n"));
}

// The line of a packet of a format with a number of blocks of ones, in order.
fn line_of(confirmed: bool, line_kind: &[u8], count: u8) -> Line {
    let mut line = Line::new();
    if line_kind.len() <= 60 && count < 128 {
        line.put(line_kind);
        line.put_hex(&[128 + count]);
        line.put(if confirmed {
            b"000800 blocks="
        } else {
            b"000000 octets="
        });
    }
    if count == 0 && line.len() <= 200 {
        line.put(b"-");
    }
    for block in 0..count {
        put_block(confirmed, block, block + 1 == count, &mut line);
    }
    line
}

// Appends a block of ones to those before it, the last of a packet with a packet CRC without its last four octets.
fn put_block(confirmed: bool, block: u8, last: bool, line: &mut Line) {
    if line.len() > 8_000 {
        return;
    }
    if !confirmed {
        line.put_hex(if last { &[255; 8] } else { &[255; 12] });
        return;
    }
    if block > 0 {
        line.put(b",");
    }
    line.put_hex(&[block]);
    line.put(b":");
    line.put_hex(&[255; 16]);
}

// The output of `show` for a packet of a number of blocks without a bit error.
fn shown(line: &Line, count: u8) -> Line {
    let symbols = (112 + 196 * (1 + u64::from(count))).div_ceil(70);
    let mut text = Line::new();
    put_named(&mut text, b"unit at=0 bits=", 72 * symbols);
    put_named(&mut text, b" fix=", 0);
    if text.len() <= 1_000 {
        text.put(b" status=");
    }
    for _ in 0..symbols {
        if text.len() <= 1_000 {
            text.put(b"0");
        }
    }
    if text.len() <= 1_000 && line.len() <= 7_000 {
        text.put(b" ");
        text.put(line.octets());
        text.put(b"\n");
    }
    text
}

// Whether a packet of a format with a number of blocks is shown as its line.
fn is_shown(alloc: Global, confirmed: bool, line_kind: &[u8], count: u8) -> bool {
    let line = line_of(confirmed, line_kind, count);
    let mut room = [0; 4_096];
    let size = build(alloc, b"0", line.octets(), &mut room);
    let unit = room.get(..size).unwrap_or(&[]);
    writes(alloc, &[b"show"], unit, shown(&line, count).octets())
}

fn are_shown(alloc: Global, count: u8) -> bool {
    is_shown(alloc, true, b"confirmed nac=293 head=56c000000001", count)
        && is_shown(alloc, false, b"plain nac=293 head=35c000000001", count)
        && is_shown(alloc, false, b"response nac=293 head=238000000001", count)
}

#[test]
fn packets_of_each_number_of_blocks(rt: HostRuntime) {
    for count in [0, 1, 2, 126, 127] {
        assert!(rt; are_shown(rt.alloc(), count));
    }
}
