//! Values from outside, through `run`: the output of each command over recordings and lines, and each refusal.

mod calls;
mod damaged;
mod drawn;
mod faults;
mod follow;
mod order;
mod packets;
mod refusals;
mod relay;
mod rows;
mod samples;
mod scripts;
mod size;
mod soft;
mod voice;

ghost use Rattle.std.specs.Prelude.{◌≡◌, ◌<◌, length};

use p25_io::{MemorySource, SliceSink, SteadySource};
use p25_line::Line;
use p25_tool::{Outcome, Words, run};
use std::alloc::Global;

// The words of a call.
fn words_of(list: &[&[u8]]) -> Words {
    let mut words = Words::new();
    for word in list {
        words.add(word);
    }
    words
}

// A call: its words, its input, the number of octets that a read of it returns, and the numbers of the read and of the
// write that fail, none if it is 0.
#[derive(Clone, Copy)]
struct Call<'a> {
    words: &'a [&'a [u8]],
    input: &'a [u8],
    piece: usize,
    failing_read: u64,
    failing_write: u64,
}

// A call in which nothing fails.
fn calm<'a>(words: &'a [&'a [u8]], input: &'a [u8], piece: usize) -> Call<'a> {
    Call {
        words,
        input,
        piece,
        failing_read: 0,
        failing_write: 0,
    }
}

// Whether a call ends so, with this output.
fn ends(alloc: Global, call: &Call, outcome: Outcome, output: &[u8]) -> bool {
    let (read_fails, write_fails) = ([call.failing_read], [call.failing_write]);
    let mut source = MemorySource::new(call.input, call.piece.max(1), &read_fails);
    let mut room = [0; 4_096];
    let mut sink = SliceSink::new(&mut room, &write_fails);
    run(alloc, &words_of(call.words), &mut source, &mut sink) == outcome && sink.written() == output
}

// Writes the images of the data units of some lines, with one status symbol for all, and returns the number of octets:
// none if a line is refused.
fn build(alloc: Global, status: &[u8], lines: &[u8], room: &mut [u8]) -> usize
    ensures { length room.new ≡ length room.old }
{
    let mut source = SteadySource::new(lines, 4_096);
    let mut sink = SliceSink::new(room, &[]);
    match run(
        alloc,
        &words_of(&[b"build", status]),
        &mut source,
        &mut sink,
    ) {
        Outcome::Done => sink.written().len(),
        _ => 0,
    }
}

// Whether a command ends as done with this output, whatever the reads.
fn writes(alloc: Global, words: &[&[u8]], input: &[u8], output: &[u8]) -> bool {
    for piece in [1, 2, 7, 8_192] {
        let mut source = SteadySource::new(input, piece);
        let mut room = [0; 16_384];
        let mut sink = SliceSink::new(&mut room, &[]);
        if run(alloc, &words_of(words), &mut source, &mut sink) != Outcome::Done
            || sink.written() != output
        {
            return false;
        }
    }
    true
}

// Whether a transmitted data unit with changed bits is shown so, followed by its line if it is whole, and then
// repaired.
fn reads_as(alloc: Global, line: &[u8], said: &[u8], sent: &[u8], changed: &[u8]) -> bool {
    let whole = said.starts_with(b"unit");
    let mut text = Line::new();
    put_short(&mut text, said);
    put_short(&mut text, if whole { line } else { b"" });
    put_short(&mut text, b"\n");
    let repaired = if whole { sent } else { changed };
    writes(alloc, &[b"show"], changed, text.octets())
        && writes(alloc, &[b"repair"], changed, repaired)
}

// Replaces the bit of a transmitted data unit at a position without status symbols by the given bit, or inverts it.
fn change_bit(octets: &mut [u8], place: usize, told: Option<bool>)
    requires { place < 100000 }
{
    let sent = place + 2 * (place / 70);
    let mask = 128 >> (sent % 8);
    if let Some(octet) = octets.get_mut(sent / 8) {
        *octet = match told {
            Some(true) => *octet | mask,
            Some(false) => *octet & !mask,
            None => *octet ^ mask,
        };
    }
}

// Appends a name and its number to a text.
fn put_named(text: &mut Line, name: &[u8], number: u64) {
    if text.len() <= 4_000 && name.len() <= 20 {
        text.put(name);
        text.put_number(number);
    }
}

// Appends a text to another; both are short.
fn put_short(text: &mut Line, more: &[u8]) {
    if text.len() <= 4_000 && more.len() <= 4_000 {
        text.put(more);
    }
}

// Inverted bits: the first position, the distance to the next, the number of positions, and the number of bits at each.
// Positions count the bits of a data unit without its status symbols; that of the first bit of its sync is 0.
type Inverted = (u16, u16, u16, u16);

// Inverts a number of bits from a position on.
fn invert_run(octets: &mut [u8], first: usize, width: u16)
    requires { first < 30000 }
{
    for i in 0..usize::from(width) {
        change_bit(octets, first + i, None);
    }
}

// Inverts bits of a transmitted data unit.
fn invert(octets: &mut [u8], inverted: &Inverted) {
    let (first, step, places, width) = *inverted;
    for i in 0..usize::from(places) {
        let place = usize::from(first) + i * usize::from(step);
        if place < 30_000 {
            invert_run(octets, place, width);
        }
    }
}

// A data unit of the call: its line, whether nine voice frames of zeros end it, and the text of `show` before it.
type Part = (&'static [u8], bool, &'static [u8]);

const PARTS: [Part; 4] = [
    (
        b"hdu nac=293 mi=000000000000000000 mfid=00 algid=80 kid=0000 tgid=0001",
        false,
        b"unit at=0 bits=792 fix=0 status=11111111111 ",
    ),
    (
        b"ldu1 nac=293 lc=000000000001000001 lsd=0000 voice=",
        true,
        b"unit at=792 bits=1728 fix=0 status=111111111111111111111111 ",
    ),
    (
        b"ldu2 nac=293 mi=000000000000000000 algid=80 kid=0000 lsd=0000 voice=",
        true,
        b"unit at=2520 bits=1728 fix=0 status=111111111111111111111111 ",
    ),
    (
        b"tdulc nac=293 lc=000000000001000001",
        false,
        b"unit at=4248 bits=432 fix=0 status=111111 ",
    ),
];

// The lines of the first data units, as they are built from or as they are shown.
fn lines_of(count: usize, shown: bool) -> Line {
    let mut text = Line::new();
    for (line, voice, prefix) in PARTS.iter().take(count) {
        if text.len() <= 4_000 && line.len() <= 200 && prefix.len() <= 200 {
            if shown {
                text.put(prefix);
            }
            text.put(line);
            if *voice {
                text.put(&[b'0'; 324]);
            }
            text.put(b"\n");
        }
    }
    text
}
