//! Values from outside: whole scripts of stations through `run`, and reads and writes that fail.

mod duplex;
mod faults;
mod fragments;
mod stations;

use p25_io::{MemorySource, Sink, SliceSink};
use p25_tool::{Outcome, Words, run};
use std::alloc::Global;

// A call on a script: its word, its octets, the number of them that a read returns, the numbers of the read and of the
// write that fail, none if it is 0, and the number of octets that the sink takes.
#[derive(Clone, Copy)]
struct Call<'a> {
    word: &'a [u8],
    script: &'a [u8],
    piece: usize,
    failing_read: u64,
    failing_write: u64,
    room: usize,
}

// A call in which nothing fails.
fn calm<'a>(word: &'a [u8], script: &'a [u8], piece: usize) -> Call<'a> {
    Call {
        word,
        script,
        piece,
        failing_read: 0,
        failing_write: 0,
        room: 32_768,
    }
}

// Whether a call ends so, with this output.
fn ends(alloc: Global, call: &Call, outcome: Outcome, text: &[u8]) -> bool {
    let mut words = Words::new();
    words.add(call.word);
    let (read_fails, write_fails) = ([call.failing_read], [call.failing_write]);
    let mut source = MemorySource::new(call.script, call.piece.max(1), &read_fails);
    let mut room = [0; 32_768];
    let mut sink = SliceSink::new(&mut room[..call.room.min(32_768)], &write_fails);
    run(alloc, &words, &mut source, &mut sink) == outcome && sink.written() == text
}

// Writes parts one after the other, and returns whether there is capacity for them.
fn are_joined(parts: &[&[u8]], sink: &mut SliceSink) -> bool {
    for part in parts {
        if sink.write(part).is_err() {
            return false;
        }
    }
    true
}

// A script: its name, its lines and the output for them, each in parts.
type Row = (
    &'static str,
    &'static [&'static [u8]],
    &'static [&'static [u8]],
);

// Whether a command ends a script as done with this output, read in chunks of 1, of 2, of 7 and of all octets.
fn tells(alloc: Global, word: &[u8], row: &Row) -> bool {
    let (mut script_room, mut text_room) = ([0; 16_384], [0; 32_768]);
    let mut script = SliceSink::new(&mut script_room, &[]);
    let mut text = SliceSink::new(&mut text_room, &[]);
    let mut is_told = are_joined(row.1, &mut script) && are_joined(row.2, &mut text);
    for piece in [1, 2, 7, 8_192] {
        let call = calm(word, script.written(), piece);
        is_told = is_told && ends(alloc, &call, Outcome::Done, text.written());
    }
    is_told
}
