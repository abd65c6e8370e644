//! Loops over any source and any sink, which are proved from the traits alone, and what they do at each type.
ghost use Rattle.std.specs.Prelude.{◌≡◌, ◌<◌, length, take, flat_map, IfOk, IfSome, OnOk, OnErr};
ghost use Rattle.p25_io.specs.{Faults.{HasCause}, Octets.{Taken, Appended, AppendedBeginning}};

use super::*;
use std::test::Fail;

#[test]
fn the_example_of_the_head(rt: HostRuntime) -> Result<(), Fail> {
    let mut source = SteadySource::new(b"octets", 4096);
    let mut room = [0; 8];
    let mut sink = SliceSink::new(&mut room, &[]);
    let mut buf = [0; 4];
    let count = source.read(&mut buf)?;
    sink.write(&buf[..count])?;
    assert_eq!(rt; sink.written(), b"octe".as_slice());
    Ok(())
}

// Reads to the end, or until the buffer is full.
pub(crate) fn gather<S: Source>(source: &mut S, room: &mut [u8]) -> Result<usize, Failed>
    ensures taken { IfOk result (λ count. Taken (S.left source.old) (take count room.new) (S.left source.new)) }
    ensures all { IfOk result (λ count. count < length room.new → IfSome (S.left source.old) (λ all. all ≡ take count room.new)) }
    ensures cause { HasCause (S.faults source.old) (S.faults source.new) result }
{
    let mut held = 0;
    while held < room.len() {
        let count = source.read(&mut room[held..])?;
        if count == 0 {
            return Ok(held);
        }
        held += count;
    }
    Ok(held)
}

// Writes chunk after chunk.
pub(crate) fn put_all<K: Sink>(sink: &mut K, pieces: &[&[u8]]) -> Result<(), Failed>
    ensures ok { OnOk result (Appended (K.written sink.old) (flat_map (λ piece. piece.now) pieces.now) (K.written sink.new)) }
    ensures err { OnErr result (AppendedBeginning (K.written sink.old) (flat_map (λ piece. piece.now) pieces.now) (K.written sink.new)) }
    ensures cause { HasCause (K.faults sink.old) (K.faults sink.new) result }
{
    for piece in pieces {
        sink.write(piece)?;
    }
    Ok(())
}

// The number of the failing call, the octets gathered by then, and the octets left.
const FAILING_CALLS: [(u64, Result<usize, Failed>, usize); 5] = [
    (1, Err(Failed), 5),
    (2, Err(Failed), 3),
    (3, Err(Failed), 1),
    (4, Err(Failed), 0),
    (5, Ok(5), 0),
];

// Whether this many octets are gathered and left, if this call fails.
fn is_gathered(number: u64, want: Result<usize, Failed>, left: usize) -> bool {
    let fails = [number];
    let mut source = MemorySource::new(b"abcde", 2, &fails);
    let mut room = [0; 8];
    gather(&mut source, &mut room) == want && source.rest().len() == left
}

#[test]
fn sources_in_memory(rt: HostRuntime) {
    for (number, want, left) in &FAILING_CALLS {
        assert!(rt; is_gathered(*number, *want, *left));
    }
}

#[test]
fn a_source_that_never_fails(rt: HostRuntime) {
    let mut source = SteadySource::new(b"abcde", 2);
    let mut room = [0; 4];
    let count = gather(&mut source, &mut room);
    assert!(rt; count == Ok(4) && &room == b"abcd" && source.rest() == b"e".as_slice());
}

// The size of the buffer, the number of the failing call, whether all is written, and what is written.
const ROOMS: [(usize, u64, bool, &[u8]); 5] = [
    (5, 0, true, b"abcde"),
    (4, 0, false, b"abcd"),
    (1, 0, false, b"a"),
    (5, 2, false, b"ab"),
    (5, 1, false, b""),
];

// Two chunks of five octets.
const PIECES: [&[u8]; 2] = [b"ab", b"cde"];

// Whether this is written to a buffer if this call fails, and whether that is all.
fn is_put(room: &mut [u8], number: u64, all: bool, want: &[u8]) -> bool {
    let fails = [number];
    let mut sink = SliceSink::new(room, &fails);
    put_all(&mut sink, &PIECES).is_ok() == all && sink.written() == want
}

#[test]
fn sinks_in_memory(rt: HostRuntime) {
    for (size, number, all, want) in &ROOMS {
        let mut room = [0; 8];
        assert!(rt; is_put(&mut room[..(*size).min(8)], *number, *all, want));
    }
}

#[test]
fn a_sink_that_counts(rt: HostRuntime) {
    let mut sink = CountSink::new();
    let all = put_all(&mut sink, &PIECES);
    assert!(rt; all == Ok(()) && sink.octets() == 5);
}

#[test]
fn a_reader_and_a_writer(rt: HostRuntime) -> Result<(), Fail> {
    let mut written = Vec::new(rt.alloc());
    let mut streams = Streams::new(b"octets".as_slice(), &mut written);
    let mut buf = [0; 4];
    let count = streams.read(&mut buf)?;
    streams.write(&buf[..count])?;
    let rest = streams.read(&mut buf)?;
    streams.write(&[])?;
    streams.write(&buf[..rest])?;
    let ended = streams.read(&mut buf)?;
    drop(streams);
    assert_eq!(rt; written.as_slice(), b"octets".as_slice());
    assert_eq!(rt; ended, 0);
    Ok(())
}
