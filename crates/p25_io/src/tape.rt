//! A port in memory that exposes every call.

ghost use Rattle.std.specs.Prelude.{◌≡◌, false, [], IfOk};
ghost use Rattle.p25_io.specs.{Notes.{noted_event}, Tapes.{IsKept, TapeGoes, event_of}};

use super::history::Note;
use crate::{Failed, MemorySource, Port, Sink, SliceSink, Source};
use std::alloc::{AllocError, Global};

/// A call of a port.
#[derive(Debug, Drop, PartialEq, Eq)]
pub enum Call {
    /// A read returned these octets, or none at the end of the input.
    Read(Vec<u8>),
    /// A read failed.
    ReadFailed,
    /// A write wrote this chunk.
    Wrote(Vec<u8>),
    /// A write of this chunk failed, and this number of its first octets were written.
    WriteFailed(Vec<u8>, usize),
}

/// A port over a source and a sink in memory that keeps all its calls, in their order. It serves to test a user of a
/// port.
///
/// Contracts state that its calls are those that were made, unless the tape is torn: the allocation for one of them
/// failed.
#[derive(Debug, Drop)]
pub struct Tape<'a> {
    source: MemorySource<'a>,
    sink: SliceSink<'a>,
    calls: Vec<Call>,
    torn: bool,
    alloc: Global,
}

impl<'a> Tape<'a> {
    /// Returns a tape over a source and a sink, without a call.
    pub fn new(alloc: Global, source: MemorySource<'a>, sink: SliceSink<'a>) -> Tape<'a>
        ensures source { result.source ≡ source.entry }
        ensures sink { result.sink ≡ sink.entry }
        ensures blank { result.calls.items ≡ [] }
        ensures whole { result.torn ≡ false }
    {
        Tape {
            source,
            sink,
            calls: Vec::new(alloc),
            torn: false,
            alloc,
        }
    }

    /// Returns the calls that were made, in their order.
    pub fn calls(&self) -> &[Call]
        ensures { result.now ≡ self.now.calls.items }
    {
        self.calls.as_slice()
    }

    /// Returns whether the allocation for one of the calls failed.
    pub fn is_torn(&self) -> bool
        ensures { result ≡ self.now.torn }
    {
        self.torn
    }

    // Appends a call, or tears the tape.
    fn keep(&mut self, note: &Note<'_>)
        ensures { IsKept (noted_event note.now) self.old self.new }
    {
        match call_of(self.alloc, note) {
            Ok(call) => self.torn |= self.calls.push(call).is_err(),
            Err(_) => self.torn = true,
        }
    }
}

// Returns the call of a note, unless the allocation fails.
fn call_of(alloc: Global, note: &Note<'_>) -> Result<Call, AllocError>
    ensures { IfOk result (λ call. event_of call ≡ noted_event note.now) }
{
    Ok(match *note {
        Note::Read(octets) => Call::Read(Vec::from_slice(alloc, octets)?),
        Note::ReadFailed => Call::ReadFailed,
        Note::Wrote(piece) => Call::Wrote(Vec::from_slice(alloc, piece)?),
        Note::WriteFailed(piece, count) => Call::WriteFailed(Vec::from_slice(alloc, piece)?, count),
    })
}

impl Port for Tape<'_> {
    ghost use Rattle.p25_io.specs.TapeLaws.{TapeGoes-chain};

    ghost moves = { TapeGoes };

    ghost chain = { TapeGoes-chain };

    fn read(&mut self, buf: &mut [u8]) -> Result<usize, Failed> {
        let result = self.source.read(buf);
        match result {
            Ok(count) => self.keep(&Note::Read(&buf[..count])),
            Err(_) => self.keep(&Note::ReadFailed),
        }
        result
    }

    fn write(&mut self, piece: &[u8]) -> Result<(), Failed> {
        let before = self.sink.written().len();
        let result = self.sink.write(piece);
        match result {
            Ok(()) => self.keep(&Note::Wrote(piece)),
            Err(_) => {
                let count = self.sink.written().len() - before;
                self.keep(&Note::WriteFailed(piece, count));
            }
        }
        result
    }
}
