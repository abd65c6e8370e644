//! The port of one of std's readers and one of its writers.

ghost use Rattle.std.specs.Prelude.{◌≡◌, ◌<◌, ◌≤◌, [], ◌∷◌, ◌++◌, length, take, IfErr, IfOk, OnErr, OnOk};
ghost use Rattle.p25_io.specs.Asked.{Took};

use super::asked::{AskedReader, AskedWriter};
use super::history::{History, Note};
use crate::{Failed, Port};
use std::io::{Read, Write};

/// A port that reads from one of std's readers and writes to one of its writers.
///
/// Contracts see the events that were made on it, in their order. Each read is one call of the reader. Each write makes
/// as many calls of the writer as the writer needs to take the chunk, and then flushes it. If the reader exposes its
/// remaining octets and the writer its contents, as a slice and a `Vec` do, the octets of the events are those.
///
/// An `Err` of either, whatever its kind, is a call that failed. So is a write in which the writer takes nothing of
/// octets that are left. Each result of the reader and of the writer is kept, in proofs alone. A read fails if and only
/// if the reader failed, and a write if and only if a write or the flush of the writer failed.
///
/// ```
/// let mut written = Vec::new(rt.alloc());
/// let mut streams = Streams::new(b"octets".as_slice(), &mut written);
/// ```
#[derive(Debug, Drop)]
pub struct Streams<R, W> {
    reader: AskedReader<R>,
    writer: AskedWriter<W>,
    history: History,
}

impl<R: Read, W: Write> Streams<R, W> {
    ghost use Rattle.p25_io.specs.Streams.{answers_on, events_on, faults_on, flushed_on, reader_in, taken_on, writer_in};

    /// Returns the port of a reader and a writer, on which no event has been made.
    pub fn new(reader: R, writer: W) -> Streams<R, W>
        ensures reader { reader_in result ≡ reader }
        ensures writer { writer_in result ≡ writer }
        ensures blank { events_on result ≡ [] }
    {
        Streams {
            reader: AskedReader::new(reader),
            writer: AskedWriter::new(writer),
            history: History::new(),
        }
    }
}

impl<R: Read, W: Write> Port for Streams<R, W> {
    ghost use Rattle.p25_io.specs.{Streams.{StreamsGo, buffers_on}, StreamsLaws.{StreamsGo-chain}};
    ghost use Rattle.p25_io.specs.Events.{Read as ReadEvent, ReadFailed, Wrote};

    ghost moves = { StreamsGo R.remaining W.contents };

    ghost chain = { StreamsGo-chain R.remaining W.contents };

    /// Calls the reader once, with the whole buffer.
    fn read(&mut self, buf: &mut [u8]) -> Result<usize, Failed>
        requires { 0 < length buf.old }
        ensures given { IfOk result (λ count. (count ≤ length buf.new)
            × StreamsGo R.remaining W.contents self.old (ReadEvent (take count buf.new) ∷ []) self.new) }
        ensures failed { OnErr result (StreamsGo R.remaining W.contents self.old (ReadFailed ∷ []) self.new) }
        ensures room { length buf.new ≡ length buf.old }

        // The reader is called with the whole buffer.
        ensures asked { buffers_on self.new ≡ buffers_on self.old ++ Wrote buf.old ∷ [] }
    {
        let result = self.reader.read(buf);
        self.history = match result {
            Ok(count) => self.history.then(&Note::Read(&buf[..count])),
            Err(_) => self.history.then(&Note::ReadFailed),
        };
        result
    }

    fn write(&mut self, piece: &[u8]) -> Result<(), Failed> {
        match put_whole(&mut self.writer, piece) {
            Ok(()) => {
                self.history = self.history.then(&Note::Wrote(piece));
                Ok(())
            }
            Err(count) => {
                self.history = self.history.then(&Note::WriteFailed(piece, count));
                Err(Failed)
            }
        }
    }
}

// Writes the whole chunk and flushes. If that fails, returns the number of its first octets that were written.
fn put_whole<W: Write>(writer: &mut AskedWriter<W>, piece: &[u8]) -> Result<(), usize>
    ensures ok { OnOk result (Took W.contents writer.old piece.now 1 0 writer.new) }
    ensures err { IfErr result (λ count. (count ≤ length piece.now) × Took W.contents writer.old (take count piece.now) 0 1 writer.new) }
{
    let mut done = 0;
    while done < piece.len() {
        let Ok(count) = writer.write(&piece[done..]) else {
            return Err(done);
        };
        if count == 0 {
            return Err(done);
        }
        done += count;
    }
    match writer.flush() {
        Ok(()) => Ok(()),
        Err(_) => Err(done),
    }
}
