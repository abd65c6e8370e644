//! A reader and a writer of std, each with a history of every result that it returned.

// One of std's readers and one of its writers, each with a history of its results. The histories exist only in proofs.
//
// No contract can state what a call of a terminal, a pipe or a file does. So a reviewer should read the three functions
// `AskedReader::read`, `AskedWriter::write` and `AskedWriter::flush`: each makes one call and records its result. All
// fields are private to this file, so code outside it can neither make a call without a record nor change a record.
ghost use Rattle.std.specs.{Prelude.{◌≡◌, ◌≤◌, [], ◌∷◌, ◌++◌, length, take, OnErr, OnOk, IfOk}, Io.{ReadsAtMost}, Io.KnownBytes.{ReadConsumes}};
ghost use Rattle.p25_io.specs.Events.{Read as ReadEvent, ReadFailed, Wrote, WriteFailed};

use super::history::{History, Note};
use crate::Failed;
use std::io::{Read, Write};

// A reader, the history of its results, and a history of its calls, each as a write of the whole buffer.
#[derive(Debug, Drop)]
pub(crate) struct AskedReader<R> {
    inner: R,
    answers: History,
    buffers: History,
}

impl<R: Read> AskedReader<R> {
    pub(crate) fn new(inner: R) -> AskedReader<R>
        ensures inner { result.inner ≡ inner }
        ensures answers { result.answers.events ≡ [] }
    {
        AskedReader {
            inner,
            answers: History::new(),
            buffers: History::new(),
        }
    }

    // Makes one read of the reader.
    pub(crate) fn read(&mut self, buf: &mut [u8]) -> Result<usize, Failed>
        ensures bound { ReadsAtMost result buf.new }
        ensures bytes { ReadConsumes (R.remaining self.old.inner) (R.remaining self.new.inner) result buf.new }
        ensures given { IfOk result (λ count. self.new.answers.events ≡ self.old.answers.events ++ ReadEvent (take count buf.new) ∷ []) }
        ensures failed { OnErr result (self.new.answers.events ≡ self.old.answers.events ++ ReadFailed ∷ []) }
        ensures asked { self.new.buffers.events ≡ self.old.buffers.events ++ Wrote buf.old ∷ [] }
        ensures room { length buf.new ≡ length buf.old }
    {
        self.buffers = with_buffer(&self.buffers, buf);
        match self.inner.read(buf) {
            Ok(count) => {
                self.answers = self.answers.then(&Note::Read(&buf[..count]));
                Ok(count)
            }
            Err(_) => {
                self.answers = self.answers.then(&Note::ReadFailed);
                Err(Failed)
            }
        }
    }
}

#[cfg(test)]
impl<R> AskedReader<R> {
    // Returns the reader, for the tests.
    pub(crate) fn inner(&self) -> &R
        ensures { result.now ≡ self.now.inner }
    {
        &self.inner
    }
}

// Returns the buffers so far and this one.
fn with_buffer(buffers: &History, buf: &[u8]) -> History
    ensures { result.events ≡ buffers.now.events ++ Wrote buf.now ∷ [] }
{
    buffers.then(&Note::Wrote(buf))
}

// A writer, the history of the results of its writes, and that of its flushes, each as a write of nothing.
#[derive(Debug, Drop)]
pub(crate) struct AskedWriter<W> {
    inner: W,
    writes: History,
    flushes: History,
}

impl<W: Write> AskedWriter<W> {
    ghost use Rattle.p25_io.specs.Asked.{Answered};

    pub(crate) fn new(inner: W) -> AskedWriter<W>
        ensures inner { result.inner ≡ inner }
        ensures writes { result.writes.events ≡ [] }
        ensures flushes { result.flushes.events ≡ [] }
    {
        AskedWriter {
            inner,
            writes: History::new(),
            flushes: History::new(),
        }
    }

    // Makes one write of the writer, which takes some octets at the beginning of the chunk.
    pub(crate) fn write(&mut self, piece: &[u8]) -> Result<usize, Failed>
        ensures fits { IfOk result (λ count. count ≤ length piece.now) }
        ensures ok { IfOk result (λ count. Answered W.contents self.old (take count piece.now) (Wrote (take count piece.now) ∷ []) [] self.new) }
        ensures err { OnErr result (Answered W.contents self.old [] (WriteFailed piece.now 0 ∷ []) [] self.new) }
    {
        match self.inner.write(piece) {
            Ok(count) => {
                self.writes = self.writes.then(&Note::Wrote(&piece[..count]));
                Ok(count)
            }
            Err(_) => {
                self.writes = self.writes.then(&Note::WriteFailed(piece, 0));
                Err(Failed)
            }
        }
    }

    // Makes one flush of the writer.
    pub(crate) fn flush(&mut self) -> Result<(), Failed>
        ensures ok { OnOk result (Answered W.contents self.old [] [] (Wrote [] ∷ []) self.new) }
        ensures err { OnErr result (Answered W.contents self.old [] [] (WriteFailed [] 0 ∷ []) self.new) }
    {
        match self.inner.flush() {
            Ok(()) => {
                self.flushes = self.flushes.then(&Note::Wrote(&[]));
                Ok(())
            }
            Err(_) => {
                self.flushes = self.flushes.then(&Note::WriteFailed(&[], 0));
                Err(Failed)
            }
        }
    }
}
