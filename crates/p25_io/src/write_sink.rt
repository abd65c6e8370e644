//! A sink over one of std's writers.
ghost use Rattle.std.specs.{Prelude.{◌≡◌, None, OnOk, OnErr}, Io.KnownBytes.{Appends}};
ghost use Rattle.p25_io.specs.{Faults.{faults_after, HasCause}, Octets.{Appended, AppendedBeginning}, Adapters.{writer_of, write_faults, AppendsBeginning}};

use crate::{Failed, Sink};
use std::io::Write;

/// A sink over one of std's writers. It does not expose the octets that were written.
///
/// A fault is an `Err` of the writer or of its flush, whatever its kind, or a write in which the writer takes nothing
/// of octets that are left. It raises a count that saturates at 2^64 - 1.
#[derive(Debug, Drop)]
pub struct WriteSink<W> {
    inner: W,
    faults: u64,
}

impl<W: Write> WriteSink<W> {
    /// Returns a sink over this writer, with a count of no faults.
    pub fn new(inner: W) -> WriteSink<W>
        ensures writer { writer_of result ≡ inner }
        ensures faults { write_faults result ≡ 0 }
    {
        WriteSink { inner, faults: 0 }
    }
}

impl<W: Write> Sink for WriteSink<W> {
    ghost written = { λ s. None };

    ghost faults = { write_faults };

    /// Appends the chunk: writes until the writer has taken all of it, and flushes the writer.
    fn write(&mut self, piece: &[u8]) -> Result<(), Failed>
        ensures ok { OnOk result (Appended None piece.now None) }
        ensures err { OnErr result (AppendedBeginning None piece.now None) }
        ensures cause { HasCause (write_faults self.old) (write_faults self.new) result }

        // The octets go to the writer, as far as it exposes its contents, and each fault counts.
        ensures known { OnOk result (Appends (W.contents (writer_of self.old)) (W.contents (writer_of self.new)) piece.now) }
        ensures beginning { OnErr result (AppendsBeginning (W.contents (writer_of self.old)) (W.contents (writer_of self.new)) piece.now) }
        ensures faults { write_faults self.new ≡ faults_after result (write_faults self.old) }
    {
        let result = write_whole(&mut self.inner, piece);
        if result.is_err() {
            self.faults = self.faults.saturating_add(1);
        }
        result
    }
}

// Writes the whole chunk and flushes.
fn write_whole<W: Write>(inner: &mut W, piece: &[u8]) -> Result<(), Failed>
    ensures known { OnOk result (Appends (W.contents inner.old) (W.contents inner.new) piece.now) }
    ensures beginning { OnErr result (AppendsBeginning (W.contents inner.old) (W.contents inner.new) piece.now) }
{
    let mut done = 0;
    while done < piece.len() {
        match inner.write(&piece[done..]) {
            Ok(0) | Err(_) => return Err(Failed),
            Ok(count) => done += count,
        }
    }
    inner.flush().map_err(|_| Failed)
}

#[cfg(test)]
mod tests {
    use super::*;
    use crate::tests::put_all;
    use std::io;
    use std::io::ErrorKind;

    // Takes at most a given number of octets in a call, is interrupted at the call of a given number and, if it is set
    // so, fails at each flush.
    #[derive(Drop)]
    struct Fussy {
        most: usize,
        interrupted_call: u8,
        flush_fails: bool,
        calls: u8,
        taken: usize,
    }

    impl Write for Fussy {
        fn write(&mut self, buf: &[u8]) -> io::Result<usize> {
            self.calls = self.calls.saturating_add(1);
            if self.calls == self.interrupted_call {
                return Err(io::Error::from(ErrorKind::Interrupted));
            }
            let count = buf.len().min(self.most);
            self.taken = self.taken.saturating_add(count);
            Ok(count)
        }

        fn flush(&mut self) -> io::Result<()> {
            if self.flush_fails {
                return Err(io::Error::from(ErrorKind::Other));
            }
            Ok(())
        }
    }

    // The chunk, the most octets of a call, the interrupted call, whether a flush fails; the result, the octets taken
    // and the faults.
    const WRITERS: [(&[u8], usize, u8, bool, Result<(), Failed>, usize, u64); 5] = [
        (b"abcde", 2, 0, false, Ok(()), 5, 0),
        (b"abcde", 0, 0, false, Err(Failed), 0, 1),
        (b"abcde", 2, 2, false, Err(Failed), 2, 1),
        (b"abcde", 9, 0, true, Err(Failed), 5, 1),
        (b"", 0, 0, false, Ok(()), 0, 0),
    ];

    #[test]
    fn each_fault_of_a_writer_counts(rt: HostRuntime) {
        for (piece, most, interrupted_call, flush_fails, want, taken, faults) in WRITERS {
            let mut sink = WriteSink::new(Fussy {
                most,
                interrupted_call,
                flush_fails,
                calls: 0,
                taken: 0,
            });
            assert_eq!(rt; put_all(&mut sink, &[piece]), want, "{most} octets a call");
            assert_eq!(rt; sink.inner.taken, taken, "{most} octets a call");
            assert_eq!(rt; sink.faults, faults, "{most} octets a call");
        }
    }
}
