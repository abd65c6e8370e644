//! A source over one of std's readers.
ghost use Rattle.std.specs.{Prelude.{◌≡◌, ◌<◌, [], ◌∷◌, ◌++◌, length, take, None, IfOk, OnErr}, Io.KnownBytes.{ReadConsumes}};
ghost use Rattle.p25_io.specs.{Adapters.{answers_of, reader_of, read_faults}, Events.{Read as ReadEvent, ReadFailed}};
ghost use Rattle.p25_io.specs.{Faults.{faults_after, HasCause}, Octets.{Gives, Kept}};

use super::asked::AskedReader;
use crate::{Failed, Source};
use std::io::Read;

/// A source over one of std's readers. It does not expose the octets that are left.
///
/// Each `Err` of the reader is a fault, whatever its kind, and raises a count that saturates at 2^64 - 1.
#[derive(Debug, Drop)]
pub struct ReadSource<R> {
    inner: AskedReader<R>,
    faults: u64,
}

impl<R: Read> ReadSource<R> {
    /// Returns a source over this reader, with a count of no faults.
    pub fn new(inner: R) -> ReadSource<R>
        ensures reader { reader_of result ≡ inner }
        ensures faults { read_faults result ≡ 0 }
    {
        ReadSource {
            inner: AskedReader::new(inner),
            faults: 0,
        }
    }
}

impl<R: Read> Source for ReadSource<R> {
    ghost left = { λ s. None };

    ghost faults = { read_faults };

    /// Reads octets into the beginning of `buf` by one read of the reader, and returns their number.
    fn read(&mut self, buf: &mut [u8]) -> Result<usize, Failed>
        requires { 0 < length buf.old }
        ensures given { IfOk result (Gives None None buf.new) }
        ensures kept { OnErr result (Kept None None) }
        ensures cause { HasCause (read_faults self.old) (read_faults self.new) result }
        ensures room { length buf.new ≡ length buf.old }

        // The octets come from the reader, as far as it exposes them, and each fault counts.
        ensures known { ReadConsumes (R.remaining (reader_of self.old)) (R.remaining (reader_of self.new)) result buf.new }
        ensures faults { read_faults self.new ≡ faults_after result (read_faults self.old) }

        // The reader is called once, and fails if and only if this call fails.
        ensures answered { IfOk result (λ count. answers_of self.new ≡ answers_of self.old ++ ReadEvent (take count buf.new) ∷ []) }
        ensures failed { OnErr result (answers_of self.new ≡ answers_of self.old ++ ReadFailed ∷ []) }
    {
        match self.inner.read(buf) {
            Ok(count) => Ok(count),
            Err(_) => {
                self.faults = self.faults.saturating_add(1);
                Err(Failed)
            }
        }
    }
}

#[cfg(test)]
mod tests {
    use super::*;
    use crate::tests::gather;
    use std::io;
    use std::io::ErrorKind;

    // Returns two octets, is interrupted once, returns one more octet, ends, and would return another octet after the
    // end.
    #[derive(Drop)]
    struct Stuttering {
        calls: u8,
    }

    impl Read for Stuttering {
        fn read(&mut self, buf: &mut [u8]) -> io::Result<usize> {
            self.calls = self.calls.saturating_add(1);
            let octets: &[u8] = match self.calls {
                1 => b"ab",
                2 => return Err(io::Error::from(ErrorKind::Interrupted)),
                3 => b"c",
                4 => b"",
                _ => b"d",
            };
            let count = octets.len().min(buf.len());
            buf[..count].copy_from_slice(&octets[..count]);
            Ok(count)
        }
    }

    // Each call makes one read of the reader, and an interrupted read is a fault like any other.
    #[test]
    fn an_interrupted_read_is_a_fault(rt: HostRuntime) {
        let mut source = ReadSource::new(Stuttering { calls: 0 });
        let mut buf = [0; 4];
        let wants = [
            (Ok(2), 0, 1),
            (Err(Failed), 1, 2),
            (Ok(1), 1, 3),
            (Ok(0), 1, 4),
        ];
        for (want, faults, calls) in wants {
            assert_eq!(rt; source.read(&mut buf), want);
            assert_eq!(rt; source.faults, faults);
            assert_eq!(rt; source.inner.inner().calls, calls);
        }
        assert_eq!(rt; &buf[..2], b"cb".as_slice());
    }

    // A reader to the end makes no read after it.
    #[test]
    fn no_read_behind_the_end(rt: HostRuntime) {
        let mut source = ReadSource::new(Stuttering { calls: 2 });
        let mut buf = [0; 4];
        assert_eq!(rt; gather(&mut source, &mut buf), Ok(1));
        assert_eq!(rt; source.inner.inner().calls, 4);
        assert_eq!(rt; buf[0], b'c');
    }
}
