//! The end of a call whose arguments cannot be read, and the error line of each outcome.

use super::arguments::words_of;
use super::error_line::{ErrorWriter, tell};
use super::program::call;
use p25_io::Streams;
use p25_tool::Outcome;
use std::alloc::Global;
use std::io;
use std::io::ErrorKind;
use std::process::{ExitCode, Termination};

impl ErrorWriter for &mut Vec<u8> {}

// Whether this is the error line of an outcome.
fn is_told(alloc: Global, outcome: &Outcome, text: &[u8]) -> bool {
    let mut written = Vec::new(alloc);
    let mut errors = Streams::new(b"".as_slice(), &mut written);
    tell(outcome, &mut errors);
    drop(errors);
    written.as_slice() == text
}

#[test]
fn lines_of_errors(rt: HostRuntime) {
    let rows: [(Outcome, &[u8]); 4] = [
        (Outcome::Done, b""),
        (Outcome::Usage, b"usage\n"),
        (Outcome::Memory, b"out of memory\n"),
        (Outcome::Found { faults: 20 }, b"found 20\n"),
    ];
    for (outcome, text) in &rows {
        assert!(rt; is_told(rt.alloc(), outcome, text));
    }
}

#[test]
fn arguments_that_cannot_be_read(rt: HostRuntime) {
    assert!(rt; words_of(Err(io::Error::from(ErrorKind::OutOfMemory))).is_none());
    assert!(rt; words_of(Err(io::Error::from(ErrorKind::InvalidData))).is_some());
}

// A call without readable arguments: its error line, its status, and an input that is not read.
#[test]
fn ends_of_calls(rt: HostRuntime) {
    let rows: [(ErrorKind, &[u8], u8); 2] = [
        (ErrorKind::InvalidData, b"usage\n", 1),
        (ErrorKind::OutOfMemory, b"out of memory\n", 5),
    ];
    for (kind, text, status) in rows {
        let (mut input, mut output) = (b"send 61\n".as_slice(), Vec::new(rt.alloc()));
        let mut line = Vec::new(rt.alloc());
        let mut errors = Streams::new(b"".as_slice(), &mut line);
        let mut streams = Streams::new(&mut input, &mut output);
        let end = call(
            rt.alloc(),
            Err(io::Error::from(kind)),
            &mut streams,
            &mut errors,
        );
        drop(errors);
        drop(streams);
        assert!(rt; end.report(&rt) == ExitCode::from(status));
        assert!(rt; line.as_slice() == text && output.is_empty() && input.len() == 8);
    }
}
