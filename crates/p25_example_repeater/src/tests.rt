//! A terminator, received with a bit error and after bits of no unit, cut off, and a write that fails.

use super::repeat_recording;
use p25_filter::{Ending, FilterEnd};
use p25_io::{MemorySource, Pair, SliceSink};

const DONE: FilterEnd = FilterEnd::Ended(Ending::Done);

// The octets of a recording, how many the sink takes, how the work ends, and the octets that are written. The terminator
// (TDU) has NAC 293 hex, the status symbol 1 and one bit error in its sync. The output has NAC 2A1 hex and no bit error,
// as the second implementation encodes it.
const ROWS: [(&[u8], usize, FilterEnd, &[u8]); 5] = [
    (b"", 64, DONE, b""),
    (
        b"\x55\x75\xF5\xFF\x77\xFE\x29\x33\x39\x5D\xDC\xA3\x3B\x5B\x80\x00\x00\x01",
        64,
        DONE,
        b"\x55\x75\xF5\xFF\x77\xFF\x2A\x13\x29\x11\x7B\xD8\x1E\x84\x80\x00\x00\x01",
    ),
    // Twelve bits of no unit before it, and four after it.
    (
        b"\xAB\xC5\x57\x5F\x5F\xF7\x7F\xE2\x93\x33\x95\xDD\xCA\x33\xB5\xB8\x00\x00\x00\x14",
        64,
        DONE,
        b"\xAB\xC5\x57\x5F\x5F\xF7\x7F\xF2\xA1\x32\x91\x17\xBD\x81\xE8\x48\x00\x00\x00\x14",
    ),
    // Without its last octet, it stays as received.
    (
        b"\x55\x75\xF5\xFF\x77\xFE\x29\x33\x39\x5D\xDC\xA3\x3B\x5B\x80\x00\x00",
        64,
        DONE,
        b"\x55\x75\xF5\xFF\x77\xFE\x29\x33\x39\x5D\xDC\xA3\x3B\x5B\x80\x00\x00",
    ),
    (
        b"\x55\x75\xF5\xFF\x77\xFE\x29\x33\x39\x5D\xDC\xA3\x3B\x5B\x80\x00\x00\x01",
        17,
        FilterEnd::WriteFault,
        b"\x55\x75\xF5\xFF\x77\xFF\x2A\x13\x29\x11\x7B\xD8\x1E\x84\x80\x00\x00",
    ),
];

#[test]
fn recordings_are_repeated(rt: HostRuntime) {
    for (recording, most, end, octets) in &ROWS {
        for count in [1, 7, 4_096] {
            let mut source = MemorySource::new(recording, count, &[]);
            let mut buffer = [0; 64];
            let mut sink = SliceSink::new(&mut buffer[..(*most).min(64)], &[]);
            assert!(rt; repeat_recording(&mut Pair::new(&mut source, &mut sink)) == *end);
            assert!(rt; sink.written() == *octets);
        }
    }
}
