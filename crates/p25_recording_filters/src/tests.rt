//! The output of each command for a short recording, by octets and texts that are written by hand.

ghost use Rattle.std.specs.Prelude.{◌≡◌, ◌≤◌};

use super::{Calls, Change, Changed, Check, Recording, Report, Show, Soft};
use p25_bits::BitBuf;
use p25_filter::{Ending, FilterEnd, run_on};
use p25_io::{Pair, SliceSink, SteadySource};
use p25_line::Line;
use p25_status::Status;
use p25_text::read_line;
use p25_units::{Frame, Item, image};

#[test]
fn the_example_of_the_head(rt: HostRuntime) {
    let mut check = Check::new();
    let mut raw = BitBuf::new();
    let mut out = Line::new();
    check.put(&Item::Cut { place: 0, have: 8 }, &mut raw, &mut out);
    check.close(&mut out);
    assert_eq!(rt; out.octets(), b"check units=0 faults=1\n".as_slice());
}

// Two terminators (TDU) of NAC 0 with the status symbol 1, 20 bits between them and four after; the second has a bit error in
// its sync.
const RECORDING: &[u8; 39] =
    b"\x55\x75\xF5\xFF\x77\xFF\x00\x03\x35\x93\x0B\xDD\x3B\x2B\x00\x00\x00\x01\x12\x34\
    \x55\x57\x5F\x5F\xF7\x7F\xE0\x00\x33\x59\x30\xBD\xD3\xB2\xB0\x00\x00\x00\x10";

// The same without the bit error.
const REPAIRED: &[u8] =
    b"\x55\x75\xF5\xFF\x77\xFF\x00\x03\x35\x93\x0B\xDD\x3B\x2B\x00\x00\x00\x01\x12\x34\
    \x55\x57\x5F\x5F\xF7\x7F\xF0\x00\x33\x59\x30\xBD\xD3\xB2\xB0\x00\x00\x00\x10";

// Both terminators under NAC 293 hex with the status symbol 1.
const BRIDGED: &[u8] = b"\x55\x75\xF5\xFF\x77\xFF\x29\x33\x39\x5D\xDC\xA3\x3B\x5B\x80\x00\x00\x01\
    \x55\x75\xF5\xFF\x77\xFF\x29\x33\x39\x5D\xDC\xA3\x3B\x5B\x80\x00\x00\x01";

const SHOWN: &[u8] = b"unit at=0 bits=144 fix=0 status=11 tdu nac=000\ngap at=144 bits=20\n\
    unit at=164 bits=144 fix=1 status=11 tdu nac=000\ngap at=308 bits=4\n";

const CHECKED: &[u8] = b"gap at=144 bits=20\ngap at=308 bits=4\ncheck units=2 faults=2\n";

// Octets, the number that a read of them returns, and the output for them.
#[derive(Clone, Copy)]
struct Row<'a> {
    input: &'a [u8],
    piece: usize,
    output: &'a [u8],
}

const DONE: FilterEnd = FilterEnd::Ended(Ending::Done);

// The end of a report on a row's octets, and whether its output is that of the row.
fn run_report<R: Report + Drop>(report: R, row: &Row) -> (FilterEnd, bool)
    requires counted { R.counted report ≡ 0 }
    requires reached { R.HasReached report 0 }
{
    let mut source = SteadySource::new(row.input, row.piece.max(1));
    let mut room = [0; 512];
    let mut sink = SliceSink::new(&mut room, &[]);
    let mut port = Pair::new(&mut source, &mut sink);
    let mut recording = Recording::new(report);
    let end = run_on(&mut recording, &mut port);
    (end, sink.written() == row.output)
}

// The same for `soft`.
fn run_soft(row: &Row) -> (FilterEnd, bool) {
    let mut source = SteadySource::new(row.input, row.piece.max(1));
    let mut room = [0; 512];
    let mut sink = SliceSink::new(&mut room, &[]);
    let mut port = Pair::new(&mut source, &mut sink);
    let mut soft = Soft::new();
    let end = run_on(&mut soft, &mut port);
    (end, sink.written() == row.output)
}

#[test]
fn terminators(rt: HostRuntime) {
    let input = RECORDING.as_slice();
    let found = FilterEnd::Ended(Ending::Found { faults: 2 });
    for piece in [1, 39] {
        assert!(rt;
            run_report(
                Show,
                &Row {
                    input,
                    piece,
                    output: SHOWN
                }
            ) == (DONE, true)
        );
        assert!(rt;
            run_report(
                Check::new(),
                &Row {
                    input,
                    piece,
                    output: CHECKED
                }
            ) == (found, true)
        );
        let repair = Changed::new(Change::Repaired);
        assert!(rt;
            run_report(
                repair,
                &Row {
                    input,
                    piece,
                    output: REPAIRED
                }
            ) == (DONE, true)
        );
        if let Some(status) = Status::new(1) {
            let bridge = Changed::new(Change::Bridged { nac: 0x293, status });
            assert!(rt;
                run_report(
                    bridge,
                    &Row {
                        input,
                        piece,
                        output: BRIDGED
                    }
                ) == (DONE, true)
            );
        }
    }
}

// The level of each dibit.
const LEVELS: [u8; 4] = [32, 96, 224, 160];

// The levels of the octets of the recording, a level for two bits.
fn levels() -> [u8; 156] {
    let mut levels = [0; 156];
    for i in 0..156 {
        let octet = RECORDING[i / 4];
        levels[i] = LEVELS[usize::from((octet >> (6 - 2 * (i % 4))) % 4)];
    }
    levels
}

// The last group of levels is filled with dibits 00, which are the last dibits of the recording.
#[test]
fn levels_of_terminators(rt: HostRuntime) {
    let levels = levels();
    for count in [154, 156] {
        let row = Row {
            input: &levels[..count],
            piece: 7,
            output: RECORDING,
        };
        assert!(rt; run_soft(&row) == (DONE, true));
    }
}

// Writes the octets of the data unit of a line after those before, and returns their number.
fn put_unit(line: &[u8], at: usize, room: &mut [u8; 512]) -> usize
    requires { at ≤ 300 }
{
    let Ok(unit) = read_line(line) else {
        return at;
    };
    let (mut bits, mut out) = (BitBuf::new(), Line::new());
    image(&Frame::filled(unit, Status::default()), &mut bits);
    super::reports::put_octets(&bits, 0, &mut out);
    let count = out.len();
    if at + count <= 512 {
        room[at..at + count].copy_from_slice(out.octets());
    }
    at + count
}

const ENDED: &[u8] = b"call at=0 bits=1872 nac=000 entry=late end=tdu links=1 broken=0 \
    lc=000000000001000001 alg=none\ncalls=1\n";

const OPEN: &[u8] = b"call at=0 bits=1728 nac=000 entry=late end=open links=1 broken=0 \
    lc=000000000001000001 alg=none\ncalls=1\n";

// An LDU1 and a terminator (TDU), and the same without the terminator.
#[test]
fn calls_of_voice(rt: HostRuntime) {
    let mut line = Line::new();
    line.put(b"ldu1 nac=000 lc=000000000001000001 lsd=0000 voice=");
    line.put(&[b'0'; 324]);
    let mut room = [0; 512];
    let voice = put_unit(line.octets(), 0, &mut room);
    let all = put_unit(b"tdu nac=000", voice.min(300), &mut room);
    assert!(rt; voice == 216 && all == 234);
    for (count, output) in [(234, ENDED), (216, OPEN)] {
        let row = Row {
            input: &room[..count],
            piece: 100,
            output,
        };
        assert!(rt; run_report(Calls::new(), &row) == (DONE, true));
    }
}
