//! Sample data units: the line about them, the numbers that are refused, and the decoding of each data unit from its
//! damaged bits.

ghost use Rattle.std.specs.Prelude.{◌≡◌, ◌≤◌, Ok, length};
ghost use Rattle.p25_units.specs.{Needs.{need_of}, Readings.{unit_reading_of}, Units.{IsSoundFrame}, declared.needs.Need.TheVariants.{Length}};

use super::words_of;
use p25_bits::BitBuf;
use p25_io::{MemorySource, SliceSink, SteadySource};
use p25_tool::{Outcome, run};
use p25_units::{Frame, Need, fixes, frame_length, image, need, read_unit};
use p25_vectors::{SampleUnit, Sampler};
use std::alloc::Global;

// The word after `sample`, the output, and the end of the call.
type Row = (&'static [u8], &'static [u8], Outcome);

const CALLS: [Row; 8] = [
    (b"1", b"units=1 flips=8 exact=1\n", Outcome::Done),
    (
        b"1000",
        b"units=1000 flips=39735 exact=1000\n",
        Outcome::Done,
    ),
    (b"0", b"", Outcome::Usage),
    (b"01", b"", Outcome::Usage),
    (b"10001", b"", Outcome::Usage),
    (b"+1", b"", Outcome::Usage),
    (b"", b"", Outcome::Usage),
    (b"1 ", b"", Outcome::Usage),
];

// Whether a call has the end and the output of its row, and reads nothing from a source that fails at its first read.
fn holds(alloc: Global, row: &Row) -> bool {
    let (number, text, outcome) = *row;
    let fails = [1];
    let mut source = MemorySource::new(b"octets", 4, &fails);
    let mut room = [0; 64];
    let mut sink = SliceSink::new(&mut room, &[]);
    let ended = run(
        alloc,
        &words_of(&[b"sample", number]),
        &mut source,
        &mut sink,
    );
    ended == outcome && sink.written() == text && source.rest() == b"octets".as_slice()
}

// Twice each.
#[test]
fn calls_read_nothing(rt: HostRuntime) {
    for row in &CALLS {
        assert!(rt; holds(rt.alloc(), row) && holds(rt.alloc(), row));
    }
}

#[test]
fn a_failed_write_ends_the_call(rt: HostRuntime) {
    let fails = [1];
    let mut source = SteadySource::new(b"", 1);
    let mut room = [0; 64];
    let mut sink = SliceSink::new(&mut room, &fails);
    let words = words_of(&[b"sample", b"1"]);
    let outcome = run(rt.alloc(), &words, &mut source, &mut sink);
    assert!(rt; outcome == Outcome::WriteFault);
}

// The first data unit, shown as a recording.
#[test]
fn the_first_unit_is_shown(rt: HostRuntime) {
    let mut sampler = Sampler::new();
    let mut bits = BitBuf::new();
    let _unit = sampler.next(&mut bits);
    let mut octets = [0; 18];
    if bits.len() == 144 {
        bits.take_numbers(0, 8, &mut octets);
    }
    let mut source = SteadySource::new(&octets, 18);
    let mut room = [0; 64];
    let mut sink = SliceSink::new(&mut room, &[]);
    let outcome = run(rt.alloc(), &words_of(&[b"show"]), &mut source, &mut sink);
    let text = b"unit at=0 bits=144 fix=8 status=00 tdu nac=c6e\n".as_slice();
    assert!(rt; outcome == Outcome::Done && sink.written() == text);
}

// Whether two frames have the same image.
fn same_image(a: &Frame, b: &Frame) -> bool
    requires first { IsSoundFrame a.now }
    requires second { IsSoundFrame b.now }
{
    let mut first = BitBuf::new();
    image(a, &mut first);
    let mut second = BitBuf::new();
    image(b, &mut second);
    first.len() == second.len() && BitBuf::distance(&first, &second) == 0
}

// Whether a decoded frame is a data unit's, with as many fixes as inverted bits.
fn is_unit(read: &Frame, unit: &SampleUnit, bits: &BitBuf) -> bool
    requires first { IsSoundFrame read.now }
    requires second { IsSoundFrame unit.now.frame }
{
    if frame_length(&read.unit) > bits.len() {
        return false;
    }
    same_image(read, &unit.frame) && fixes(bits, 0, read) == unit.flips
}

// Whether damaged bits decode to a data unit's frame.
fn reads_again(unit: &SampleUnit, bits: &BitBuf) -> bool
    requires sound { IsSoundFrame unit.now.frame }
    requires length { need_of bits.now ≡ Length (length bits.now) }
    requires read { unit_reading_of bits.now ≡ Ok unit.now.frame }
{
    match need(bits, 0) {
        Need::Length(count) => match read_unit(bits, 0, count) {
            Ok(read) => is_unit(&read, unit, bits),
            Err(_) => false,
        },
        _ => false,
    }
}

// The number of inverted bits of the first data units, if each decodes to itself; otherwise none.
fn flips_read(units: u32) -> u64
    requires { units ≤ 10000 }
{
    let mut sampler = Sampler::new();
    let mut bits = BitBuf::new();
    let mut flips = 0;
    for _given in 0..units {
        let unit = sampler.next(&mut bits);
        if !reads_again(&unit, &bits) {
            return 0;
        }
        flips += u64::from(unit.flips);
    }
    flips
}

#[test]
fn units_are_read(rt: HostRuntime) {
    assert!(rt; flips_read(1_000) == 39_735);
}
