//! Soft recordings and their bits, which are from a program that shares no code with this one.

ghost use Rattle.std.specs.Prelude.{◌≡◌, ◌≤◌, length};

use super::Decide;
use p25_filter::{Ending, FilterEnd, run_on};
use p25_io::{MemorySource, Pair, SliceSink};

// A terminator (TDU) and a terminator with link control (TDULC) of zeros, of NAC 0 with the status symbol 1.
const END: &[u8] = b"\x55\x75\xF5\xFF\x77\xFF\x00\x03\x35\x93\x0B\xDD\x3B\x2B\x00\x00\x00\x01";

const END_LINK: &[u8] =
    b"\x55\x75\xF5\xFF\x77\xFF\x00\x0F\xED\xDF\x24\xA9\xD7\x87\x00\x00\x00\x01\x00\x00\x00\x00\x00\x00\
    \x00\x00\x01\x00\x00\x00\x00\x00\x00\x00\x00\x01\x00\x00\x00\x00\x00\x00\x00\x00\x01\x00\x00\x00\
    \x00\x00\x00\x00\x00\x01";

// Two of the latter, all 48 bits of the second sync wrong.
const LOST: &[u8] =
    b"\x55\x75\xF5\xFF\x77\xFF\x00\x0F\xED\xDF\x24\xA9\xD7\x87\x00\x00\x00\x01\x00\x00\x00\x00\x00\x00\
    \x00\x00\x01\x00\x00\x00\x00\x00\x00\x00\x00\x01\x00\x00\x00\x00\x00\x00\x00\x00\x01\x00\x00\x00\
    \x00\x00\x00\x00\x00\x01\xAA\x8A\x0A\x00\x88\x00\x00\x0F\xED\xDF\x24\xA9\xD7\x87\x00\x00\x00\x01\
    \x00\x00\x00\x00\x00\x00\x00\x00\x01\x00\x00\x00\x00\x00\x00\x00\x00\x01\x00\x00\x00\x00\x00\x00\
    \x00\x00\x01\x00\x00\x00\x00\x00\x00\x00\x00\x01";

// Two of the latter and the former.
const ALL: &[u8] =
    b"\x55\x75\xF5\xFF\x77\xFF\x00\x0F\xED\xDF\x24\xA9\xD7\x87\x00\x00\x00\x01\x00\x00\x00\x00\x00\x00\
    \x00\x00\x01\x00\x00\x00\x00\x00\x00\x00\x00\x01\x00\x00\x00\x00\x00\x00\x00\x00\x01\x00\x00\x00\
    \x00\x00\x00\x00\x00\x01\x55\x75\xF5\xFF\x77\xFF\x00\x0F\xED\xDF\x24\xA9\xD7\x87\x00\x00\x00\x01\
    \x00\x00\x00\x00\x00\x00\x00\x00\x01\x00\x00\x00\x00\x00\x00\x00\x00\x01\x00\x00\x00\x00\x00\x00\
    \x00\x00\x01\x00\x00\x00\x00\x00\x00\x00\x00\x01\x55\x75\xF5\xFF\x77\xFF\x00\x03\x35\x93\x0B\xDD\
    \x3B\x2B\x00\x00\x00\x01";

// The level of each dibit, as an octet.
const LEVELS: [u8; 4] = [32, 96, 224, 160];

// A codeword of least weight of the Golay code (24,12), by its dibits.
const GOLAY: [u8; 12] = [0, 0, 1, 0, 2, 2, 2, 1, 1, 2, 0, 1];

// The most levels of a test.
const MOST: usize = 504;

// Half way between two codewords, which then cost the same, and past that: the levels for the dibits 01 and 10.
const HALF: (u8, u8) = (64, 0);

const BEYOND: (u8, u8) = (65, 255);

// Writes the levels of octets from a position on.
fn put_levels(octets: &[u8], at: usize, levels: &mut [u8; MOST])
    requires few { length octets.now ≤ 126 }
    requires there { at ≤ 504 }
{
    for i in 0..4 * octets.len() {
        let octet = octets[i / 4];
        if at + i < MOST {
            levels[at + i] = LEVELS[usize::from((octet >> (6 - 2 * (i % 4))) % 4)];
        }
    }
}

// Moves the first words of the terminator with link control whose levels are from a position on.
fn move_words(words: usize, to: (u8, u8), at: usize, levels: &mut [u8; MOST])
    requires few { words ≤ 12 }
    requires there { at ≤ 504 }
{
    for word in 0..words {
        for i in 0..12 {
            let dibit = 56 + 12 * word + i;
            let place = at + dibit + dibit / 35;
            if place < MOST && GOLAY[i] == 1 {
                levels[place] = to.0;
            }
            if place < MOST && GOLAY[i] == 2 {
                levels[place] = to.1;
            }
        }
    }
}

// The levels of the terminator with link control, some words moved.
fn moved(words: usize, to: (u8, u8)) -> [u8; MOST]
    requires { words ≤ 12 }
{
    let mut levels = [0; MOST];
    put_levels(END_LINK, 0, &mut levels);
    move_words(words, to, 0, &mut levels);
    levels
}

// Whether the work on so many levels, of which a read returns so many, ends as it should with some octets.
fn comes_out(
    levels: &[u8; MOST],
    count: usize,
    piece: usize,
    fails: &[u64],
    end: FilterEnd,
    octets: &[u8],
) -> bool
    requires { count ≤ 504 }
{
    let mut source = MemorySource::new(&levels[..count], piece.max(1), fails);
    let mut room = [0; 512];
    let mut sink = SliceSink::new(&mut room, &[]);
    let mut port = Pair::new(&mut source, &mut sink);
    let mut decide = Decide::new();
    let ended = run_on(&mut decide, &mut port);
    ended == end && sink.written() == octets
}

const DONE: FilterEnd = FilterEnd::Ended(Ending::Done);

// The same to the end of the input, whatever a read returns.
fn comes_to(levels: &[u8; MOST], count: usize, octets: &[u8]) -> bool
    requires { count ≤ 504 }
{
    comes_out(levels, count, 1, &[], DONE, octets)
        && comes_out(levels, count, 7, &[], DONE, octets)
        && comes_out(levels, count, MOST, &[], DONE, octets)
}

#[test]
fn a_terminator_stays(rt: HostRuntime) {
    let mut levels = [0; MOST];
    put_levels(END, 0, &mut levels);
    assert!(rt; comes_to(&levels, 72, END));
}

#[test]
fn the_last_group_is_filled_with_zeros(rt: HostRuntime) {
    let mut levels = [0; MOST];
    put_levels(END, 0, &mut levels);
    let mut octets = [0; 18];
    octets[..17].copy_from_slice(&END[..17]);
    assert!(rt; comes_to(&levels, 70, &octets));
}

#[test]
fn codewords_of_equal_cost(rt: HostRuntime) {
    assert!(rt; comes_to(&moved(12, HALF), 216, END_LINK));
}

#[test]
fn four_wrong_codewords_are_erased(rt: HostRuntime) {
    assert!(rt; comes_to(&moved(4, BEYOND), 216, END_LINK));
}

#[test]
fn five_wrong_codewords_stay_as_decoded(rt: HostRuntime) {
    let octets =
        b"\x55\x75\xF5\xFF\x77\xFF\x00\x0F\xED\xDF\x24\xA9\xD7\x87\x01\x2A\x58\x41\x4A\x96\x10\x4A\x96\x10\
    \x4A\x96\x11\x12\xA5\x84\x00\x00\x00\x00\x00\x01\x00\x00\x00\x00\x00\x00\x00\x00\x01\x00\x00\x00\
    \x00\x00\x00\x00\x00\x01";
    assert!(rt; comes_to(&moved(5, BEYOND), 216, octets.as_slice()));
}

#[test]
fn a_restored_unit_is_decided(rt: HostRuntime) {
    let mut levels = [0; MOST];
    put_levels(LOST, 0, &mut levels);
    move_words(4, BEYOND, 216, &mut levels);
    assert!(rt; comes_to(&levels, 432, &ALL[..108]));
    put_levels(END, 432, &mut levels);
    assert!(rt; comes_to(&levels, MOST, ALL));
}

#[test]
fn nothing_is_written_before_it_is_settled(rt: HostRuntime) {
    let mut levels = [0; MOST];
    put_levels(LOST, 0, &mut levels);
    move_words(4, BEYOND, 216, &mut levels);
    assert!(rt; comes_out(&levels, 432, 432, &[2], FilterEnd::ReadFault, END_LINK));
    put_levels(END, 432, &mut levels);
    assert!(rt; comes_out(&levels, MOST, MOST, &[2], FilterEnd::ReadFault, ALL));
}

#[test]
fn a_unit_at_an_odd_bit_stays(rt: HostRuntime) {
    let octets =
        b"\x2A\xBA\xFA\xFF\xBB\xFF\x80\x07\xF6\xEF\x92\x54\xEB\xC3\x80\x00\x10\x00\x80\x00\x00\x00\x00\x00\
    \x00\x00\x00\x80\x00\x00\x00\x00\x00\x00\x00\x00\x80\x00\x00\x00\x00\x00\x00\x00\x00\x80\x00\x00\
    \x00\x00\x00\x00\x00\x00\x80";
    let mut levels = [0; MOST];
    put_levels(octets, 0, &mut levels);
    assert!(rt; comes_to(&levels, 220, octets.as_slice()));
}

#[test]
fn a_unit_at_an_even_bit_is_decided(rt: HostRuntime) {
    let mut octets =
        *b"\x15\x5D\x7D\x7F\xDD\xFF\xC0\x03\xFB\x77\xC9\x2A\x75\xE1\xC0\x00\x08\x00\x40\x00\x00\x00\x00\x00\
    \x00\x00\x00\x40\x00\x00\x00\x00\x00\x00\x00\x00\x40\x00\x00\x00\x00\x00\x00\x00\x00\x40\x00\x00\
    \x00\x00\x00\x00\x00\x00\x40";
    let mut levels = [0; MOST];
    put_levels(&octets, 0, &mut levels);
    octets[16] = 0;
    assert!(rt; comes_to(&levels, 220, &octets));
}

#[test]
fn a_unit_that_is_cut_stays(rt: HostRuntime) {
    let octets =
        b"\x55\x75\xF5\xFF\x77\xFF\x00\x0F\xED\xDF\x24\xA9\xD7\x87\x01\x2A\x58\x41\x4A\x96\x10\x4A\x96\x10\
    \x4A\x96\x11\x00\x00\x00\x00\x00\x00\x00\x00\x01\x00\x00\x00\x00\x00\x00\x00\x00\x01\x00\x00\x00\
    \x00\x00\x00\x00\x00";
    assert!(rt; comes_to(&moved(4, BEYOND), 212, octets.as_slice()));
}
