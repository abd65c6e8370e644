//! Recordings that come in chunks
//!
//! A stream is a struct of the program, of 8,192 octets, which can be copied. It contains no pointer. Whatever its numbers are,
//! each call returns: `P25_OUTSIDE`, if they fit no stream.

ghost use Rattle.std.specs.Prelude.{◌≡◌, ◌-◌, ◌≤◌, true, min, pos, length};
ghost use Rattle.p25_c.specs.Items.{item_answer, item_text_left};
ghost use Rattle.p25_c.specs.Streams.{HasSameBits, IsAppended, IsDibitsPushed, IsPushed, fresh_stream, is_stream, item_told, stream_asked, stream_moved, stream_room};

use crate::answers::{DIBITS_WAIT, ENDED, OUTSIDE};
use crate::dibits::append_dibits;
use crate::items::{ITEM, ItemParts, NONE, blank, find_at, is_inside, item_parts, tell_item};

/// The octets that a stream holds at most.
pub(crate) const STREAM_OCTETS: usize = 8_168;

/// A recording that comes in chunks.
#[derive(Clone, Copy)]
#[repr(C)]
pub struct Stream {
    /// the bit of the recording at which the first octet held is, a multiple of 8
    pub begin: u64,
    /// the bit at which the next item begins: one of those held or their end, at most 2^59
    pub from: u64,
    /// how many octets are held, at most P25_STREAM_OCTETS
    pub held: u32,
    /// 0: more may come
    pub ended: u8,
    /// how many dibits wait for their octet, at most 3
    pub dibits: u8,
    /// these dibits as a number
    pub waiting: u8,
    /// no call looks at it
    pub unused: u8,
    /// the octets held come first
    pub octets: [u8; 8_168],
}

/// Sets `stream` to one that begins at bit 0 and holds nothing. Since 1.1.
#[unsafe(no_mangle)]
pub extern "C" fn p25_stream_begin(stream: &mut Stream)
    ensures { stream.new ≡ fresh_stream }
{
    *stream = Stream {
        begin: 0,
        from: 0,
        held: 0,
        ended: 0,
        dibits: 0,
        waiting: 0,
        unused: 0,
        octets: [0; STREAM_OCTETS],
    };
}

/// Sets `stream` to one that holds nothing and whose first octet will be at bit `begin` of a recording, a multiple of 8 and at most
/// 2^59, so that positions are those of the recording. Each call on it returns `P25_OUTSIDE` if `begin` is another number. A program
/// that joins a recording late, or that has lost octets, goes on so. Since 1.1.
#[unsafe(no_mangle)]
pub extern "C" fn p25_stream_begin_at(stream: &mut Stream, begin: u64)
    ensures { stream.new ≡ record fresh_stream { begin = begin; from = begin } }
{
    p25_stream_begin(stream);
    stream.begin = begin;
    stream.from = begin;
}

/// Takes octets, from the first one on, as many as there is capacity for, and returns how many: all of them, or
/// `P25_STREAM_OCTETS` less the octets held from the one with bit `from` on. Once `p25_stream_next` has returned `P25_NONE`,
/// these are fewer than `P25_NEEDED`, so there is capacity for 4,928 octets or more. Octets before bit `from` may be dropped.
///
/// Else it takes none, the stream stays, and it returns the first of these that applies: `P25_OUTSIDE`, `P25_ENDED`,
/// `P25_DIBITS_WAIT`. Since 1.1.
#[unsafe(no_mangle)]
pub extern "C" fn p25_stream_push(stream: &mut Stream, octets: &[u8]) -> i32
    ensures { IsPushed octets.now stream.old stream.new result }
{
    if !is_stream(stream) {
        return OUTSIDE;
    }
    if stream.ended != 0 {
        return ENDED;
    }
    if stream.dibits != 0 {
        return DIBITS_WAIT;
    }
    make_room(stream, octets.len());
    append(stream, octets)
}

/// Takes dibits, one in each octet as its two lowest bits, from the first one on, as many as there is capacity for: four for each
/// octet. Four make an octet of the recording, the first one highest. Returns how many it took, or the first of these that
/// applies, and then the stream stays: `P25_OUTSIDE`, `P25_ENDED`. Since 1.1.
#[unsafe(no_mangle)]
pub extern "C" fn p25_stream_push_dibits(stream: &mut Stream, dibits: &[u8]) -> i32
    ensures { IsDibitsPushed dibits.now stream.old stream.new result }
{
    if !is_stream(stream) {
        return OUTSIDE;
    }
    if stream.ended != 0 {
        return ENDED;
    }
    make_room(stream, (dibits.len() + 3) / 4);
    append_dibits(stream, dibits)
}

/// Sets `item` to the next item, as `p25_next_item` does, and moves on to the end of it. If `text` has no octets, no text is
/// made, text_length is 0, and the call takes less time. The octets of the item stay in the stream until octets or dibits are
/// pushed, for the calls that take a stream and an item. The items do not depend on the chunks.
///
/// Returns `P25_ITEM`; or `P25_NONE`, if more octets decide, or if the stream has ended and all items have been returned; or
/// `P25_OUTSIDE`. At the last two all stays. Since 1.1.
#[unsafe(no_mangle)]
pub extern "C" fn p25_stream_next(stream: &mut Stream, item: &mut ItemParts, text: &mut [u8]) -> i32
    ensures answer { result ≡ item_answer (stream_asked stream.old) }
    ensures item { item.new ≡ item_told (length text.old) (stream_asked stream.old) item.old }
    ensures text { text.new ≡ item_text_left (stream_asked stream.old) text.old }
    ensures stream { stream.new ≡ stream_moved (stream_asked stream.old) stream.old }
    ensures short { result ≡ pos 1 → item.new.text_length ≤ 8191 }
{
    if !is_stream(stream) {
        return OUTSIDE;
    }
    let mut found = blank();
    let held = &stream.octets[..stream.held as usize];
    if !find_at(
        held,
        stream.begin,
        stream.from,
        stream.ended != 0,
        &mut found,
    ) {
        return NONE;
    }
    if text.is_empty() {
        *item = item_parts(&found, 0);
    } else {
        tell_item(&found, item, text);
    }
    stream.from += found.covered();
    ITEM
}

/// States that no more octets come: what is held is then divided to its end. Dibits that fill no octet are left out. Since 1.1.
#[unsafe(no_mangle)]
pub extern "C" fn p25_stream_end(stream: &mut Stream)
    ensures { stream.new ≡ record stream.old { ended = 1 } }
{
    stream.ended = 1;
}

// Whether the numbers fit a stream.
pub(crate) fn is_stream(stream: &Stream) -> bool
    ensures { result ≡ is_stream stream.now }
{
    if stream.held > STREAM_OCTETS as u32 || stream.dibits > 3 {
        return false;
    }
    u32::from(stream.waiting) < 1 << (2 * u32::from(stream.dibits))
        && is_inside(stream.begin, stream.from, stream.held as usize)
}

// Drops octets that no item needs any more, if there is too little capacity after those that are held.
fn make_room(stream: &mut Stream, wanted: usize)
    requires { is_stream stream.old ≡ true }
    ensures same { HasSameBits stream.old stream.new }
    ensures room { min wanted (8168 - stream.new.held) ≡ min wanted (stream_room stream.old) }
    ensures full { length stream.new.octets ≡ 8168 }
{
    if wanted > STREAM_OCTETS - stream.held as usize {
        let_go(stream);
    }
}

// Drops the octets before the one in which the next item begins.
fn let_go(stream: &mut Stream)
    requires { is_stream stream.old ≡ true }
    ensures same { HasSameBits stream.old stream.new }
    ensures room { 8168 - stream.new.held ≡ stream_room stream.old }
    ensures full { length stream.new.octets ≡ 8168 }
{
    let past = ((stream.from - stream.begin) / 8) as usize;
    let held = stream.held as usize;
    let octets = stream.octets;
    stream.octets[..held - past].copy_from_slice(&octets[past..held]);
    stream.begin += 8 * past as u64;
    stream.held -= past as u32;
}

// Appends octets after those that are held, as many as there is capacity for, and returns how many.
fn append(stream: &mut Stream, octets: &[u8]) -> i32
    requires { stream.old.held ≤ 8168 }
    ensures { IsAppended octets.now stream.old stream.new result }
{
    let held = stream.held as usize;
    let count = octets.len().min(STREAM_OCTETS - held);
    stream.octets[held..held + count].copy_from_slice(&octets[..count]);
    stream.held += count as u32;
    count as i32
}
