//! Dibits that come one by one, of which four make an octet of a stream.

ghost use Rattle.std.specs.Prelude.{◌≡◌, ◌+◌, ◌-◌, ◌*◌, ◌<◌, pos, true, min, length, take};
ghost use Rattle.p25_bits.specs.{Bits.{bits_of}, Numbers.{number_bits}};
ghost use Rattle.p25_c.specs.Streams.{HasTaken, is_stream};

use crate::stream::{STREAM_OCTETS, Stream};

// Appends dibits, as many as there is capacity for, and returns how many.
pub(crate) fn append_dibits(stream: &mut Stream, dibits: &[u8]) -> i32
    requires { is_stream stream.old ≡ true }
    ensures answer { result ≡ pos (min (length dibits.now) (4 * (8168 - stream.old.held))) }
    ensures taken { HasTaken (number_bits 2 (take (4 * (8168 - stream.old.held)) dibits.now)) stream.old stream.new }
{
    let count = dibits.len().min(4 * (STREAM_OCTETS - stream.held as usize));
    for i in 0..count {
        append_dibit(stream, dibits[i]);
    }
    count as i32
}

// Appends the two lowest bits of a dibit.
fn append_dibit(stream: &mut Stream, dibit: u8)
    requires fits { is_stream stream.old ≡ true }
    requires room { 4 * stream.old.held + stream.old.dibits < 4 * 8168 + 3 }
    ensures taken { HasTaken (bits_of 2 dibit) stream.old stream.new }
    ensures count { 4 * stream.new.held + stream.new.dibits ≡ 4 * stream.old.held + stream.old.dibits + 1 }
{
    let bits = 4 * (stream.waiting % 64) + dibit % 4;
    if stream.dibits < 3 {
        stream.waiting = bits;
        stream.dibits += 1;
        return;
    }
    stream.octets[stream.held as usize] = bits;
    stream.held += 1;
    stream.waiting = 0;
    stream.dibits = 0;
}
