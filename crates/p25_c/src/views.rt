//! Items of a stream
//!
//! Each call does for an item that `p25_stream_next` has returned what the call of the same name does with octets. The octets of the item
//! are in the stream until octets or dibits are pushed. Each call returns `P25_OUTSIDE` before all else if the numbers fit no stream.

ghost use Rattle.std.specs.Prelude.{◌≡◌, false, true, Ok, Err, negsuc, length};
ghost use Rattle.p25_c.specs.Building.{IsWritingUnder};
ghost use Rattle.p25_c.specs.Fields.{fields_answer, fields_left};
ghost use Rattle.p25_c.specs.Followers.{followed_octets, follower_left};
ghost use Rattle.p25_c.specs.Items.{items_asked};
ghost use Rattle.p25_c.specs.Packets.{packet_answer, packet_asked, packet_left};
ghost use Rattle.p25_c.specs.{Places.{bridged_at, item_cut, outside, repaired_at}, Relays.{relayed_at}, Rooms.{IsWriting}};
ghost use Rattle.p25_c.specs.Streams.{is_stream, octets_held};

use crate::answers::OUTSIDE;
use crate::fields::{FieldParts, p25_unit_fields};
use crate::followers::{FollowerState, p25_follower_take};
use crate::items::ItemParts;
use crate::packets::{PacketParts, p25_packet_read};
use crate::relays::p25_relay_at;
use crate::repeats::{p25_bridge_at, p25_item_octets, p25_repair_at};
use crate::stream::{Stream, is_stream};

/// Does what `p25_item_octets` does with an item of a stream. Since 1.1.
#[unsafe(no_mangle)]
pub extern "C" fn p25_stream_item_octets(stream: &Stream, item: &ItemParts, into: &mut [u8]) -> i32
    ensures strange { is_stream stream.now ≡ false → IsWriting (Err outside) into.old into.new result }
    ensures written { is_stream stream.now ≡ true
        → IsWriting (item_cut stream.now.begin item.now.place item.now.bits (octets_held stream.now)) into.old into.new result }
{
    if !is_stream(stream) {
        return OUTSIDE;
    }
    let octets = &stream.octets[..stream.held as usize];
    p25_item_octets(octets, stream.begin, item, into)
}

/// Does what `p25_repair_at` does with an item of a stream. Since 1.1.
#[unsafe(no_mangle)]
pub extern "C" fn p25_stream_repair(stream: &Stream, item: &ItemParts, into: &mut [u8]) -> i32
    ensures strange { is_stream stream.now ≡ false → IsWriting (Err outside) into.old into.new result }
    ensures written { is_stream stream.now ≡ true
        → IsWriting (repaired_at stream.now.begin item.now.place (octets_held stream.now)) into.old into.new result }
{
    if !is_stream(stream) {
        return OUTSIDE;
    }
    let octets = &stream.octets[..stream.held as usize];
    p25_repair_at(octets, stream.begin, item.place, into)
}

/// Does what `p25_bridge_at` does with an item of a stream. Since 1.1.
#[unsafe(no_mangle)]
pub extern "C" fn p25_stream_bridge(
    stream: &Stream,
    item: &ItemParts,
    nac: u16,
    status: u8,
    into: &mut [u8],
) -> i32
    ensures strange { is_stream stream.now ≡ false → IsWriting (Err outside) into.old into.new result }
    ensures written { is_stream stream.now ≡ true
        → IsWritingUnder nac status (λ symbol. bridged_at nac symbol stream.now.begin item.now.place (octets_held stream.now)) into.old into.new result }
{
    if !is_stream(stream) {
        return OUTSIDE;
    }
    let octets = &stream.octets[..stream.held as usize];
    p25_bridge_at(octets, stream.begin, item.place, nac, status, into)
}

/// Does what `p25_relay_at` does with an item of a stream: the stream has decided it. Since 1.1.
#[unsafe(no_mangle)]
pub extern "C" fn p25_stream_relay(
    stream: &Stream,
    item: &ItemParts,
    nac: u16,
    status: u8,
    into: &mut [u8],
) -> i32
    ensures strange { is_stream stream.now ≡ false → IsWriting (Err outside) into.old into.new result }
    ensures written { is_stream stream.now ≡ true
        → IsWritingUnder nac status (λ symbol. relayed_at nac symbol stream.now.begin item.now.place (octets_held stream.now)) into.old into.new result }
{
    if !is_stream(stream) {
        return OUTSIDE;
    }
    let octets = &stream.octets[..stream.held as usize];
    p25_relay_at(octets, stream.begin, item.place, nac, status, into)
}

/// Does what `p25_unit_fields` does with an item of a stream. Since 1.1.
#[unsafe(no_mangle)]
pub extern "C" fn p25_stream_fields(
    stream: &Stream,
    item: &ItemParts,
    fields: &mut FieldParts,
) -> i32
    ensures strange_answer { is_stream stream.now ≡ false → result ≡ negsuc 0 }
    ensures strange_fields { is_stream stream.now ≡ false → fields.new ≡ fields.old }
    ensures answer { is_stream stream.now ≡ true
        → result ≡ fields_answer (items_asked true stream.now.begin item.now.place (octets_held stream.now)) }
    ensures fields { is_stream stream.now ≡ true
        → fields.new ≡ fields_left (items_asked true stream.now.begin item.now.place (octets_held stream.now)) fields.old }
{
    if !is_stream(stream) {
        return OUTSIDE;
    }
    let octets = &stream.octets[..stream.held as usize];
    p25_unit_fields(octets, stream.begin, item.place, fields)
}

/// Does what `p25_packet_read` does with an item of a stream. Since 1.1.
#[unsafe(no_mangle)]
pub extern "C" fn p25_stream_packet(
    stream: &Stream,
    item: &ItemParts,
    packet: &mut PacketParts,
) -> i32
    ensures strange_answer { is_stream stream.now ≡ false → result ≡ negsuc 0 }
    ensures strange_packet { is_stream stream.now ≡ false → packet.new ≡ packet.old }
    ensures answer { is_stream stream.now ≡ true
        → result ≡ packet_answer (packet_asked stream.now.begin item.now.place (octets_held stream.now)) }
    ensures packet { is_stream stream.now ≡ true
        → packet.new ≡ packet_left (packet_asked stream.now.begin item.now.place (octets_held stream.now)) packet.old }
{
    if !is_stream(stream) {
        return OUTSIDE;
    }
    let octets = &stream.octets[..stream.held as usize];
    p25_packet_read(octets, stream.begin, item.place, packet)
}

/// Does what `p25_follower_take` does with an item of a stream. Since 1.1.
#[unsafe(no_mangle)]
pub extern "C" fn p25_stream_follow(
    stream: &Stream,
    item: &ItemParts,
    follower: &mut FollowerState,
    into: &mut [u8],
) -> i32
    ensures strange_written { is_stream stream.now ≡ false → IsWriting (Err outside) into.old into.new result }
    ensures strange_left { is_stream stream.now ≡ false → follower.new ≡ follower.old }
    ensures written { is_stream stream.now ≡ true
        → IsWriting (followed_octets follower.old item.now stream.now.begin (octets_held stream.now)) into.old into.new result }
    ensures left { is_stream stream.now ≡ true
        → follower.new ≡ follower_left follower.old item.now stream.now.begin (octets_held stream.now) (length into.old) }
{
    if !is_stream(stream) {
        return OUTSIDE;
    }
    let octets = &stream.octets[..stream.held as usize];
    p25_follower_take(follower, octets, stream.begin, item, into)
}
