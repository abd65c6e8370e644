//! The blocks of broken packets (PDU), decoded again from their levels.

ghost use Rattle.std.specs.Prelude.{◌≡◌, ◌+◌, ◌*◌, ◌<◌, ◌≤◌, ◌||◌, ◌++◌, length, if◌then◌else◌};
ghost use Rattle.p25_bits.specs.Numbers.{joined_below};
ghost use Rattle.p25_packet_blocks.specs.Lengths.{packet_sent_length};
ghost use Rattle.p25_soft.specs.SoftPaths.{soft_block};
ghost use Rattle.p25_soft.specs.Softened.{IsHeard, block_levels, blocks_replaced, blocks_to_follow, is_block, names_all, names_block, sent_dibit, softened, softened_block, softened_count, softened_packet};

use crate::reading::{BLOCK_LEVELS, read_soft};
use p25_bch_nid::PDU;
use p25_bits::BitBuf;
use p25_packet_blocks::{BLOCK_LENGTH, BLOCKS_AT, read_head_at};
use p25_status::{Field, FieldList, Statuses, unweave, weave};
use p25_trellis::{Half, Rate, ThreeQuarter, encode_block};
use p25_units::Item;

// The number of dibits of a data unit before each of its status symbols.
const BARE_DIBITS: usize = 35;

// Returns the number of blocks to follow that the header of a packet (PDU) states, or none if the header is
// uncorrectable.
fn told_blocks(sent: &BitBuf) -> usize
    requires { 316 ≤ length sent.now }
    ensures value { result ≡ blocks_to_follow sent.now }
    ensures most { result ≤ 127 }
{
    match read_head_at(sent, 0) {
        Ok(read) => usize::from(read.head.blocks()),
        Err(_) => 0,
    }
}

// Returns whether the packet CRC is among the fields that fail.
fn fails_whole(fields: &FieldList) -> bool
    ensures { result ≡ names_all fields.now }
{
    for i in 0..fields.len() {
        match fields.get(i) {
            Field::PacketCrc => return true,
            _ => {}
        }
    }
    false
}

// Returns whether a field is the block at a position.
fn is_block(field: Field, j: u8) -> bool
    ensures { result ≡ is_block j field }
{
    match field {
        Field::Block(place) => place == j,
        _ => false,
    }
}

// Returns whether the block at a position is among the fields that fail.
fn fails_block(fields: &FieldList, j: u8) -> bool
    ensures { result ≡ names_block fields.now j }
{
    for i in 0..fields.len() {
        if is_block(fields.get(i), j) {
            return true;
        }
    }
    false
}

// Returns the levels of the block at a position after the header block.
fn levels_of(levels: &[i8], j: usize) -> [i8; BLOCK_LEVELS]
    requires place { j ≤ 126 }
    requires there { sent_dibit (154 + 98 * j + 97) < length levels.now }
    ensures list { result ≡ block_levels levels.now j }
    ensures len { length result ≡ 98 }
{
    let first = BLOCKS_AT / 2 + BLOCK_LEVELS * j;
    let mut block = [0; BLOCK_LEVELS];
    for i in 0..BLOCK_LEVELS {
        let dibit = first + i;
        block[i] = levels[dibit + dibit / BARE_DIBITS];
    }
    block
}

// Appends the transmitted bits of the soft path of a block's levels.
fn append_soft<R: Rate>(levels: &[i8], out: &mut BitBuf)
    requires levels { length levels.now ≡ 98 }
    requires room { length out.old + 196 ≤ 25928 }
    ensures list { out.new ≡ out.old ++ soft_block R.STATES R.point_of levels.now }
    ensures len { length out.new ≡ length out.old + 196 }
{
    let mut room = [0; 18];
    let octets = &mut room[..R::OCTETS];
    read_soft::<R>(levels, octets);
    encode_block::<R>(octets, out);
}

// Appends the block at a position, decoded from its levels if it fails or the packet CRC does, and returns the number
// of blocks decoded so, 1 or 0.
fn append_block(fields: &FieldList, levels: &[i8], bare: &BitBuf, j: u8, out: &mut BitBuf) -> u32
    requires place { j ≤ 126 }
    requires levels { sent_dibit (154 + 98 * j + 97) < length levels.now }
    requires there { 308 + 196 * j + 196 ≤ length bare.now }
    requires room { length out.old + 196 ≤ 25928 }
    ensures list { out.new ≡ out.old ++ softened_block fields.now levels.now bare.now j }
    ensures len { length out.new ≡ length out.old + 196 }
    ensures count { result ≡ (if names_all fields.now || names_block fields.now j then 1 else 0) }
    ensures few { result ≤ 1 }
{
    let place = usize::from(j);
    if fails_whole(fields) {
        append_soft::<Half>(&levels_of(levels, place), out);
        return 1;
    }
    if fails_block(fields, j) {
        append_soft::<ThreeQuarter>(&levels_of(levels, place), out);
        return 1;
    }
    out.append(bare, BLOCKS_AT + BLOCK_LENGTH * place, BLOCK_LENGTH);
    0
}

// Appends the first blocks, and returns the number of them that were decoded from levels.
fn append_blocks(
    fields: &FieldList,
    levels: &[i8],
    bare: &BitBuf,
    blocks: usize,
    out: &mut BitBuf,
) -> u32
    requires few { blocks ≤ 127 }
    requires levels { sent_dibit (153 + 98 * blocks) < length levels.now }
    requires there { 308 + 196 * blocks ≤ length bare.now }
    requires room { length out.old + 196 * blocks ≤ 25928 }
    ensures list { out.new ≡ out.old ++ joined_below blocks (softened_block fields.now levels.now bare.now) }
    ensures len { length out.new ≡ length out.old + 196 * blocks }
    ensures count { result ≡ blocks_replaced fields.now blocks }
{
    let mut count = 0;
    for j in 0..blocks {
        count += append_block(fields, levels, bare, j as u8, out);
    }
    count
}

// Replaces the bits of a broken packet (PDU).
fn soften_packet(fields: &FieldList, levels: &[i8], raw: &mut BitBuf) -> u32
    requires long { length raw.old ≡ packet_sent_length (blocks_to_follow raw.old) }
    requires levels { length raw.old ≡ 2 * length levels.now }
    ensures bits { raw.new ≡ softened_packet fields.now levels.now raw.old }
    ensures count { result ≡ blocks_replaced fields.now (blocks_to_follow raw.old) }
    ensures len { length raw.new ≡ length raw.old }
    ensures kept { result ≡ 0 → raw.new ≡ raw.old }
{
    let blocks = told_blocks(raw);
    let mut bare = BitBuf::new();
    let mut statuses = Statuses::new();
    unweave(raw, 0, raw.len(), &mut bare, &mut statuses);
    let mut softened = BitBuf::new();
    softened.append(&bare, 0, BLOCKS_AT);
    let count = append_blocks(fields, levels, &bare, blocks, &mut softened);
    let behind = BLOCKS_AT + BLOCK_LENGTH * blocks;
    softened.append(&bare, behind, bare.len() - behind);
    weave(&softened, &statuses, raw);
    count
}

/// Replaces the bits of the failing blocks of a broken packet (PDU) by the transmitted bits of their soft paths, and
/// returns the number of replaced blocks. It requires in `raw` the bits that the item covers, and in `levels` the
/// levels from which they were decided, one for each two bits. It also requires that a broken item is the one into
/// which these bits are divided.
///
/// In a packet with failing blocks each of these is decoded at three-quarter rate, and in one whose packet CRC fails
/// every block to follow at half rate. Each other bit is unchanged. All bits of every other item are unchanged, and
/// those of a packet whose format fails; then the result is 0. A replaced block is not checked again. This is the
/// project's own rule.
pub fn soften(item: &Item, levels: &[i8], raw: &mut BitBuf) -> u32
    requires { IsHeard item.now levels.now raw.old }
    ensures bits { raw.new ≡ softened item.now levels.now raw.old }
    ensures count { result ≡ softened_count item.now raw.old }
    ensures len { length raw.new ≡ length raw.old }
    ensures kept { result ≡ 0 → raw.new ≡ raw.old }
{
    match item {
        Item::Broken { duid, fields, .. } => {
            if *duid == PDU {
                soften_packet(fields, levels, raw)
            } else {
                0
            }
        }
        _ => 0,
    }
}
