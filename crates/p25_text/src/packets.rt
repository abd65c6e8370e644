//! The values of packets (PDU): their headers, blocks and octets, read from words.

ghost use Rattle.std.specs.Prelude.{◌≡◌, ◌≤◌, length, IfSome};
ghost use Rattle.p25_packet_blocks.specs.Kinds.{IsPlainFormat};
ghost use Rattle.p25_line.specs.CommaLists.{counted, list_in};
ghost use Rattle.p25_text.specs.{Packets.{block_in, confirmed_in, plain_in, slot_in}, Values.{octets_or_none}};

use super::values::octets_value;
use p25_line::{comma_part, is_dash, octets_or_dash};
use p25_packet_blocks::{
    Block, CONFIRMED_FORMAT, Confirmed, Octets, Packet, PacketHead, Plain, Slot, Slots,
};

/// Returns the confirmed packet (PDU) of a header and of its blocks. `None` is returned in exactly three cases: a value
/// does not have its form, the format is not 16 hex, or there are not as many blocks as the header has to follow.
pub fn confirmed_value(head: &[u8], blocks: &[u8]) -> Option<Packet>
    ensures { result ≡ confirmed_in head.now blocks.now }
{
    let head = PacketHead(octets_value::<10>(head)?);
    if head.format() != CONFIRMED_FORMAT {
        return None;
    }
    let slots = slots_value(blocks, usize::from(head.blocks()))?;
    Some(Packet::Confirmed(Confirmed::new(head, slots)))
}

/// Returns the packet (PDU) of a header of a format, 15 or 03 hex, and of its octets before the packet CRC. `None` is
/// returned if and only if a value does not have its form, the format is another, or the number of octets is wrong. The
/// right number is twelve for each block to follow less four, or none if there is no block to follow.
pub fn plain_value(format: u8, head: &[u8], octets: &[u8]) -> Option<Packet>
    requires { IsPlainFormat format }
    ensures { result ≡ plain_in format head.now octets.now }
{
    let head = PacketHead(octets_value::<10>(head)?);
    if head.format() != format {
        return None;
    }
    let count = (12 * usize::from(head.blocks())).saturating_sub(4);
    let octets = octets_or_none_value(octets, count)?;
    Some(Packet::Plain(Plain::new(head, octets)))
}

// Returns the octets that a word decodes to, if there are `count` of them. `-` represents none.
fn octets_or_none_value(word: &[u8], count: usize) -> Option<Octets>
    requires { count ≤ 1520 }
    ensures value { result ≡ octets_or_none count word.now }
    ensures len { IfSome result (λ octets. length octets ≡ count) }
{
    let mut room = [0; 1520];
    if octets_or_dash(word, &mut room)? != count {
        return None;
    }
    let mut octets = Octets::new();
    octets.extend(&room[..count]);
    Some(octets)
}

// Returns the slots that a word decodes to, if there are `count` of them.
fn slots_value(word: &[u8], count: usize) -> Option<Slots>
    requires { count ≤ 127 }
    ensures value { result ≡ counted count (list_in slot_in word.now) }
    ensures len { IfSome result (λ slots. length slots ≡ count) }
{
    let mut slots = Slots::new();
    if is_dash(word) {
        return if count == 0 { Some(slots) } else { None };
    }
    let mut start = 0;
    for _part in 0..count {
        if start > word.len() {
            return None;
        }
        let part = comma_part(word, start);
        slots.push(Slot::Good(block_value(part)?));
        start += part.len() + 1;
    }
    // The end follows the last part, and no comma.
    if start <= word.len() {
        return None;
    }
    Some(slots)
}

// Returns the block that a text decodes to.
fn block_value(text: &[u8]) -> Option<Block>
    ensures { result ≡ block_in text.now }
{
    if text.len() != 35 || text[2] != b':' {
        return None;
    }
    let serial = octets_value::<1>(&text[..2])?[0];
    let octets = octets_value::<16>(&text[3..])?;
    if serial < 128 {
        Some(Block::new(serial, octets))
    } else {
        None
    }
}
