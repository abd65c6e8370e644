//! The octets of the blocks of a message, with its pad octets and its check.

ghost use Rattle.std.specs.Prelude.{◌≡◌, ℕ, ◌+◌, ◌*◌, ◌<◌, ◌≤◌, List, length, IfSome};
ghost use Rattle.p25_bits.specs.{Bits.{part}, Numbers.{octets_number}};
ghost use Rattle.p25_delivery.specs.{MessageBlocks.{block_count, pad_count, message_octets, unpadded}, Places.{all_octets}};

use arrayvec::ArrayVec;
use p25_crc::crc32;
use p25_messages::Message;
use p25_packet_blocks::Block;
use std::marker::Model;

// Returns the number of blocks that carry a message.
pub(crate) fn blocks_for(message: &Message) -> u8
    ensures value { result ≡ block_count (length message.now) }
    ensures some { 0 < result }
    ensures most { result ≤ 127 }
{
    ((message.octets().len() + 19) / 16) as u8
}

// Returns the number of pad octets after a message.
pub(crate) fn pad_for(message: &Message) -> u8
    ensures value { result ≡ pad_count (length message.now) }
    ensures most { result < 16 }
{
    let count = message.octets().len();
    (16 * ((count + 19) / 16) - 4 - count) as u8
}

// The octets that the blocks of a message carry, at most 16 for each of 127: the message, its pad octets of 0, and the
// packet CRC.
#[derive(Drop)]
pub(crate) struct MessageOctets {
    items: ArrayVec<u8, 2032>,
}

impl Model for MessageOctets {
    ghost Value = { List ℕ };

    ghost view = { λ s. s.items.items };
}

impl MessageOctets {
    // Returns the octets for a message.
    #[tactic(auto, unfolding(crate::specs::MessageBlocks::message_octets, p25_packet_blocks::specs::Image::checked_octets))]
    pub(crate) fn of(message: &Message) -> MessageOctets
        ensures list { result ≡ message_octets message.now }
        ensures len { length result ≡ 16 * block_count (length message.now) }
    {
        let mut items = ArrayVec::new();
        items.try_extend_from_slice(message.octets()).unwrap();
        let pad = pad_for(message) as usize;
        items.try_extend_from_slice(&[0; 16][..pad]).unwrap();
        let check = crc32(items.as_slice());
        items.try_extend_from_slice(&check.to_be_bytes()).unwrap();
        MessageOctets { items }
    }

    // Returns the octets of blocks in their entries, or `None` if an entry is empty.
    pub(crate) fn joined(places: &[Option<Block>]) -> Option<MessageOctets>
        requires { length places.now ≤ 127 }
        ensures octets { result ≡ all_octets places.now }
        ensures len { IfSome result (λ octets. length octets ≡ 16 * length places.now) }
    {
        let mut items = ArrayVec::new();
        for place in places {
            let block = (*place)?;
            items.try_extend_from_slice(block.octets()).unwrap();
        }
        Some(MessageOctets { items })
    }

    // Returns the block with a serial number.
    pub(crate) fn block(&self, serial: u8) -> Block
        requires serial { serial < 128 }
        requires there { 16 * serial + 16 ≤ length self.now }
        ensures { result ≡ record { serial = serial; octets = part (16 * serial) 16 self.now } }
    {
        let at = 16 * serial as usize;
        let mut octets = [0; 16];
        octets.copy_from_slice(&self.items.as_slice()[at..at + 16]);
        Block::new(serial, octets)
    }

    // Returns the message of these octets without `pad` pad octets, or `None` if the packet CRC does not agree or there
    // are fewer octets.
    #[tactic(auto, unfolding(crate::specs::MessageBlocks::unpadded))]
    pub(crate) fn message(&self, pad: u8) -> Option<Message>
        requires { 4 ≤ length self.now }
        ensures { result ≡ unpadded self.now pad }
    {
        let octets = self.items.as_slice();
        let count = octets.len() - 4;
        if pad as usize > count || number_in(&octets[count..]) != crc32(&octets[..count]) {
            return None;
        }
        Message::new(&octets[..count - pad as usize])
    }
}

// Returns the number that four octets write.
fn number_in(octets: &[u8]) -> u32
    requires { length octets.now ≡ 4 }
    ensures { result ≡ octets_number octets.now }
{
    u32::from_be_bytes([octets[0], octets[1], octets[2], octets[3]])
}
