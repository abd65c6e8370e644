//! Long messages, and the sizes of their parts.

ghost use Rattle.std.specs.Prelude.{◌≡◌, ◌<◌, ◌≤◌, length};
ghost use Rattle.p25_messages.specs.LongMessages.{part_count, part_mark, part_of};

use crate::message::{Message, MessageOf};
use crate::message_list::MessageListOf;
use arrayvec::ArrayVec;

/// The number of octets of the longest long message: eight parts of 500.
pub const MOST_LONG: usize = 4000;

/// The number of octets in each part but the last, besides its first octet.
pub const PART_OCTETS: usize = 500;

/// The bit that the first octet of the last part has in addition to its number.
pub const LAST_PART: u8 = 0x80;

// The number of octets of the longest part, with its first octet.
const MOST_PART: usize = 501;

/// A long message: a list of at most 4,000 octets, which is transmitted in parts, each a message.
pub type LongMessage = MessageOf<MOST_LONG>;

/// A list of long messages.
pub type LongList = MessageListOf<MOST_LONG>;

// Returns the first octet of a part, of `count` parts.
fn mark_of(count: u8, number: u8) -> u8
    requires below { number < count }
    requires few { count ≤ 8 }
    ensures { result ≡ part_mark count number }
{
    if number + 1 == count {
        number + LAST_PART
    } else {
        number
    }
}

impl LongMessage {
    /// Returns the number of parts, 1 to 8: as many as carry 500 octets each, and one for a message of no octets.
    pub fn parts(&self) -> u8
        ensures parts { result ≡ part_count (length self.now) }
        ensures most { result ≤ 8 }
    {
        let octets = self.octets().len();
        octets.div_ceil(PART_OCTETS).max(1) as u8
    }

    /// Returns part `i`, counted from 0: one octet that is `i`, plus 80 hex for the last part, and then the octets from
    /// 500 times `i` on, at most 500.
    pub fn part(&self, i: u8) -> Message
        requires { i < part_count (length self.now) }
        ensures { result ≡ part_of self.now i }
    {
        let octets = self.octets();
        let start = PART_OCTETS * i as usize;
        let end = octets.len().min(start + PART_OCTETS);
        let mut part: ArrayVec<u8, MOST_PART> = ArrayVec::new();
        part.push(mark_of(self.parts(), i));
        part.try_extend_from_slice(&octets[start..end]).unwrap();
        Message::new(part.as_slice()).unwrap()
    }
}
