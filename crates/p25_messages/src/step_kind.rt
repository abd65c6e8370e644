//! The direction of a transmission, and the types of steps.

use crate::message::Message;
use p25_packet_blocks::Flags;
use p25_status::Field;

/// A direction of the channel.
#[derive(Clone, Copy, Debug, PartialEq, Eq)]
pub enum Way {
    /// From the sender to the receiver.
    Packets,
    /// From the receiver to the sender.
    Answers,
}

/// The type of a step. If it comes from the result of a station, it has the name and the fields of that result, but no
/// packet.
#[derive(Clone, Debug, PartialEq, Eq, Drop)]
pub enum StepKind {
    /// The message is outstanding, and its packet was transmitted.
    Taken {
        number: u8,
        blocks: u8,
    },
    /// A message or the opening packet is outstanding.
    Busy,
    /// The sender is down, so it takes no message.
    OfferDown,
    /// The outstanding packet was transmitted again: the number of transmissions, including this one.
    Resent {
        number: u8,
        tries: u8,
    },
    /// Nothing is outstanding.
    Idle,
    /// The sender is down: 16 transmissions were made.
    TimeoutDown,
    /// The opening packet was transmitted.
    Reopened {
        number: u8,
    },
    /// The sender is not down, so nothing is to be reopened.
    Up,
    /// Nothing was transmitted in that direction before.
    Nothing {
        way: Way,
    },
    /// The received bits are not a decodable packet (PDU): the first field that fails.
    Lost {
        way: Way,
        field: Field,
    },
    /// The packet has another network access code (NAC), or the station ignores it.
    Ignored {
        way: Way,
    },
    /// The message was received whole.
    Delivered {
        number: u8,
        message: Message,
    },
    /// The opening packet was received.
    SynHeard {
        number: u8,
    },
    /// The last message was received again.
    Again {
        number: u8,
    },
    /// Blocks are missing: the flags of those that are held.
    Kept {
        number: u8,
        flags: Flags,
    },
    /// All blocks were received, but they are not a message.
    RefusedCrc {
        number: u8,
    },
    /// The number is neither that of the last message nor that of the next one.
    RefusedOrder {
        last: u8,
    },
    /// The outstanding message was received by the other station.
    Acknowledged {
        number: u8,
    },
    /// The session is open again.
    LinkOpened {
        number: u8,
    },
    /// The blocks with a true flag in `wanted` were transmitted again.
    Retry {
        number: u8,
        wanted: Flags,
        tries: u8,
    },
    /// The whole message was transmitted again.
    Repeat {
        number: u8,
        tries: u8,
    },
    /// The response requires a transmission, but 16 were made; the sender goes down.
    AnswerDown,
}
