//! The results of the calls of a sender and a receiver, with the packet (PDU) to transmit, if there is one; and the
//! step of each result.

ghost use Rattle.std.specs.Prelude.{◌≡◌};
ghost use Rattle.p25_messages.specs.AnswerSteps.{offer_step, resend_step, sender_step, reopen_step, receiver_step};

use crate::message::Message;
use crate::step_kind::{StepKind, Way};
use p25_packet_blocks::{Flags, Packet};

/// The result of offering a message.
#[derive(Clone, Debug, PartialEq, Eq, Drop)]
pub enum Offer {
    /// The message is outstanding: its number, the number of its blocks, and the packet to transmit.
    Taken {
        number: u8,
        blocks: u8,
        packet: Packet,
    },
    /// A message or the opening packet is outstanding.
    Busy,
    /// The sender is down.
    Down,
}

/// Returns the step of the result, and the packet to transmit.
impl From<Offer> for (StepKind, Option<Packet>) {
    ghost from_gives = { λ offer step. step ≡ offer_step offer };

    fn from(offer: Offer) -> (StepKind, Option<Packet>) {
        match offer {
            Offer::Taken {
                number,
                blocks,
                packet,
            } => (StepKind::Taken { number, blocks }, Some(packet)),
            Offer::Busy => (StepKind::Busy, None),
            Offer::Down => (StepKind::OfferDown, None),
        }
    }
}

/// The result of a timeout.
#[derive(Clone, Debug, PartialEq, Eq, Drop)]
pub enum Resend {
    /// The outstanding packet is to be transmitted again: its number, the number of transmissions including this one,
    /// and the packet.
    Sent {
        number: u8,
        tries: u8,
        packet: Packet,
    },
    /// Nothing is outstanding.
    Idle,
    /// The sender is down, or goes down because 16 transmissions were made.
    Down,
}

/// Returns the step of the result, and the packet to transmit.
impl From<Resend> for (StepKind, Option<Packet>) {
    ghost from_gives = { λ resend step. step ≡ resend_step resend };

    fn from(resend: Resend) -> (StepKind, Option<Packet>) {
        match resend {
            Resend::Sent {
                number,
                tries,
                packet,
            } => (StepKind::Resent { number, tries }, Some(packet)),
            Resend::Idle => (StepKind::Idle, None),
            Resend::Down => (StepKind::TimeoutDown, None),
        }
    }
}

/// The result of a packet (PDU) that a sender receives.
#[derive(Clone, Debug, PartialEq, Eq, Drop)]
pub enum SenderHeard {
    /// The message with this number was received by the other station.
    Acknowledged {
        number: u8,
    },
    /// The session is open again, by the opening packet with this number.
    Opened {
        number: u8,
    },
    /// The blocks with a true flag in `wanted` are to be transmitted again.
    Retry {
        number: u8,
        wanted: Flags,
        tries: u8,
        packet: Packet,
    },
    /// The whole message is to be transmitted again.
    Repeat {
        number: u8,
        tries: u8,
        packet: Packet,
    },
    /// The packet is not a response, or is not a response to the outstanding packet.
    Ignored,
    /// The response requires a transmission, but 16 were made; the sender goes down.
    Down,
}

/// Returns the step of the result, and the packet to transmit.
impl From<SenderHeard> for (StepKind, Option<Packet>) {
    ghost from_gives = { λ heard step. step ≡ sender_step heard };

    fn from(heard: SenderHeard) -> (StepKind, Option<Packet>) {
        match heard {
            SenderHeard::Acknowledged { number } => (StepKind::Acknowledged { number }, None),
            SenderHeard::Opened { number } => (StepKind::LinkOpened { number }, None),
            SenderHeard::Retry {
                number,
                wanted,
                tries,
                packet,
            } => {
                let kind = StepKind::Retry {
                    number,
                    wanted,
                    tries,
                };
                (kind, Some(packet))
            }
            SenderHeard::Repeat {
                number,
                tries,
                packet,
            } => (StepKind::Repeat { number, tries }, Some(packet)),
            SenderHeard::Ignored => (StepKind::Ignored { way: Way::Answers }, None),
            SenderHeard::Down => (StepKind::AnswerDown, None),
        }
    }
}

/// The result of reopening the session.
#[derive(Clone, Debug, PartialEq, Eq, Drop)]
pub enum Reopen {
    /// The opening packet is to be transmitted.
    Sent { number: u8, packet: Packet },
    /// The sender is not down.
    Up,
}

/// Returns the step of the result, and the packet to transmit.
impl From<Reopen> for (StepKind, Option<Packet>) {
    ghost from_gives = { λ reopen step. step ≡ reopen_step reopen };

    fn from(reopen: Reopen) -> (StepKind, Option<Packet>) {
        match reopen {
            Reopen::Sent { number, packet } => (StepKind::Reopened { number }, Some(packet)),
            Reopen::Up => (StepKind::Up, None),
        }
    }
}

/// The result of a packet (PDU) that a receiver receives; `answer` is the response to transmit.
#[derive(Clone, Debug, PartialEq, Eq, Drop)]
pub enum Heard {
    /// The message is whole, and delivered.
    Delivered {
        number: u8,
        message: Message,
        answer: Packet,
    },
    /// The session is opened anew, by the opening packet with this number.
    Opened {
        number: u8,
        answer: Packet,
    },
    /// The last message was received again.
    Again {
        number: u8,
        answer: Packet,
    },
    /// Blocks are missing: the flags of those that are held.
    Kept {
        number: u8,
        flags: Flags,
        answer: Packet,
    },
    /// All blocks were received, but the packet CRC does not agree, or the pad is longer than the blocks.
    RefusedCrc {
        number: u8,
        answer: Packet,
    },
    /// The number is neither that of the last message nor that of the next one.
    RefusedOrder {
        last: u8,
        answer: Packet,
    },
    /// The packet is not confirmed, has another LLID, or contains nothing that can be kept.
    Ignored,
}

/// Returns the step of the result, and the response to transmit.
impl From<Heard> for (StepKind, Option<Packet>) {
    ghost from_gives = { λ heard step. step ≡ receiver_step heard };

    fn from(heard: Heard) -> (StepKind, Option<Packet>) {
        let (kind, answer) = match heard {
            Heard::Delivered {
                number,
                message,
                answer,
            } => (StepKind::Delivered { number, message }, answer),
            Heard::Opened { number, answer } => (StepKind::SynHeard { number }, answer),
            Heard::Again { number, answer } => (StepKind::Again { number }, answer),
            Heard::Kept {
                number,
                flags,
                answer,
            } => (StepKind::Kept { number, flags }, answer),
            Heard::RefusedCrc { number, answer } => (StepKind::RefusedCrc { number }, answer),
            Heard::RefusedOrder { last, answer } => (StepKind::RefusedOrder { last }, answer),
            Heard::Ignored => return (StepKind::Ignored { way: Way::Packets }, None),
        };
        (kind, Some(answer))
    }
}
