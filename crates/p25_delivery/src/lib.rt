//! Delivery of messages in confirmed packets (PDU), as a state machine. A sender and a receiver act only when called.
//! The two halves of a station are over them, and there are laws of a delivery between two halves. Their transmissions
//! are values, and the channel belongs to the caller.
//!
//! A sender has at most one outstanding message. Its packets carry a number N(S) of three bits, 0 to 7 and then 0
//! again. The receiver keeps V(R), the number of the last message that it delivered. It stores the blocks of the next
//! one until all are there and the packet CRC agrees. All octets are in the order of transmission. TIA-102.BAAA, Packet
//! Data, Confirmed Delivery; the rules that the standard leaves open are this project's.
//!
//! ```
//! let mut sender = Sender::new();
//! let offer = sender.offer(&Message::new(b"ab").ok_or("two octets")?);
//! assert!(rt; matches!(&offer, Offer::Taken { blocks: 1, .. }));
//! ```
//!
//! Contracts see a sender, a receiver and the halves as their states. They see each call as a function of
//! `SenderRules`, `ReceiverRules` or `HalfRules` that returns the state after it and its result.
#![tactic(auto)]

mod asked;
mod block_places;
mod inbound;
pub mod laws;
mod message_octets;
mod outbound;
mod receiver;
mod sender;
mod sent;
#[cfg(test)]
mod tests;

pub use inbound::Inbound;
pub use outbound::{Mark, Outbound};
pub use p25_messages::{Heard, Offer, Reopen, Resend, SenderHeard, StepKind, Way};
pub use receiver::Receiver;
pub use sender::{Outstanding, Sender};

/// The network access code (NAC) that both stations use.
pub const NAC: u16 = 0x293;

/// The logical link identifier (LLID) that both stations use.
pub const LLID: u32 = 1;
