//! The data of the station crates: messages of packet data, long messages and their parts, and lists of both. Also the
//! positions of bit errors in a transmission, the results of a sender and a receiver, and the types of steps.
//!
//! A message is a list of at most 2,028 octets, in the order of transmission: as many as the 127 blocks of a packet
//! (PDU) carry besides the packet CRC. A long message is a list of at most 4,000, which is transmitted in parts, each a
//! message. Both are a `MessageOf` a number of octets, which contracts see as the octets, and their lists a
//! `MessageListOf` that number.
//!
//! ```
//! let mut sent = MessageList::new(rt.alloc());
//! sent.reserve(1)?;
//! sent.push(&Message::new(b"ab").ok_or("two octets")?);
//! assert_eq!(rt; sent.get(0), b"ab".as_slice());
//! ```
#![tactic(auto)]

mod answers;
mod flips;
pub mod laws;
mod long_message;
mod message;
mod message_list;
mod step_kind;
#[cfg(test)]
mod tests;

pub use answers::{Heard, Offer, Reopen, Resend, SenderHeard};
pub use flips::Flips;
pub use long_message::{LAST_PART, LongList, LongMessage, MOST_LONG, PART_OCTETS};
pub use message::{Message, MessageOf};
pub use message_list::{MessageList, MessageListOf};
pub use step_kind::{StepKind, Way};
