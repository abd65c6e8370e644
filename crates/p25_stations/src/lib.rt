//! Two packet stations and the channel between them: a sender, a receiver, and the reception of a transmitted packet
//! (PDU).
//!
//! A transmission is the data unit of a packet, from its first bit on, with the network access code (NAC) 293 hex and
//! the status symbol 00 throughout. Positions of inverted bits are counted from that first bit. Each event of a world
//! is one step. The rules of the stations and of the channel are this project's, over those of TIA-102.BAAA, Packet
//! Data.
//!
//! ```
//! let mut world = World::new(rt.alloc());
//! let _ = world.step(&Event::Send(Message::new(b"ab").ok_or("two octets")?))?;
//! let _ = world.step(&Event::ToReceiver(Flips::new()))?;
//! assert_eq!(rt; world.delivered().len(), 1);
//! ```
//!
//! Contracts see the reception of a packet as the function `carried_of`, and each step as the function `world_step`.
//! They see a world as its state and the number of steps for which it has capacity. Each world is the run of some
//! events (`HasHistory`): `World::facts`.
#![tactic(auto)]

mod air;
mod fitting;
pub mod laws;
mod newest;
pub mod parts;
mod sessions;
mod stations;
mod step;
#[cfg(test)]
mod tests;
mod truth;
mod world;

pub use air::{Carried, carry, transmit};
pub use newest::Newest;
pub use p25_delivery::{
    Heard, Offer, Receiver, Reopen, Resend, Sender, SenderHeard, StepKind, Way,
};
pub use p25_messages::{Flips, Message, MessageList};
pub use step::{Event, Step};
pub use world::World;
