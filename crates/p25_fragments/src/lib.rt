//! Long messages over two packet stations: up to 4,000 octets over a delivery whose messages have at most 2,028.
//!
//! A long message is transmitted as parts, each a message of the stations. A part is one octet with the number of the
//! part, plus 80 hex for the last, and then at most 500 octets, in the order of transmission. The header of the packet
//! (PDU) is unchanged; the first octet of a part is this project's own.
//!
//! ```
//! let mut world = LongWorld::new(rt.alloc());
//! let _ = world.step(&LongEvent::Long(LongMessage::new(b"ab").ok_or("two octets")?))?;
//! assert_eq!(rt; world.taken().len(), 1);
//! ```
//!
//! Contracts see a `Joiner` as the number that it expects and the octets that it holds, and each step of a `LongWorld`
//! as the function `long_step`. Each world is the run of some events (`HasLongHistory`): `LongWorld::facts`.
#![tactic(auto)]

mod joiner;
pub mod laws;
mod long_stations;
mod long_step;
mod long_world;
#[cfg(test)]
mod tests;

pub use joiner::{Joined, Joiner};
pub use long_step::{LongEvent, LongStep, Then};
pub use long_world::LongWorld;
pub use p25_messages::{LongList, LongMessage};
