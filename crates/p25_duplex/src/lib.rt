//! The duplex world: two packet stations that both send messages and acknowledge those of the other, and the channel
//! between them.
//!
//! Stations a and b each have a half that sends messages and a half that receives those of the other. The direction of
//! a station carries its transmissions, data or responses, and keeps only the newest one. Events and steps are those of
//! p25_stations, at one of the two sides.
//!
//! ```
//! let mut world = DuplexWorld::new(rt.alloc());
//! let _ = world.step(&DuplexEvent::Send(Side::A, Message::new(b"ab").ok_or("two octets")?))?;
//! assert_eq!(rt; world.sent(Side::A).len(), 1);
//! ```
//!
//! Contracts see each step as the function `duplex_step`, and the messages of a side as the delivery `delivery_at`.
//! That is the half of that side that sends, and the half of the other that receives. Each world is the run of some
//! events (`HasDuplexHistory`): `DuplexWorld::facts`. The text that closes a run is `duplex_closing_of` of a side.
#![tactic(auto)]

mod closing;
mod event;
pub mod laws;
mod side;
mod station;
mod stations;
#[cfg(test)]
mod tests;
mod world;

pub use closing::duplex_closing;
pub use event::{DuplexEvent, DuplexStep};
pub use side::Side;
pub use world::DuplexWorld;
