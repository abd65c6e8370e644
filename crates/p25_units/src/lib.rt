//! Transmitted data units (HDU, LDU1, LDU2, TDU, TDULC and PDU): encoding, detection at a position and decoding.
//!
//! The first bit of a list is transmitted first. A transmitted data unit has a status symbol of two bits after every 70
//! of its bits; all positions and lengths here count it.
//!
//! ```
//! let unit = Unit::new(0x293, Body::Voice(VoiceUnit::End));
//! let statuses = Statuses::filled(Status::default(), 2);
//! let frame = Frame { unit, statuses };
//! let mut sent = BitBuf::new();
//! image(&frame, &mut sent);
//! assert_eq!(rt; need(&sent, 0), Need::Length(144));
//! ```
//!
//! Contracts see what the bits from a position on need as `need_of`, the decoding of a data unit's bits as
//! `unit_reading_of`, its bits as `image_of`, and its item as `unit_item_of`. `need_laws` states all laws of data units
//! that a scanner needs, and `unit_laws` the decoding of a data unit, undamaged or with few bit errors. Each type of
//! data unit is a case in each of `body_length`, `body_image_of`, `body_looked`, `kind_need` and `body_reading_of`.
#![tactic(auto)]

mod begun;
mod fixing;
mod frame;
mod item;
pub mod laws;
mod needs;
mod read;
mod scan;
mod sending;
#[cfg(test)]
mod tests;
mod unit;

pub use begun::Begun;
pub use fixing::fixes;
pub use frame::{Frame, frame_length};
pub use item::{Item, unit_item, unit_item_in};
pub use needs::Need;
pub use p25_packet_blocks::Packet;
pub use p25_status::{Field, FieldList, Status, Statuses};
pub use p25_voice_units::VoiceUnit;
pub use read::read_unit;
pub use scan::{need, need_synced, need_with};
pub use sending::{image, image_as, image_as_in, unit_image};
pub use unit::{Body, Unit};
