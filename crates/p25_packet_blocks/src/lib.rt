//! Packets of data (PDU): their header, their blocks, the decoding of a data unit, and the data unit of a packet
//! (TIA-102.BAAA, Packet Data).
//!
//! The first bit of a list is transmitted first. Octets are in the order of transmission, the most significant bit of
//! each first. A packet is a header of ten octets and its body. The body of a confirmed packet is a slot for each
//! block, in the order of transmission, and that of another packet all octets before the packet CRC.
//!
//! A data unit without status symbols has sync and NID in bits 0 to 111, and the header block at half rate in the 196
//! bits from 112. Block j is in the 196 bits from 308 + 196 · j. Its blocks are at three-quarter rate if the packet is
//! confirmed and otherwise at half rate. Nulls follow up to a multiple of 70.
//!
//! ```
//! let head = PacketHead::confirmed(1, true, 1, 0, 0);
//! let mut slots = Slots::new();
//! slots.push(Slot::Good(Block::new(0, [7; 16])));
//! let packet = Packet::Confirmed(Confirmed::new(head, slots));
//! let again = packet.clone()?;
//! assert!(rt; is_whole(&packet) && packet_length(&head) == 576 && again == packet);
//! ```
//!
//! Contracts see a list as a list, and a packet, a block and the two types of packets as records of their parts. The
//! decoding of a data unit is a function, `packet_reading_of` or `packet_unit_of`, and so is its image,
//! `packet_image_of`. `one_image` states the position of each part of the image, and `packet_radius` how many bit
//! errors are corrected.
#![tactic(auto)]

mod block;
mod flags;
mod head;
mod image;
pub mod laws;
mod packet;
mod read;
#[cfg(test)]
mod tests;
mod unit;
mod whole;

pub use block::{Block, Slot, Slots};
pub use flags::{Flags, flags_make, flags_read};
pub use head::{CONFIRMED_FORMAT, PLAIN_FORMAT, PacketHead, RESPONSE_FORMAT, ReadHead};
pub use image::{packet_image, packet_length};
pub use packet::{Confirmed, Octets, Packet, Plain};
pub use read::{BLOCK_LENGTH, BLOCKS_AT, HEADER_AT, read_head, read_packet};
pub use unit::{read_head_at, read_packet_unit};
pub use whole::is_whole;
