//! Decoding of blocks of packets (PDU) from soft symbols, the levels of a four-level signal.
//!
//! A soft recording has one level for every two bits, a number from -128 to 127. The first level is transmitted first,
//! and the first of its two bits is the higher. The levels are this project's own: 01 is 96, 00 is 32, 10 is -32 and 11
//! is -96. A block of a packet is 98 levels, in the order of transmission; so the points of a path, which are two
//! dibits each, are interleaved as their bits are.
//!
//! `read_soft` decodes 98 levels to the path whose nominal levels are nearest, by the sum of squares. It can decode
//! blocks that `read_block` does not decode from their hard bits, because a level near a border has little weight.
//!
//! ```text
//! let mut levels = [32; 98];
//! for i in 0..49 {
//!     levels[2 * i + 1] = -32;
//! }
//! levels[6] = -1;
//! let mut octets = [9; 12];
//! let cost = read_soft::<Half>(&levels, &mut octets);
//! assert_eq!(rt; (octets, cost), ([0; 12], 1_089));
//! ```
//!
//! `soften` does so with each block of a broken packet that fails, and replaces its bits.
//!
//! Contracts see levels as a list of numbers, the decoded path as `soft_path`, and the bits of an item with its blocks
//! replaced as `softened`. `soft_laws` states which levels decode to the transmitted path.
#![tactic(auto)]

pub mod laws;
mod level;
mod reading;
mod softening;
#[cfg(test)]
mod tests;

pub use level::{hard, hard_bits_of, nominal};
pub use reading::read_soft;
pub use softening::soften;
