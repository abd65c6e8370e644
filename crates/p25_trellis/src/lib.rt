//! The trellis codes of the data blocks, at both rates (TIA-102.BAAA, Trellis Coding and Interleaving of data packets).
//!
//! A half-rate block is 12 octets as 48 symbols of two bits, and a three-quarter-rate block 18 octets as 48 symbols of
//! three bits, the first bit highest. A path is those symbols and then the symbol 0. It begins in state 0, and the
//! state after a symbol is that symbol. Each step transmits the four bits of one point, which the state and the symbol
//! select. The 49 nibbles are interleaved, so a block is 196 bits.
//!
//! `read_block` decodes any 196 bits to the first nearest path. Two different half-rate paths differ in at least 5 bits
//! and two different three-quarter-rate paths in at least 3, so 2 bit errors, or 1, are corrected. The choice among
//! paths at the same distance is this project's own.
//!
//! Contracts see the decoding of 196 bits, and the block of octets, as functions: `half_octets` and `half_block`, and
//! `three_quarter_octets` and `three_quarter_block`. `nearest_laws` states their laws.
//!
//! ```
//! let mut bits = BitBuf::new();
//! encode_block::<Half>(&[7; 12], &mut bits);
//! bits.flip(3);
//! let mut octets = [0; 12];
//! let distance = read_block::<Half>(&bits, 0, &mut octets);
//! assert!(rt; distance == 1 && octets == [7; 12]);
//! ```
#![tactic(auto)]

mod block;
mod exact;
mod groups;
mod interleave;
pub mod laws;
mod least;
mod near;
mod nibbles;
mod path;
mod rate;
mod tables;

pub use block::{encode_block, read_block};
pub use interleave::{gather, spread};
pub use least::{BLOCK_COSTS, read_costs};
pub use rate::{Half, Rate, ThreeQuarter};
