//! Data units found by rhythm, when the scan finds no sync; and recordings forwarded in place.
//!
//! Data units lie end to end, so after a data unit the position of the next one and its possible types are known. An
//! LDU1 follows a header (HDU), an LDU2 an LDU1, an LDU1 an LDU2, and a header a terminator with link control (TDULC).
//! A terminator (TDULC or TDU) may follow each of them. A `Follower` takes the items of a stream one after the other
//! and returns their bits, with sync and NID of such data units written. These are the 48 bits of the sync and the 64
//! of the network identifier (NID). All other bits are unchanged, and there are as many as were taken.
//!
//! ```text
//! let mut follower = Follower::new();
//! let mut out = BitBuf::new();
//! let unit = Item::Broken {
//!     place: 0,
//!     length: 432,
//!     nac: 0,
//!     duid: TDULC,
//!     fields: FieldList::new(),
//! };
//! follower.take(&unit, &sent, &mut out);
//! let gap = Item::Gap {
//!     place: 432,
//!     length: 144,
//! };
//! follower.take(&gap, &lost, &mut out);
//! follower.finish(&mut out);
//! assert!(rt; out == terminator);
//! ```
//!
//! Here `lost` are the bits of a terminator with five bit errors in its sync, and `terminator` those that were
//! transmitted. `take` writes to `out` the bits that come before the item's own; these follow them in the output if the
//! item is a data unit, or one that is cut.
//!
//! The first bit of a list is transmitted first. Contracts see a stretch, bits between data units in which the scan
//! finds none, as its output: `chain_of`. `follow_of` is the output for a whole recording. `follow_laws` states its
//! laws, and that a follower gives it, however the items arrive.
//!
//! `relay_item` replaces the bits of an item by those that are forwarded at their position, under another network
//! access code (NAC) and with one status symbol everywhere. A whole data unit is forwarded as it was transmitted, a
//! broken one with its sync and NID written, and all else as received. `relay_of` is the output for a whole recording.
#![tactic(auto)]

mod chain;
mod expected;
mod follower;
pub mod laws;
pub mod parts;
mod relay;
mod steps;
#[cfg(test)]
mod tests;
mod told;

pub use follower::{Follower, is_rest};
pub use p25_units::Item;
pub use relay::{relay_item, relay_item_in};
