//! Streams of bits, divided into items. These are whole data units (HDU, LDU1, LDU2, TDU, TDULC and PDU), broken ones,
//! positions at which a data unit begins but cannot be decoded, and gaps.
//!
//! Octets are taken in order, the most significant bit of each first; positions count bits from the first one. Items
//! lie end to end and cover every bit. A `Scanner` returns each of them once the bits are there that decide it; a gap
//! needs 48 bits from each of its positions on. Later bits then change nothing in it:
//!
//! ```text
//! let mut scanner = Scanner::new();
//! let mut raw = BitBuf::new();
//! scanner.push(0x55);
//! while scanner.next(&mut raw).is_some() {}
//! scanner.finish();
//! while scanner.next(&mut raw).is_some() {}
//! assert_eq!(rt; (raw.len(), scanner.held()), (8, 0));
//! ```
//!
//! All items must be taken before the next octet is pushed. Items that only the end decides are returned after
//! `finish`: here a gap of 8 bits. `push_some` takes several octets at once, and `repair_item` replaces the bits of an
//! item by the transmitted ones. `next_item` is for a caller that does not use the bits: they are not copied. `next_in`
//! and `next_item_in` return an item without moving it.
//!
//! Contracts see a scanner as a `Scan`, the bits that it holds with their position, and the items that it can return as
//! `given`. `items_by` is the definition of a stream's items, one walk over its bits; `item_laws` states its laws, and
//! `arrival_laws` the positions of transmitted data units.
#![tactic(auto)]

mod arriving;
mod finding;
mod judged;
mod judging;
pub mod laws;
mod repeats;
mod scanner;
#[cfg(test)]
mod tests;

pub use finding::{find_item, find_item_in};
pub use p25_units::Item;
pub use repeats::{bridge_item, bridge_item_in, repair_item, repair_item_in};
pub use scanner::Scanner;
