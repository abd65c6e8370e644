//! Voice data units (HDU, LDU1, LDU2, TDU and TDULC) grouped into calls.
//!
//! The items of a stream are taken one after the other, as they lie end to end. A call is a longest run of voice data
//! units without a break inside that has voice (LDU1 or LDU2). There is a break in each of these cases:
//!
//! - A header (HDU) begins or a terminator (TDU or TDULC) ends.
//! - The network access code (NAC) changes.
//! - There is a packet (PDU).
//! - A data unit begins more than 3,456 bits after the end of the one before it.
//!
//! Positions and lengths count bits.
//!
//! ```text
//! let mut caller = Caller::new();
//! let item = Item::Broken {
//!     place: 0,
//!     length: 1_728,
//!     nac: 0x293,
//!     duid: LDU1,
//!     fields: FieldList::new(),
//! };
//! let call = caller.take(&item).or(caller.finish());
//! assert_eq!(rt; call.map(|call| call.bits), Some(1_728));
//! ```
//!
//! Every item is taken, gaps too; `take` returns a call when it ends, and `finish` the one that is still open.
//!
//! Contracts see the calls of a list of items as `calls_of`: its data units, divided into runs at the breaks between
//! neighbours. They see a caller as its state, its result for an item as `answer_to`, and its state afterwards as
//! `behind_item`. `call_laws` states that the results for all items and at the end are the calls of the items. The text
//! of a call is `call_text_of call`, which `call_text` writes.
#![tactic(auto)]

mod call;
mod caller;
pub mod laws;
mod runs;
mod seen;
#[cfg(test)]
mod tests;
mod text;

pub use call::{Call, CallEnd};
pub use caller::Caller;
pub use p25_line::Line;
pub use p25_link::LinkControl;
pub use p25_units::Item;
pub use runs::take_unit;
pub use seen::UnitSeen;
pub use text::call_text;
