//! Frame sync, the status symbols among the bits of a data unit, and the names of a data unit's fields.
//!
//! A data unit is transmitted with a status symbol of two bits, the higher one first, after every 70 of its bits,
//! counted from the first bit of its sync. So bit u of a data unit is transmitted at position u + 2 · (u / 70), and
//! status symbol i at the positions 72 · i + 70 and 72 · i + 71. In contracts the transmitted bits are `woven bits
//! statuses`, the inverse is `bare_of` and `statuses_of`, and the rule by positions is `StandsByPlaces`. A list is seen
//! as a list.
//!
//! ```
//! let mut bare = BitBuf::new();
//! bare.put_field(SYNC, 48);
//! bare.put_field(0, 22);
//! let statuses = Statuses::filled(Status::default(), 1);
//! let mut sent = BitBuf::new();
//! weave(&bare, &statuses, &mut sent);
//! assert!(rt; is_sync(&sent, 0) && sent.len() == 72);
//! ```
#![tactic(auto)]

mod fields;
mod frame_sync;
pub mod laws;
mod list;
mod names;
mod read_outcome;
mod symbols;
#[cfg(test)]
mod tests;
mod weaving;

pub use fields::{Field, FieldList};
pub use frame_sync::{
    IDENTIFIER_LENGTH, SYNC, SYNC_LENGTH, SYNC_SLACK, is_sync, is_sync_window, sync_distance,
};
pub use list::BoundedList;
pub use names::{put_field_name, put_field_names};
pub use read_outcome::ReadOutcome;
pub use symbols::{NotAStatus, Status, Statuses};
pub use weaving::{BARE_BLOCK_LENGTH, SENT_BLOCK_LENGTH, unweave, weave};
