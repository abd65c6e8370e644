//! The commands that read recordings, as filters: the output of `show`, `check`, `repair`, `bridge`, `relay`, `follow`,
//! `calls`, `soft` and `decide` for the items of the octets that are pushed to them.
//!
//! A recording is a list of bits, the most significant bit of each octet first; a soft recording has an octet for each
//! two bits. A `Report` defines the output for each item, and at the end. `Recording` is the filter that scans the
//! octets for it, and `Soft` and `Decide` are the filters for a soft recording. Their remaining output, whatever comes,
//! is `recording_future`, `soft_future` and `decide_future`.
//!
//! ```text
//! let mut check = Check::new();
//! let mut raw = BitBuf::new();
//! let mut out = Line::new();
//! check.put(&Item::Cut { place: 0, have: 8 }, &mut raw, &mut out);
//! check.close(&mut out);
//! assert_eq!(rt; out.octets(), b"check units=0 faults=1\n".as_slice());
//! ```
//!
//! `Recording::new(Check::new())` is the filter that takes octets, and `run_on` of p25_filter runs it.
#![tactic(auto)]

mod decide;
mod hearing;
mod held_levels;
pub mod parts;
mod recording;
mod report;
mod reports;
mod soft;
#[cfg(test)]
mod tests;

pub use decide::Decide;
pub use recording::Recording;
pub use report::Report;
pub use reports::{Calls, Change, Changed, Check, Followed, Show};
pub use soft::Soft;
