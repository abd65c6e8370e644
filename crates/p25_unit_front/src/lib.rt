//! The first 112 bits of a data unit, its frame sync and its network identifier (NID), which names in this crate call
//! `front`. TIA-102.BAAA, Frame Synchronization and Network Identifier.
//!
//! The first bit of a list is transmitted first. Without status symbols the sync has bits 0 to 47 and the NID bits 48
//! to 111. There is a status symbol within the NID, so in a transmitted data unit the NID has the positions 48 to 69
//! and 72 to 113.
//!
//! ```
//! let nid = Nid::from(0x2933); // NAC 293 hex, DUID 3
//! let mut bare = BitBuf::new();
//! put_front(&nid, &mut bare);
//! assert!(rt; bare.len() == 112 && bare.field(48, 16) == 0x2933);
//! ```
//!
//! Contracts see these bits as `unit_front`, and the law `one_front` gives `IsFront`, their form by positions.
#![tactic(auto)]

mod front;
pub mod laws;
#[cfg(test)]
mod tests;

pub use front::{
    AFTER_STATUS, BEFORE_STATUS, FRONT_LENGTH, SENT_FRONT_LENGTH, front_fixes, put_front,
    read_front,
};
