//! Network identifiers (NID) of the Project 25 air interface (TIA-102.BAAA, Network Identifier). A NID is a 12-bit
//! network access code (NAC) and a 4-bit data unit identifier (DUID), protected by the BCH code (63,16) and followed by
//! one bit P.
//!
//! The 64 bits of a NID are a number whose highest bit is transmitted first. The first 63 of them are a codeword, and
//! its first 16 bits are the NAC and the DUID. `nid_bits` encodes them, and `read_nid` decodes them if at most 11 of
//! the 63 bits are wrong. `read_nid_counted` also returns the number of bit errors, and `nid_distance` returns that
//! number for any NID:
//!
//! ```
//! let nid = Nid::from(0x2933); // NAC 293 hex, DUID 3
//! let received = nid_bits(&nid) ^ 0x7FF0;
//! let fixes = nid_distance(received, &nid);
//! assert!(rt; read_nid(received) == Some(nid) && fixes == 11);
//! ```
//!
//! `Bch63` is the code itself, as a `BlockCode` with bits for letters. Contracts see its codewords as `IsBch63`, the
//! lists of 63 bits that are zero at α^1 to α^22; `two_forms` states that these are the lists that the generator
//! divides. They see the transmitted bits as the list `nid_word`, and the result of `read_nid` as the function
//! `nid_reading_of` of the 64 bits; `reading_laws` states its laws.
#![tactic(auto)]

mod bch63;
mod checks;
mod correction;
mod duid;
pub mod laws;
mod nid;
mod reading;
mod sent;
mod syndromes;
mod zeros;

pub use bch63::Bch63;
pub use duid::{HDU, LDU1, LDU2, PDU, TDU, TDULC};
pub use nid::{Nid, ReadNid};
pub use reading::{read_nid, read_nid_counted};
pub use sent::{nid_bits, nid_distance};

#[cfg(test)]
mod tests;
