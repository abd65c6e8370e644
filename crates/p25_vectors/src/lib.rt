//! Sample data units: a large valid input from a number.
//!
//! The data units are of eight types in turn: TDU, HDU, TDULC, LDU1, LDU2, and three types of packets (PDU). Each has
//! pseudorandom fields that are the same on every run, and damage that its codes correct. Some of the first bits of its
//! sync, of its network identifier (NID) and of each of its codewords and blocks are inverted. The draws and their
//! order are this project's own. The first bit of a list is transmitted first.
//!
//! ```text
//! let mut sampler = Sampler::new();
//! let mut bits = BitBuf::new();
//! let unit = sampler.next(&mut bits);
//! assert_eq!(rt; (bits.len(), unit.flips), (144, 8));
//! ```
//!
//! The first data unit is a terminator (TDU), with 8 bit errors. `sample(1_000)` decodes the first 1,000 data units and
//! counts.
//!
//! Contracts see a `Sampler` as the number of data units that it has returned. The frame of data unit i is
//! `sample_frame i`, its damaged bits are `sample_bits i`, and `sample_flips i` of them are inverted.
#![tactic(auto)]

mod bodies;
mod damage;
mod draws;
mod report;
mod sampler;
#[cfg(test)]
mod tests;

pub use report::{SampleReport, sample};
pub use sampler::{SampleUnit, Sampler};
