//! Voice units (HDU, LDU1, LDU2 and TDULC) whose coded fields are decoded from soft symbols (a level of a four-level signal each).
//!
//! A unit has one level for each two of its transmitted bits, status symbols among them. The cost of a dibit at a level is the square of
//! their distance, of which 96 counts at most. Each inner codeword is the one of least cost, and the outer codeword is decoded with as few
//! of the least reliable symbols erased as find one, as `decide_field` of p25_coded_fields does. The codewords of low speed data have no
//! outer code.
//!
//! `decide_unit` writes these fields into the transmitted bits of a unit. All other bits stay. A `Decider` is a follower, as that of
//! p25_follow, whose output has the fields decoded of each unit that it is given or restores.
#![tactic(auto)]

mod costs;
mod decider;
mod item;
pub mod laws;
mod stretch;
#[cfg(test)]
mod tests;
mod unit;
mod words;

pub use costs::level_cost;
pub use decider::Decider;
pub use unit::decide_unit;
