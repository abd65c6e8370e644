//! Lists of bits in the order of transmission: the first bit of a list is the highest of the number that it writes.
//!
//! A `BitBuf` holds at most `BITS_MOST` bits, in words of 64. Contracts see it as a list of truth values, `true` for a
//! 1, and see a number as the bits that write it. Positions are counted from 0, which is the first bit.
//!
//! ```
//! let mut bits = BitBuf::new();
//! bits.put_field(0x5575_F5FF_77FF, 48);
//! bits.push(true);
//! bits.drop_front(8);
//! assert_eq!(rt; bits.field(0, 8), 0x75);
//! ```
//!
//! `number_of` and `put_number` do the same with a slice of bits. `pair_at` and `triple_at` return the number of two or
//! three octets. `number_remainder` divides a number as a polynomial over GF(2), whose coefficient of x^i is the
//! number's bit i: the first bit is the coefficient of the highest power.
#![tactic(auto)]

mod bit_buf;
mod division;
pub mod laws;
mod numbers;
mod sums;
mod words;

pub use bit_buf::{BITS_MOST, BitBuf};
pub use division::{next_remainder, number_remainder};
pub use numbers::{number_of, pair_at, put_number, triple_at};

#[cfg(test)]
mod tests;
