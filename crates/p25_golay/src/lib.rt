//! The Golay codes (24,12) and (18,6) of the Project 25 air interface (TIA-102.BAAA).
//!
//! A codeword is a slice of bits in the order of transmission: the information first, its most significant bit first,
//! then the check bits. `Golay24` has 12 bits of information and 12 check bits. `Golay18` consists of its codewords
//! that begin with six zeros, without those zeros, and has 6 bits of information and 12 check bits. Both correct three
//! bit errors.
//!
//! ```
//! use p25_code::{BlockCode, Reading};
//!
//! let mut word = [false; 18];
//! Golay18::encode(&[false, false, false, false, false, true], &mut word); // 018EB hex
//! word[0] = true;
//! word[17] = false;
//! assert_eq!(rt; Golay18::read(&mut word), Reading::Found { fixes: 2 });
//! ```
//!
//! Both are a `NumberCode`, so their codewords are also numbers of 24 and 18 bits. No call allocates memory or fails.
//! Decoding takes two tables of 64 entries. If there are bit errors, it takes two more tables and at most 26 population
//! counts, whether the word is correctable or not.
#![tactic(auto)]

#[cfg(test)]
mod cost_tests;
mod golay18;
mod golay24;
#[cfg(test)]
mod tests;

pub use golay18::Golay18;
pub use golay24::Golay24;
