//! The Hamming code (10,6) and the code (16,8) of the low speed data (LSD), of the Project 25 air interface
//! (TIA-102.BAAA).
//!
//! A codeword is a slice of bits in the order of transmission: the information first, its most significant bit first,
//! then the check bits. `Hamming10` has 6 bits of information and 4 check bits, and corrects one bit error. `Lsd16` has
//! 8 and 8, and corrects two.
//!
//! ```
//! use p25_code::{BlockCode, Reading};
//!
//! let mut word = [false; 16];
//! Lsd16::encode(&[false; 8], &mut word);
//! word[1] = true;
//! word[14] = true;
//! assert_eq!(rt; Lsd16::read(&mut word), Reading::Found { fixes: 2 });
//! ```
//!
//! Both are a `NumberCode`, so their codewords are also numbers of 10 and 16 bits. No call allocates memory or fails.
//! Decoding a word takes one table. A word of `Lsd16` with bit errors takes one more table. There are at most 7
//! population counts for `Hamming10`, and 18 for `Lsd16`.
#![tactic(auto)]

#[cfg(test)]
mod cost_tests;
mod hamming10;
mod lsd16;
#[cfg(test)]
mod tests;

pub use hamming10::Hamming10;
pub use lsd16::Lsd16;
