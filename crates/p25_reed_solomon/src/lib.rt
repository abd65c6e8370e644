//! The Reed-Solomon codes of the Project 25 air interface (TIA-102.BAAA), over GF(64).
//!
//! A codeword is a slice of N symbols in the order of transmission: the K symbols of information first, then the N - K
//! check symbols. As a polynomial, its first symbol is the highest coefficient, that of x^(N-1), and its last the
//! constant. The codewords are the words that vanish at α^1 to α^(N-K), with the symbol 2 for α. So the code has one
//! body for all sizes, and `Rs` takes these as parameters:
//!
//! | Code | Codewords of | Least distance | Correction radius |
//! |---|---|---|---|
//! | `Rs<36, 20>` | the header | 17 | 8 |
//! | `Rs<24, 12>` | the link control | 13 | 6 |
//! | `Rs<24, 16>` | the encryption sync | 9 | 4 |
//!
//! Distances count symbols: two codewords differ in at least N - K + 1 of them, and (N - K) / 2 symbol errors are
//! corrected, whatever their values.
//!
//! ```
//! use p25_code::{BlockCode, Reading};
//!
//! let mut word = [Sym::ZERO; 24]; // the word of the information 0
//! word[..6].fill(Sym::ONE);
//! assert_eq!(rt; Rs::<24, 12>::read(&mut word), Reading::Found { fixes: 6 });
//! ```
//!
//! With `read_erased` some symbols are erasures. A word is then decoded if twice the symbol errors outside the
//! erasures, plus the erasures, are at most N - K:
//!
//! ```
//! use p25_code::{ErasedCode, Reading};
//!
//! let mut word = [Sym::ZERO; 24];
//! word[..12].fill(Sym::ONE);
//! let mut erased = [false; 24];
//! erased[..12].fill(true);
//! let reading = Rs::<24, 12>::read_erased(&mut word, &erased);
//! assert_eq!(rt; reading, Reading::Found { fixes: 12 });
//! ```
//!
//! The encoder divides by the generator polynomial. One decoder serves both calls. It computes the syndromes of the
//! received word, and returns at once if they are zero. From the syndromes, times a factor for each erasure, the key
//! equation gives a polynomial that vanishes at the positions of the errors. Its zeros, and its evaluator divided by
//! its slope there (Forney's formula), give the errors. The decoder returns `Found` only if the power sums of these
//! errors are the syndromes. No call allocates memory or fails.
#![tactic(auto)]

mod code;
mod encoder;
mod erasures;
mod errors;
pub mod laws;
mod locator;
mod packed;
mod points;
mod reader;
mod sums;
mod syndromes;
#[cfg(test)]
mod tests;
mod values;
mod wrong;
mod zeros;

pub use code::Rs;
pub use syndromes::fill_syndromes;
pub use wrong::wrong_locator;
