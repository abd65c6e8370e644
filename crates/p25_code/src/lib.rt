//! Block codes: the contracts of their encoders and decoders, for any code and any decoding method.
//!
//! A code is a type with an `impl BlockCode`. A codeword is a slice of N letters, the first letter first; its first K
//! letters are the information. `encode` makes the codeword of an information. `read` corrects a received word to the
//! codeword within the correction radius:
//!
//! ```
//! let mut word = [false; 10];
//! Hamming10::encode(&[true, false, false, false, false, false], &mut word);
//! word[3] = !word[3];
//! assert_eq!(rt; Hamming10::read(&mut word), Reading::Found { fixes: 1 });
//! ```
//!
//! `read` always corrects as many wrong letters as the correction radius, and never more. A word farther from every
//! codeword is uncorrectable: `Beyond` is returned, and the word is left as it was received. The codes of the air
//! interface are in TIA-102.BAAA; correction radius, least distance and bounded-distance decoding are terms of any
//! textbook of coding theory.
//!
//! `read_received` states the consequences for any code, proved from the trait alone. An `ErasedCode` also decodes
//! words with erased letters, and `read_with_erasures` states the consequences of that. `cheapest` decodes a codeword
//! of a `NumberCode` from the costs of its bits (soft decisions), and `cost_margin` returns how certain it is. The
//! codewords of a `NumberCode` are both bits and numbers.
//!
//! A small binary code defines its check bits and the bit errors of each syndrome, and becomes both by `CheckedCode`.
//! `wrong_by_rows` and `wrong_by_halves` find those bit errors without a search.
//!
//! Contracts see decoding as a function of the received word: the codeword within the correction radius, or none. Its
//! law, `reads_as`, is all that a caller can use, and exactly one function satisfies it.
#![tactic(auto)]

mod callers;
mod checked_code;
mod code;
mod least_cost;
mod number_code;
mod wrong_bits;

pub use callers::{read_received, read_with_erasures};
pub use checked_code::{CheckedCode, Parameters};
pub use code::{BlockCode, ErasedCode, Reading};
pub use least_cost::{Margin, cheapest, cost_margin};
pub use number_code::{NumberCode, put_reading};
pub use wrong_bits::{wrong_by_halves, wrong_by_rows};
