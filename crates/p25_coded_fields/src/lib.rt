//! Fields of data units, such as link control (LC) and encryption sync (ES). A field is an outer codeword of symbols
//! over GF(64), carried by inner codewords of bits at positions of the data unit (TIA-102.BAAA, Voice Data Units).
//!
//! A symbol is the number that six bits write, the first bit highest. The information of an inner codeword is one
//! symbol, or two for a Golay (24,12) codeword. `put_coded` encodes the symbols of an outer codeword as inner
//! codewords, one after the other. `read_field` decodes the inner words at positions of a data unit and then the outer
//! word. If an inner word is uncorrectable, each of its symbols is an erasure. The outer code decodes the symbols that
//! are left:
//!
//! ```
//! let mut bare = BitBuf::new();
//! put_coded::<Golay24>(&[Sym::ZERO; 4], 2, &mut bare);
//! bare.flip(5);
//! let mut word = [Sym::ONE; 4];
//! let reading = read_field::<Golay24, Rs<4, 2>>(&bare, &[0, 24], &mut word);
//! assert!(rt; word == [Sym::ZERO; 4] && reading == Reading::Found { fixes: 1 });
//! ```
//!
//! `decide_field` decodes a field from the costs of its bits (soft decisions), with as few erasures of the least
//! certain symbols as are needed to find a codeword.
//!
//! Contracts see a field as a `Layout`, its positions and the decodings of its codes, and its result as `outer_word_of`
//! the layout and the data unit's bits. Both codes are any that implement the traits of p25_code; no call allocates
//! memory or fails.
#![tactic(auto)]

mod decide;
mod fixes;
mod put;
mod read;
#[cfg(test)]
mod tests;

pub use decide::decide_field;
pub use put::put_coded;
pub use read::read_field;
