//! Lines of text: a list of octets that is written in parts, the words of a line, the values of words, and words that
//! are lists.
//!
//! A line has at most 8,192 octets. Its words are octets 21 to 7E hex with single spaces between them. Contracts see a
//! `Line` as the list of its octets, first to last. They see a `WordList` as the spans of the first 16 words with the
//! number of all, and `LineWords` as the list of all words of the line.
//!
//! `words_or_fault line` is the words of a line or the reason for refusing it. `line_read read line` is the decoding of
//! a line, if `read` decodes its words. `read_whole` reads lines of any form that a `LineReader` defines. A value is
//! defined by its text in the line.
//!
//! A word that is a list has its entries in order with commas between them, and `-` represents the empty list.
//! `list_text` is that word by the text of an entry, and `list_in` the list that a word decodes to, by the decoding of
//! an entry. Each inverts the other, if this holds of entries and no entry's text has a comma.
//!
//! ```text
//! let mut line = Line::new();
//! line.put(b"tdu nac=");
//! line.put_three_digits(0x293);
//! let words = LineWords::read(line.octets())?;
//! assert_eq!(rt; words.first(), b"tdu".as_slice());
//! ```
#![tactic(auto)]

mod comma_lists;
mod decimal;
mod fault;
pub mod laws;
mod line;
mod line_reader;
mod line_traits;
mod line_words;
#[cfg(test)]
mod tests;
mod values;
mod word_list;

pub use comma_lists::{comma_part, is_dash};
pub use fault::LineFault;
pub use line::{LINE_MOST, Line};
pub use line_reader::{LineReader, read_whole};
pub use line_words::LineWords;
pub use values::{hex_value, number_value, octets_or_dash};
pub use word_list::{WordList, words_of};
