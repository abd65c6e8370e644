//! Codewords and blocks as numbers and octets, for callers without types of this toolkit: a call decodes or encodes one
//! of them, and returns a number.
//!
//! A decoder returns the number of wrong letters of a word, -1 if no codeword is near enough, and -2 if its argument
//! represents no word. At -1 and -2 it changes nothing. The bit that is transmitted first is the highest of a number;
//! an octet represents a symbol of six bits, and 25 octets the 196 bits of a block.
//!
//! Contracts see the effect of a call on a number as `IsNumberReading` and `IsNumberWriting`, and on octets that
//! represent symbols as `IsSymbolReading` and `IsSymbolWriting`. They see the effect on a network identifier (NID) as
//! `IsIdentifierReading` and `IsIdentifierWriting`.

mod answers;
mod blocks;
mod numbers;
mod symbols;

pub(crate) use blocks::{read_octet_block, write_octet_block};
pub(crate) use numbers::{read_identifier, read_number, write_identifier, write_number};
pub(crate) use symbols::{read_symbols, read_with_erased, write_symbols};
