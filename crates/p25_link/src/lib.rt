//! The words that voice data units carry besides voice, as the symbols of six bits of their codes. They are link
//! control (LC) of an LDU1 and a TDULC, encryption sync (ES) of an LDU2, and the header word of an HDU (TIA-102.BAAA,
//! Voice Data Units).
//!
//! The bits of a word are those of its fields in order, each field's most significant bit first. Six bits are a symbol,
//! the first of them the highest of the symbol's number.
//!
//! ```
//! let link = LinkControl([0x00, 0x00, 0x80, 0x00, 0x12, 0x34, 0x56, 0x78, 0x9A]);
//! let called = LinkKind::Group {
//!     mfid: 0,
//!     emergency: true,
//!     group: 0x1234,
//!     source: 0x0056_789A,
//! };
//! assert_eq!(rt; LinkControl::from_symbols(&link.symbols()).kind(), called);
//! ```
//!
//! `symbols_number` and `put_symbols` convert symbols to the number that their bits write, and back.
//!
//! Contracts see the symbols of a word as `link_symbols`, `sync_symbols` and `header_symbols`, and the word of symbols
//! as `link_of_symbols`, `sync_of_symbols` and `header_of_symbols`. `word_laws` states that each inverts the other.
#![tactic(auto)]

mod encryption;
pub mod laws;
mod link_control;
mod symbols;
#[cfg(test)]
mod tests;

pub use encryption::{EncryptionSync, HeaderWord};
pub use link_control::{LinkControl, LinkKind};
pub use symbols::{put_symbols, symbols_number};
