//! The texts of data units, items and calls, and data units read from lines.
//!
//! A unit line is words with single spaces between them. The first is the type of the data unit (HDU, LDU1, LDU2, TDU,
//! TDULC, or one of the three of a packet, PDU). Each key of that type follows with `=` and its value, in one order.
//! The keys include `nac` for the network access code (NAC), `lc` for link control (LC), `lsd` for low speed data
//! (LSD), and `mi`, `algid` and `kid` of encryption sync (ES). Digits are hexadecimal in lower case, two for each
//! octet.
//!
//! | type | keys, each with the number of digits of its value |
//! |---|---|
//! | `hdu` | `nac` 3, `mi` 18, `mfid` 2, `algid` 2, `kid` 4, `tgid` 4 |
//! | `ldu1` | `nac` 3, `lc` 18, `lsd` 4, `voice` 324 |
//! | `ldu2` | `nac` 3, `mi` 18, `algid` 2, `kid` 4, `lsd` 4, `voice` 324 |
//! | `tdu` | `nac` 3 |
//! | `tdulc` | `nac` 3, `lc` 18 |
//! | `confirmed` | `nac` 3, `head` 20, `blocks` a list |
//! | `plain`, `response` | `nac` 3, `head` 20, `octets` as many as the header requires |
//!
//! The blocks of a confirmed packet have commas between them. Each is its serial number, two digits that are at most
//! `7f`, a colon and 32 digits. `-` represents no blocks and no octets. `text_of unit` is the line of a data unit and
//! `read_line_of line` the decoding of a line, and each inverts the other. An item's text, `item_text_of item`, has the
//! position of the item, in bits from the beginning of the stream, and its contents. The text of a call is
//! `call_text_of call`. Contracts see a `Line` as the list of its octets, first to last.
//!
//! ```text
//! let line = "tdulc nac=293 lc=000000000001000001";
//! let unit = read_line(line.as_bytes())?;
//! let mut out = Line::new();
//! unit_text(&unit, &mut out);
//! assert_eq!(rt; out.to_string(rt.alloc())?.as_str(), line);
//! ```
//!
//! `UnitText`, `ItemText` and `CallText` are a data unit, an item and a call whose `{}` writes these texts. `UnitLine`
//! is a data unit that `parse` decodes as `read_line` does.
#![tactic(auto)]

mod items;
pub mod laws;
mod names;
mod packet_texts;
mod packets;
pub mod parts;
mod read;
mod shown;
#[cfg(test)]
mod tests;
mod values;
mod voices;
mod write;

pub use items::item_text;
pub use p25_calls::call_text;
pub use p25_line::{Line, LineFault};
pub use read::read_line;
pub use shown::{CallText, ItemText, UnitLine, UnitText};
pub use write::unit_text;
