//! Voice data units, which are HDU, LDU1, LDU2, TDU and TDULC: encoding and decoding of their bits without status
//! symbols (TIA-102.BAAA, Voice Data Units).
//!
//! The first bit of a list is transmitted first. A voice data unit begins with the frame sync and the network
//! identifier (NID), whose DUID determines its type:
//!
//! | DUID | type | bits | after sync and NID |
//! |---|---|---|---|
//! | 0 | HDU: header | 770 | the header word, 36 symbols in as many Golay (18,6) codewords; nulls |
//! | 5 | LDU1: voice with link control (LC) | 1,680 | nine voice frames; LC, 24 symbols in as many Hamming (10,6) codewords; two words of LSD |
//! | A hex | LDU2: voice with encryption sync (ES) | 1,680 | the same with ES |
//! | 3 | TDU: terminator | 140 | nulls |
//! | F hex | TDULC: terminator with link control | 420 | LC, 24 symbols in twelve Golay (24,12) codewords; nulls |
//!
//! LSD is low speed data. The position of each part is in a table for each type, as `LDU_ROWS`. Voice frames are
//! carried unchanged and not decoded.
//!
//! ```
//! let link = LinkControl([7; 9]);
//! let unit = VoiceUnit::EndLink { link };
//! let mut bare = BitBuf::new();
//! voice_image(0x293, &unit, &mut bare);
//! let mut read = VoiceUnit::End;
//! let outcome = read_voice_in(unit.duid(), &bare, &mut read);
//! assert!(rt; read == unit && outcome == ReadOutcome::Read { wrong: 0 });
//! ```
//!
//! Contracts see a data unit's bits as `voice_image_of` and its decoding as `voice_reading_of`. `image_laws` states
//! that these bits are the only ones that meet `IsVoiceImage`, the form by positions. `radius_laws` states that all
//! bits within the correction radius of them decode to their data unit.
#![tactic(auto)]

mod fixes;
mod image;
#[cfg(test)]
mod image_tests;
pub mod laws;
mod layout;
mod places;
mod read;
#[cfg(test)]
mod read_tests;
mod unit;
mod voice;

pub use fixes::voice_fixes;
pub use image::voice_image;
pub use layout::{HDU_ROWS, LDU_ROWS, Piece, TDU_ROWS, TDULC_ROWS};
pub use places::{HDU_WORDS, LDU_WORDS, LOW_WORDS, TDULC_WORDS};
pub use read::{read_voice, read_voice_in};
pub use unit::{VoiceUnit, voice_length};
pub use voice::{Voice, VoiceFrame};
