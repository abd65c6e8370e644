//! These items are public only for the crates beside this one, which share the words of lines with it. A program needs
//! none of them.

pub use super::names::{UnitKey, UnitKind};
pub use super::values::nac_value;
