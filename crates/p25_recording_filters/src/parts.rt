//! These items are public only for the crates beside this one. A program needs none of them.

pub use super::reports::{put_behind, put_octets};
