//! These items are public only for the crates beside this one. A program needs none of them.

pub use super::fitting::message_fits;
pub use super::sessions::put_sessions;
