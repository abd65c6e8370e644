//! These items are public only for the crates beside this one. A program needs none of them.

pub use super::chain::STEP_REACH;
pub use super::expected::kind_length;
pub use super::steps::step;
pub use super::told::with_kind;
