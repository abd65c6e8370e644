//! The consequences of a call of `show`, in one form: from its input and output down to the codes.
//!
//! Each function here is a theorem. It follows from the contract of `run` of p25_tool for each call, and from the laws
//! of the crates below. It states the same in fewer definitions, to be read aloud.
#![tactic(auto)]

pub mod laws;
#[cfg(test)]
mod tests;
