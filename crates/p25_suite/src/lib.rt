//! Tests of the whole tool, over recordings and lines of every type of data unit and over whole scripts. This crate has only tests.
#![tactic(auto)]

#[cfg(test)]
mod tests;
