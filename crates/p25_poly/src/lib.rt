//! Polynomials and linear systems over GF(64), for the Reed-Solomon and BCH codes of Project 25 (TIA-102.BAAA).
//!
//! A [`Poly`] has degree below 64 and consists of its coefficients, lowest first. A [`Matrix`] has 1 to 24 rows and
//! columns, both counted from 0; [`solve`] takes at most the cube of the size in steps. [`key_solve`] solves the key
//! equation, from which the decoders derive the positions of the errors and their values; it takes the square of the
//! number of syndromes. No call allocates memory.
//!
//! The other crates here call [`key_solve`] and read the coefficients of its polynomials. The calls [`solve`], those of
//! [`Matrix`], and those of [`Poly`] other than `zero`, `from_symbols` and `coefficient` are for other programs.
//!
//! ```
//! let one = Sym::ONE;
//! let factor = Poly::from_symbols(&[one, one]); // 1 + x
//! let product = factor.mul(&Poly::from_symbols(&[one, one, one])); // by 1 + x + x^2
//! let wanted = Poly::from_symbols(&[one, Sym::ZERO, Sym::ZERO, one]); // 1 + x^3
//! assert_eq!(rt; product, wanted);
//! ```
//!
//! Contracts see a polynomial as `coefficient_of` at each exponent and a matrix as its `entry` at each row and column.
//! The laws for these are in the contract of `polynomial_laws` and in `p25_algebra`.
#![tactic(auto)]

mod elimination;
mod key;
pub mod laws;
mod matrix;
mod multiples;
mod polynomial;
mod row;
mod side;
mod systems;

pub use key::{Key, key_solve};
pub use matrix::Matrix;
pub use polynomial::Poly;
pub use systems::solve;

#[cfg(test)]
mod tests;
