//! The algebra of the Reed-Solomon and BCH codes: facts on sums, polynomials and power sums over a field of
//! characteristic 2.
//!
//! Each function here is a theorem: its body is empty, and its contract states what is true in GF(64). The proofs are
//! over any such field. A crate above cites the lemmas in this crate's `proofs/`, which `proofs/laws/NAME/Answers.antt`
//! names.
//!
//! A polynomial is given by the coefficient of x^i at each i, and the elements and factors of a power sum are functions
//! of their position.
#![tactic(auto)]

pub mod laws;
