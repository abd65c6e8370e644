//! The field GF(64) of the Reed-Solomon and BCH codes of Project 25. Its primitive polynomial in TIA-102.BAAA is x^6 +
//! x + 1.
//!
//! A symbol is a number from 0 to 63. Bit k of it is the coefficient of x^k in a polynomial over GF(2). The sum of two
//! symbols is their exclusive or, and their product is the product of the polynomials modulo that polynomial. α is the
//! symbol 2; its powers are all symbols but 0.
//!
//! ```
//! let two = Sym::try_from(2)?;
//! let three = two + Sym::ONE;
//! assert_eq!(rt; u8::from(two * three), 6);
//! ```
//!
//! Contracts use `gf64`, the field as a record of its operations, and the `number` of a symbol. The laws of the field
//! are the contracts of `field_laws`, `symbol_laws` and `alpha_order`.
#![tactic(auto)]

pub mod laws;
mod products;
mod symbol;
mod tables;

pub use symbol::{NotASymbol, Sym};

#[cfg(test)]
mod tests {
    use super::*;
    use std::test::Fail;

    #[test]
    fn the_example_of_the_head(rt: HostRuntime) -> Result<(), Fail> {
        let two = Sym::try_from(2)?;
        let three = two + Sym::ONE;
        assert_eq!(rt; u8::from(two * three), 6);
        Ok(())
    }

    #[test]
    fn field_values(rt: HostRuntime) -> Result<(), Fail> {
        assert_eq!(rt; Sym::try_from(64), Err(NotASymbol(64)));
        let two = Sym::new(2).ok_or("2 is a symbol")?;
        assert_eq!(rt; Sym::of_low_bits(0xFC2), two);
        assert!(rt; !two.is_zero());
        assert_eq!(rt; two.inv().value(), 33);
        assert_eq!(rt; two.mul(two.inv()), Sym::ONE);
        assert_eq!(rt; Sym::ONE.div(two), two.inv());
        assert_eq!(rt; Sym::ZERO.div(two), Sym::ZERO);
        assert_eq!(rt; Sym::pow_alpha(64), two);
        Ok(())
    }
}
