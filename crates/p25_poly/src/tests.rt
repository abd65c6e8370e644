//! Tests of polynomials, of the key equation and of linear systems.

use super::*;
use p25_gf64::Sym;

#[test]
fn the_example_of_the_head(rt: HostRuntime) {
    let one = Sym::ONE;
    let factor = Poly::from_symbols(&[one, one]); // 1 + x
    let product = factor.mul(&Poly::from_symbols(&[one, one, one])); // by 1 + x + x^2
    let wanted = Poly::from_symbols(&[one, Sym::ZERO, Sym::ZERO, one]); // 1 + x^3
    assert_eq!(rt; product, wanted);
}

// Whether 1 + 2 x^2 has its degree, its coefficient and its value at 2, and twice itself is zero.
fn is_told(two: Sym) -> bool {
    let poly = Poly::from_symbols(&[Sym::ONE, Sym::ZERO, two]);
    poly.degree() == Some(2)
        && poly.coefficient(2) == two
        && poly.eval(two).value() == 9
        && poly.add(&poly) == Poly::zero()
}

#[test]
fn degrees(rt: HostRuntime) {
    assert!(rt; Poly::zero().degree().is_none());
    assert!(rt; Sym::new(2).is_some_and(is_told));
}

// Whether a polynomial is (1 + x) (1 + x + x^2) plus a remainder.
fn is_divided(dividend: &Poly, rest: &Poly) -> bool {
    let one = Sym::ONE;
    let by = Poly::from_symbols(&[one, one]);
    if by.degree() != Some(1) {
        return false;
    }
    let (quotient, remainder) = dividend.divide(&by);
    quotient == Poly::from_symbols(&[one, one, one]) && remainder == *rest
}

#[test]
fn quotients(rt: HostRuntime) {
    let (one, none) = (Sym::ONE, Sym::ZERO);
    let (cube, sum) = (&[none, none, none, one], &[one, none, none, one]);
    assert!(rt; is_divided(&Poly::from_symbols(sum), &Poly::zero()));
    assert!(rt; is_divided(&Poly::from_symbols(cube), &Poly::from_symbols(&[one])));
}

// Whether x^31 (x^31 + x^32) is x^62 + x^63.
fn is_highest_product() -> bool {
    let mut symbols = [Sym::ZERO; 64];
    symbols[31] = Sym::ONE;
    let low = Poly::from_symbols(&symbols);
    symbols[32] = Sym::ONE;
    let high = Poly::from_symbols(&symbols);
    if low.degree() != Some(31) || high.degree() != Some(32) {
        return false;
    }
    let product = low.mul(&high);
    product.degree() == Some(63) && product.coefficient(62) == Sym::ONE
}

#[test]
fn highest_product(rt: HostRuntime) {
    assert!(rt; is_highest_product());
}

// Whether the system 0 x = b has a solution.
fn is_blank_solved(right: Sym) -> bool {
    solve(&Matrix::new(1, 1), &[right], &mut [Sym::ZERO])
}

// Whether x = 2, 2 x = b has the solution 2.
fn is_tall_solved(two: Sym, right: Sym) -> bool {
    let mut tall = Matrix::new(2, 1);
    tall.set(0, 0, Sym::ONE);
    tall.set(1, 0, two);
    let mut single = [Sym::ZERO];
    solve(&tall, &[two, right], &mut single) && single == [two]
}

// Whether 0 x + 2 y = 4 has the solution 0, 2.
fn is_wide_solved(two: Sym, four: Sym) -> bool {
    let mut wide = Matrix::new(1, 2);
    wide.set(0, 1, two);
    let mut pair = [Sym::ZERO; 2];
    wide.get(0, 1) == two && solve(&wide, &[four], &mut pair) && pair == [Sym::ZERO, two]
}

#[test]
fn systems(rt: HostRuntime) {
    assert!(rt; !is_blank_solved(Sym::ONE));
    assert!(rt; is_blank_solved(Sym::ZERO));
    match (Sym::new(2), Sym::new(4)) {
        (Some(two), Some(four)) => {
            assert!(rt; !is_tall_solved(two, two));
            assert!(rt; is_tall_solved(two, four));
            assert!(rt; is_wide_solved(two, four));
        }
        _ => assert!(rt; false),
    }
}

// Whether the key of the syndromes 1, 1 is a multiple of locator 1 + x and evaluator 1.
fn is_key_of_one_error() -> bool {
    let key = key_solve(&[Sym::ONE, Sym::ONE]);
    let scale = key.locator.coefficient(0);
    let multiple = Poly::from_symbols(&[scale]);
    let locator = Poly::from_symbols(&[Sym::ONE, Sym::ONE]);
    if scale.is_zero() || locator.degree() != Some(1) || multiple.degree() != Some(0) {
        return false;
    }
    key.locator == locator.mul(&multiple) && key.evaluator == multiple
}

#[test]
fn keys(rt: HostRuntime) {
    assert!(rt; is_key_of_one_error());
    let key = key_solve(&[Sym::ZERO; 22]);
    assert!(rt; key.locator != Poly::zero() && key.evaluator == Poly::zero());
}

// A polynomial of at most eight coefficients, the lowest first.
fn poly(values: &[u8]) -> Poly {
    let mut symbols = [Sym::ZERO; 8];
    for i in 0..values.len().min(8) {
        symbols[i] = Sym::new(values[i]).unwrap_or(Sym::ZERO);
    }
    Poly::from_symbols(&symbols)
}

// Two polynomials and their product.
const PRODUCTS: [(&[u8], &[u8], &[u8]); 3] = [
    (&[1, 2, 3], &[4, 5], &[4, 13, 6, 15]),
    (&[7, 0, 33, 9], &[60, 1, 2], &[50, 7, 16, 52, 8, 18]),
    (&[0, 0, 1], &[0, 63], &[0, 0, 0, 63]),
];

// Whether the product of two polynomials is a third, which both divide; one more leaves a remainder of 1.
fn is_product(one: &Poly, other: &Poly, product: &Poly) -> bool {
    let (Some(first), Some(second)) = (one.degree(), other.degree()) else {
        return false;
    };
    if first + second > 7 {
        return false;
    }
    let more = product.add(&poly(&[1]));
    one.mul(other) == *product
        && product.divide(other) == (*one, Poly::zero())
        && more.divide(one) == (*other, poly(&[1]))
}

#[test]
fn products(rt: HostRuntime) {
    for (one, other, product) in PRODUCTS {
        assert!(rt; is_product(&poly(one), &poly(other), &poly(product)));
    }
}

// A polynomial, a symbol, and its value there.
const VALUES: [(&[u8], u8, u8); 4] = [
    (&[7, 0, 33, 9], 5, 14),
    (&[1, 2, 3], 2, 9),
    (&[7, 0, 33, 9], 0, 7),
    (&[0, 0, 1], 63, 42),
];

#[test]
fn values(rt: HostRuntime) {
    for (of, at, value) in VALUES {
        let x = Sym::new(at).unwrap_or(Sym::ZERO);
        assert_eq!(rt; poly(of).eval(x).value(), value);
    }
}

// The syndromes of one, two and three symbol errors, and a locator and an evaluator for them.
const KEYS: [(&[u8], &[u8], &[u8]); 3] = [
    (&[40, 15], &[1, 8], &[40]),
    (&[18, 26, 26, 9], &[1, 56, 10], &[18, 59]),
    (&[21, 0, 40, 41, 34, 42], &[1, 54, 23, 32], &[21, 28, 31]),
];

// Whether a key is a locator and an evaluator, both times the same symbol.
fn is_key(key: &Key, locator: &Poly, evaluator: &Poly) -> bool {
    let scale = key.locator.coefficient(0);
    let multiple = Poly::from_symbols(&[scale]);
    let (Some(first), Some(second), Some(none)) = (
        locator.degree(),
        evaluator.degree(),
        multiple.degree(),
    ) else {
        return false;
    };
    if first + none > 7 || second + none > 7 {
        return false;
    }
    key.locator == locator.mul(&multiple) && key.evaluator == evaluator.mul(&multiple)
}

#[test]
fn keys_of_wrong_symbols(rt: HostRuntime) {
    for (syndromes, locator, evaluator) in KEYS {
        let series = poly(syndromes);
        let symbols = [
            series.coefficient(0),
            series.coefficient(1),
            series.coefficient(2),
            series.coefficient(3),
            series.coefficient(4),
            series.coefficient(5),
        ];
        let key = match syndromes.len() {
            2 => key_solve(&symbols[..2]),
            4 => key_solve(&symbols[..4]),
            _ => key_solve(&symbols),
        };
        assert!(rt; is_key(&key, &poly(locator), &poly(evaluator)));
    }
}

// The four entries of a matrix, row by row, the two right sides, and the one solution, or none.
const SYSTEMS: [([u8; 4], [u8; 2], Option<(u8, u8)>); 3] = [
    ([0, 2, 3, 0], [4, 6], Some((2, 2))),
    ([1, 2, 3, 4], [5, 6], Some((12, 37))),
    ([1, 2, 2, 4], [5, 6], None),
];

#[test]
fn systems_of_two(rt: HostRuntime) {
    for (entries, sides, wanted) in SYSTEMS {
        let (of, right) = (poly(&entries), poly(&sides));
        let mut matrix = Matrix::new(2, 2);
        matrix.set(0, 0, of.coefficient(0));
        matrix.set(0, 1, of.coefficient(1));
        matrix.set(1, 0, of.coefficient(2));
        matrix.set(1, 1, of.coefficient(3));
        let mut found = [Sym::ZERO; 2];
        let is_solved = solve(
            &matrix,
            &[right.coefficient(0), right.coefficient(1)],
            &mut found,
        );
        let solution = if is_solved {
            Some((found[0].value(), found[1].value()))
        } else {
            None
        };
        assert_eq!(rt; solution, wanted);
    }
}
