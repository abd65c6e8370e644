//! The product of two symbols by their numbers. It uses only shifts and exclusive ors, without a table or a branch, so
//! that a compiler makes vector operations of a loop of products.

ghost use Rattle.std.specs.Prelude.{◌≡◌, ◌<◌, ◌%◌, ◌==◌, if◌then◌else◌};
ghost use Rattle.p25_gf64.specs.Product.{times_x, product};

// Returns the product of two numbers of six bits, as polynomials over GF(2) modulo x^6 + x + 1.
#[inline(always)]
pub(crate) fn product(a: u8, b: u8) -> u8
    requires a { a < 64 }
    requires b { b < 64 }
    ensures product { result ≡ product a b }
    ensures below { result < 64 }
{
    let (a1, b1) = (times_x(a), b / 2);
    let (a2, b2) = (times_x(a1), b1 / 2);
    let (a3, b3) = (times_x(a2), b2 / 2);
    let (a4, b4) = (times_x(a3), b3 / 2);
    let (a5, b5) = (times_x(a4), b4 / 2);
    chosen(b, a)
        ^ (chosen(b1, a1) ^ (chosen(b2, a2) ^ (chosen(b3, a3) ^ (chosen(b4, a4) ^ chosen(b5, a5)))))
}

// Returns a number of six bits times x: shifted by one position, and reduced by x^6 + x + 1 (67) if it has a term x^6.
#[inline(always)]
fn times_x(a: u8) -> u8
    requires { a < 64 }
    ensures product { result ≡ times_x a }
    ensures below { result < 64 }
{
    if a < 32 { 2 * a } else { (2 * a) ^ 67 }
}

// Returns `a` if the lowest bit of `b` is 1, else 0.
#[inline(always)]
fn chosen(b: u8, a: u8) -> u8
    ensures { result ≡ (if b % 2 == 1 then a else 0) }
{
    if b % 2 == 1 { a } else { 0 }
}
