//! Division of polynomials over GF(2) by a generator, coefficient by coefficient. A number represents the polynomial
//! whose coefficient of x^i is the number's bit i.

ghost use Rattle.std.specs.Prelude.{◌≡◌, ℕ, ◌+◌, ◌*◌, ◌^◌, ◌<◌};
ghost use Rattle.p25_bits.specs.{Bits.{digit_of}, Divisible.{HasDegree, IsRemainder}};

/// Returns the remainder after one more coefficient. If `remainder` is that of some polynomial P by the generator, the
/// result is that of x·P plus `bit`. `degree` is the degree of the generator, at most 62.
pub fn next_remainder(remainder: u64, bit: bool, generator: u64, degree: u32) -> u64
    requires fits { degree < 63 }
    requires generator { HasDegree generator degree }
    requires lower { remainder < 2 ^ degree }
    ensures lower { result < 2 ^ degree }
    ensures next { (number : ℕ) → IsRemainder generator degree number remainder → IsRemainder generator degree (2 * number + digit_of bit) result }
{
    let shifted = 2 * remainder + u64::from(bit);
    if shifted >> degree == 1 {
        shifted ^ generator
    } else {
        shifted
    }
}

/// Returns the remainder of a number's polynomial by a generator of the given degree, at most 62. It is the only
/// polynomial of lower degree that differs from the number's polynomial by a multiple of the generator.
pub fn number_remainder(number: u64, generator: u64, degree: u32) -> u64
    requires fits { degree < 63 }
    requires generator { HasDegree generator degree }
    ensures is { IsRemainder generator degree number result }
    ensures only { (other : ℕ) → IsRemainder generator degree number other → other ≡ result }
{
    // The highest coefficients, as many as the degree, are a polynomial of lower degree.
    let mut remainder: u64 = (number >> 1) >> (63 - degree);
    for k in degree..64 {
        remainder = next_remainder(remainder, (number >> (63 - k)) & 1 == 1, generator, degree);
    }
    remainder
}
