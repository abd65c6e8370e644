//! Tables of sums over GF(2).

/// Makes the array of the sums over GF(2) of every choice among some numbers. Each entry is the sum of the numbers that
/// the bits of its index choose, the highest bit the first number. So `sums! { a, b }` is `[0, b, a, a ^ b]`.
#[macro_export]
macro_rules! sums {
    (@of [$($sum:expr),*]) => { [$($sum),*] };
    (@of [$($sum:expr),*] $first:expr $(, $rest:expr)*) => { $crate::sums!(@of [$($sum, $sum ^ $first),*] $($rest),*) };
    ($($number:expr),*) => { $crate::sums!(@of [0] $($number),*) };
}
