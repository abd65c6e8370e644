//! Decoding by the costs of bits (soft decisions).
//!
//! The bits of a word come in pairs. Costs are four numbers for each pair, in the order of the pairs: the costs of 00,
//! 01, 10 and 11. The cost of a word is the sum over its pairs.

ghost use Rattle.std.specs.Prelude.{◌≡◌, ◌≢◌, ℕ, ◌+◌, ◌*◌, ◌-◌, ◌/◌, ◌^◌, ◌<◌, ◌≤◌, ◌++◌, List, Bool, All, IfSome, length, drop, replicate, slice_index};
ghost use Rattle.p25_bits.specs.{Bits.{bits_of}, Least.{least_beside}};
ghost use Rattle.p25_code.specs.LeastCost.{pairs_cost, information_cost, cheapest_information, IsAlone, IsCheapest, IsSpread, IsSumTable};

use crate::number_code::NumberCode;

// The number of costs of a word of 24 bits, the longest.
const COSTS: usize = 48;

// The number of sums over groups of six bits: 64 for each of four groups.
const SUMS: usize = 256;

// Returns the value of a pair of bits that costs less than any other, if there is one.
fn least_value(costs: &[u32]) -> Option<u32>
    requires { 4 ≤ length costs.now }
    ensures { IfSome result (λ value. (value < 4) × ((other : ℕ) → other < 4 → other ≢ value → slice_index costs.now value < slice_index costs.now other)) }
{
    let (a, b, c, d) = (costs[0], costs[1], costs[2], costs[3]);
    if a < b && a < c && a < d {
        Some(0)
    } else if b < a && b < c && b < d {
        Some(1)
    } else if c < a && c < b && c < d {
        Some(2)
    } else if d < a && d < b && d < c {
        Some(3)
    } else {
        None
    }
}

// Returns the bits that cost less than any others, as a number, if there are such bits.
fn hard_word(costs: &[u32]) -> Option<u32>
    requires few { length costs.now ≤ 48 }
    requires pairs { 4 * (length costs.now / 4) ≡ length costs.now }
    ensures { let n = 2 * (length costs.now / 4) in IfSome result (λ word. (word < 2 ^ n) × IsAlone costs.now (bits_of n word)) }
{
    let mut word = 0;
    for i in 0..costs.len() / 4 {
        word = 4 * word + least_value(&costs[4 * i..4 * i + 4])?;
    }
    Some(word)
}

// Returns the costs of 24 bits that end in those with costs: the bits before them cost nothing.
fn padded(costs: &[u32]) -> [u32; COSTS]
    requires few { length costs.now ≤ 48 }
    requires low { All (λ cost. cost ≤ 2 ^ 16) costs.now }
    ensures list { result ≡ replicate (48 - length costs.now) 0 ++ costs.now }
    ensures len { length result ≡ 48 }
    ensures low { All (λ cost. cost ≤ 2 ^ 16) result }
{
    let mut all = [0; COSTS];
    all[COSTS - costs.len()..].copy_from_slice(costs);
    all
}

// Returns the cost of a value of a group of six bits: `at` is the value plus 64 times the position of the group.
fn group_cost(costs: &[u32], at: usize) -> u32
    requires at { at < 256 }
    requires costs { length costs.now ≡ 48 }
    requires low { All (λ cost. cost ≤ 2 ^ 16) costs.now }
    ensures value { result ≡ pairs_cost (drop (12 * (at / 64)) costs.now) (bits_of 6 at) }
    ensures low { result ≤ 2 ^ 18 }
{
    let first = 12 * (at / 64);
    costs[first + at / 16 % 4] + costs[first + 4 + at / 4 % 4] + costs[first + 8 + at % 4]
}

// Returns the cost of each value of each group of six bits, for 24 bits that end in those with costs.
fn group_sums(costs: &[u32]) -> [u32; SUMS]
    requires few { length costs.now ≤ 48 }
    requires low { All (λ cost. cost ≤ 2 ^ 16) costs.now }
    ensures sums { IsSumTable costs.now result }
    ensures len { length result ≡ 256 }
    ensures low { All (λ cost. cost ≤ 2 ^ 18) result }
{
    let costs = padded(costs);
    let mut sums = [0; SUMS];
    for at in 0..SUMS {
        sums[at] = group_cost(&costs, at);
    }
    sums
}

// Returns the cost of the codeword of an information, by the sums over its groups.
fn cost_by<C: NumberCode>(sums: &[u32; SUMS], info: u32) -> u32
    requires code { C.HasCode }
    requires pairs { 2 * (C.N / 2) ≡ C.N }
    requires small { C.N ≤ 24 }
    requires info { info < 2 ^ C.K }
    requires len { length sums.now ≡ 256 }
    requires low { All (λ cost. cost ≤ 2 ^ 18) sums.now }
    ensures value { (costs : List ℕ) → length costs ≡ 2 * C.N → IsSumTable costs sums.now → result ≡ information_cost C.encoding_is C.K costs info }
    ensures low { result ≤ 2 ^ 20 }
{
    let word = C::encode_number(info) as usize;
    sums[word >> 18]
        + sums[64 + (word >> 12) % 64]
        + sums[128 + (word >> 6) % 64]
        + sums[192 + word % 64]
}

// Returns the information of the word whose bits cost less than any others, if that is a codeword.
fn hard_information<C: NumberCode>(costs: &[u32]) -> Option<u32>
    requires code { C.HasCode }
    requires pairs { 2 * (C.N / 2) ≡ C.N }
    requires small { C.N ≤ 24 }
    requires costs { length costs.now ≡ 2 * C.N }
    ensures { IfSome result (λ info. (info < 2 ^ C.K) × (info ≡ cheapest_information C.encoding_is C.K costs.now)) }
{
    let word = hard_word(costs)?;
    let info = word >> (C::N - C::K);
    if C::encode_number(info) == word {
        Some(info)
    } else {
        None
    }
}

/// Returns the information of the codeword that costs least, as a number. If several codewords cost least, it is the
/// lowest such number. It requires four numbers in `costs` for each pair of bits, the costs of 00, 01, 10 and 11. If
/// the costs separate the values of pairs by a margin, a codeword that costs less than the margin times the least
/// distance is the result.
pub fn cheapest<C: NumberCode>(costs: &[u32]) -> u32
    requires code { C.HasCode }
    requires pairs { 2 * (C.N / 2) ≡ C.N }
    requires small { C.N ≤ 24 }
    requires costs { length costs.now ≡ 2 * C.N }
    requires low { All (λ cost. cost ≤ 2 ^ 16) costs.now }
    ensures value { result ≡ cheapest_information C.encoding_is C.K costs.now }
    ensures fits { result < 2 ^ C.K }
    ensures cheapest { IsCheapest C.IsWord C.K costs.now (C.encoding_is (bits_of C.K result)) }
    ensures near { (margin : ℕ) (sent : List Bool) → IsSpread margin (C.N / 2) costs.now → C.IsWord sent
        → pairs_cost costs.now sent < margin * C.distance_is → C.encoding_is (bits_of C.K result) ≡ sent }
{
    if let Some(info) = hard_information::<C>(costs) {
        return info;
    }
    let sums = group_sums(costs);
    let mut best = 0;
    let mut least = cost_by::<C>(&sums, 0);
    for info in 1..1 << C::K {
        let cost = cost_by::<C>(&sums, info);
        if cost < least {
            best = info;
            least = cost;
        }
    }
    best
}

/// The cost of a codeword, and the least cost of any other codeword of its code.
#[derive(Clone, Copy, Debug, PartialEq, Eq)]
pub struct Margin {
    pub least: u32,
    pub second: u32,
}

/// Returns the cost of the codeword of an information, and the least cost of any other codeword. It requires four
/// numbers in `costs` for each pair of bits, the costs of 00, 01, 10 and 11.
pub fn cost_margin<C: NumberCode>(costs: &[u32], info: u32) -> Margin
    requires code { C.HasCode }
    requires pairs { 2 * (C.N / 2) ≡ C.N }
    requires small { C.N ≤ 24 }
    requires some { 0 < C.K }
    requires costs { length costs.now ≡ 2 * C.N }
    requires low { All (λ cost. cost ≤ 2 ^ 16) costs.now }
    requires info { info < 2 ^ C.K }
    ensures least { result.least ≡ information_cost C.encoding_is C.K costs.now info }
    ensures second { result.second ≡ least_beside (2 ^ C.K) (information_cost C.encoding_is C.K costs.now) info }
    ensures low { (result.least ≤ 2 ^ 20) × (result.second ≤ 2 ^ 20) }
{
    let sums = group_sums(costs);
    let first = if info == 0 { 1 } else { 0 };
    let mut second = cost_by::<C>(&sums, first);
    for other in 0..1 << C::K {
        if other != info {
            second = second.min(cost_by::<C>(&sums, other));
        }
    }
    Margin {
        least: cost_by::<C>(&sums, info),
        second,
    }
}
