//! Laws of levels (soft symbols): which of them decode to the transmitted block. Each function states what is proved,
//! and calls at most other theorems.

ghost use Rattle.std.specs.Prelude.{◌≡◌, ℕ, ◌*◌, ◌<◌, List, ℤ, All, length};
ghost use Rattle.p25_trellis.specs.Nearest.{block_from, half_block, half_octets, three_quarter_block, three_quarter_octets};
ghost use Rattle.p25_trellis.specs.{Tables.{half_point, three_quarter_point}, Trellis.{IsFirstLeastReading}};
ghost use Rattle.p25_soft.specs.{Levels.{bits_deviation, hard_bits, nominal_levels}, SoftPaths.{soft_cost, soft_octets, soft_path}};

use p25_trellis::laws::{nearest_laws, paths_apart};
use p25_trellis::{Half, Rate, ThreeQuarter};

/// **Theorem.** The decoding of levels.
///
/// - `reading`: the octets and the cost that `soft_octets` and `soft_path` give are those of the first least path.
/// - `near`: take levels whose squared deviations from a block have a sum below 1,024 times the least number of bits in
///   which two paths differ. They decode to the octets of the block. The reason is that two paths that differ in b bits
///   have nominal levels that deviate by at least 4,096 · b. The square of a sum is at most twice the sum of the
///   squares.
pub fn soft_laws<R: Rate>()
    ensures reading { (levels : List ℤ)
        → IsFirstLeastReading R.STATES R.BITS_PER_SYMBOL (soft_cost R.point_of levels) (soft_octets R.STATES R.BITS_PER_SYMBOL R.point_of levels)
        (soft_cost R.point_of levels (soft_path R.STATES R.point_of levels)) }
    ensures near { (octets : List ℕ) (levels : List ℤ) → length octets ≡ R.OCTETS → All (λ octet. octet < 256) octets → length levels ≡ 98
        → bits_deviation (block_from R.BITS_PER_SYMBOL R.point_of octets) levels < 1024 * R.APART
        → soft_octets R.STATES R.BITS_PER_SYMBOL R.point_of levels ≡ octets }
{
    paths_apart::<R>()
}

/// **Theorem.** The decoding of levels at half rate. Levels whose squared deviations from a block have a sum below
/// 5,120 decode to its octets. The nominal levels of a block have its bits as hard bits, and `read_soft` decodes them
/// to its octets as `read_block` does the bits.
pub fn half_rate_soft()
    ensures near { (octets : List ℕ) (levels : List ℤ) → length octets ≡ 12 → All (λ octet. octet < 256) octets → length levels ≡ 98
        → bits_deviation (half_block octets) levels < 5120 → soft_octets 4 2 half_point levels ≡ octets }
    ensures nominal { (octets : List ℕ) → length octets ≡ 12 → All (λ octet. octet < 256) octets
        → (hard_bits (nominal_levels (half_block octets)) ≡ half_block octets) × (soft_octets 4 2 half_point (nominal_levels (half_block octets)) ≡ octets)
        × (half_octets (half_block octets) ≡ octets) }
{
    nearest_laws::<Half>();
    soft_laws::<Half>()
}

/// **Theorem.** The same at three-quarter rate, below 3,072.
pub fn three_quarter_rate_soft()
    ensures near { (octets : List ℕ) (levels : List ℤ) → length octets ≡ 18 → All (λ octet. octet < 256) octets → length levels ≡ 98
        → bits_deviation (three_quarter_block octets) levels < 3072 → soft_octets 8 3 three_quarter_point levels ≡ octets }
    ensures nominal { (octets : List ℕ) → length octets ≡ 18 → All (λ octet. octet < 256) octets
        → (hard_bits (nominal_levels (three_quarter_block octets)) ≡ three_quarter_block octets)
        × (soft_octets 8 3 three_quarter_point (nominal_levels (three_quarter_block octets)) ≡ octets)
        × (three_quarter_octets (three_quarter_block octets) ≡ octets) }
{
    nearest_laws::<ThreeQuarter>();
    soft_laws::<ThreeQuarter>()
}
