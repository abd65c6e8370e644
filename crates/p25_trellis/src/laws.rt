//! Laws of the rates: the distance of their paths, and what the functions of blocks and decoding are. Each function
//! states what is proved, and calls at most other theorems, or the functions that it states something of.

ghost use Rattle.std.specs.{Prelude.{◌≡◌, ℕ, ◌*◌, ◌<◌, ◌≤◌, Bool, List, All, length, map, slice_index}, List.{concat}};
ghost use Rattle.p25_bits.specs.Distance.{distance_of};
ghost use Rattle.p25_trellis.specs.Interleave.{interleaved};
ghost use Rattle.p25_trellis.specs.Nearest.{nearest_octets, nearest_distance, block_from, half_octets, three_quarter_octets, half_block, three_quarter_block};
ghost use Rattle.p25_trellis.specs.Tables.{half_point, three_quarter_point, point_nibbles, half_rows, three_quarter_rows};
ghost use Rattle.p25_trellis.specs.Trellis.{IsBlock, IsFirstLeastReading, SomeApart, ArePathsApart, distance_from};

use super::tables::{HALF_NIBBLES, THREE_QUARTER_NIBBLES};
use crate::{BLOCK_COSTS, Half, Rate, ThreeQuarter, gather, spread};

/// **Theorem.** The transmitted bits of two different paths of a rate differ in at least `APART` positions, and those
/// of some two in no more.
pub fn paths_apart<R: Rate>()
    ensures apart { ArePathsApart R.STATES R.point_of R.APART }
    ensures reached { SomeApart R.STATES R.point_of R.APART }
{}

/// **Theorem.** The transmitted bits of two different half-rate paths differ in at least 5 positions.
pub fn half_rate_apart()
    ensures apart { ArePathsApart 4 half_point 5 }
    ensures reached { SomeApart 4 half_point 5 }
{
    paths_apart::<Half>()
}

/// **Theorem.** The transmitted bits of two different three-quarter-rate paths differ in at least 3 positions.
pub fn three_quarter_rate_apart()
    ensures apart { ArePathsApart 8 three_quarter_point 3 }
    ensures reached { SomeApart 8 three_quarter_point 3 }
{
    paths_apart::<ThreeQuarter>()
}

/// **Theorem.** The octets and the distance that `nearest_octets` and `nearest_distance` return are those of the first
/// nearest path, and no others are. The block that `block_from` returns is the block of its octets.
pub fn nearest_laws<R: Rate>()
    ensures reading { (received : List Bool)
        → IsFirstLeastReading R.STATES R.BITS_PER_SYMBOL (distance_from R.point_of received) (nearest_octets R.STATES R.BITS_PER_SYMBOL R.point_of received)
        (nearest_distance R.STATES R.point_of received) }
    ensures only { (received : List Bool) (octets : List ℕ) (distance : ℕ)
        → IsFirstLeastReading R.STATES R.BITS_PER_SYMBOL (distance_from R.point_of received) octets distance
        → (octets ≡ nearest_octets R.STATES R.BITS_PER_SYMBOL R.point_of received)
        × (distance ≡ nearest_distance R.STATES R.point_of received) }
    ensures block { (octets : List ℕ) → length octets ≡ R.OCTETS → All (λ octet. octet < 256) octets
        → IsBlock R.STATES R.BITS_PER_SYMBOL R.point_of octets (block_from R.BITS_PER_SYMBOL R.point_of octets) }
    ensures near { (octets : List ℕ) (received : List Bool) → length octets ≡ R.OCTETS → All (λ octet. octet < 256) octets → length received ≡ 196
        → 2 * distance_of (block_from R.BITS_PER_SYMBOL R.point_of octets) received < R.APART
        → (nearest_octets R.STATES R.BITS_PER_SYMBOL R.point_of received ≡ octets)
        × (nearest_distance R.STATES R.point_of received ≡ distance_of (block_from R.BITS_PER_SYMBOL R.point_of octets) received) }
{}

/// **Theorem.** A half-rate block with at most two bit errors decodes to the transmitted octets.
pub fn half_rate_near()
    ensures { (octets : List ℕ) (received : List Bool) → length octets ≡ 12 → All (λ octet. octet < 256) octets → length received ≡ 196
        → distance_of (half_block octets) received ≤ 2 → half_octets received ≡ octets }
{
    nearest_laws::<Half>()
}

/// **Theorem.** A three-quarter-rate block with at most one bit error decodes to the transmitted octets.
pub fn three_quarter_rate_near()
    ensures { (octets : List ℕ) (received : List Bool) → length octets ≡ 18 → All (λ octet. octet < 256) octets → length received ≡ 196
        → distance_of (three_quarter_block octets) received ≤ 1 → three_quarter_octets received ≡ octets }
{
    nearest_laws::<ThreeQuarter>()
}

/// **Theorem.** The tables of the code have the nibbles of the points of the definitions, row by row.
pub fn tables_are_as_defined()
    ensures half { HALF_NIBBLES ≡ map (λ point. slice_index point_nibbles point) (concat half_rows) }
    ensures three_quarter { THREE_QUARTER_NIBBLES ≡ map (λ point. slice_index point_nibbles point) (concat three_quarter_rows) }
{}

/// **Theorem.** A block has a cost for each of the 16 nibbles at each of its 49 positions.
pub fn numbers()
    ensures costs { BLOCK_COSTS ≡ 49 * 16 }
{}

/// **Theorem.** The nibbles of a path, spread, are in the order in which they are transmitted; gathered again they are the path.
pub fn spread_and_gathered(nibbles: &[u8; 49]) -> ([u8; 49], [u8; 49])
    ensures spread { result.0 ≡ interleaved nibbles.now }
    ensures gathered { result.1 ≡ nibbles.now }
{
    let sent = spread(nibbles);
    let path = gather(&sent);
    (sent, path)
}
