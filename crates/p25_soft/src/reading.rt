//! Decoding of blocks from levels.

ghost use Rattle.std.specs.Prelude.{◌≡◌, ℕ, ◌^◌, ◌<◌, ◌≤◌, All, length, slice_index};
ghost use Rattle.p25_trellis.specs.{Interleave.{interleaved}, Trellis.{IsFirstLeastReading}};
ghost use Rattle.p25_soft.specs.{SoftPaths.{soft_cost, soft_octets}, PointCosts.{IsPointTable, point_deviation}};

use crate::level::deviation;
use p25_trellis::{BLOCK_COSTS, Rate, gather, read_costs};

// The number of levels of a block.
pub(crate) const BLOCK_LEVELS: usize = 98;

// The number of points of a block, of two levels each.
const BLOCK_POINTS: usize = 49;

// Returns the cost of a nibble that is transmitted as the point at a position: its two dibits are transmitted one after
// the other.
fn point_cost(levels: &[i8], place: usize, nibble: u8) -> u32
    requires levels { length levels.now ≡ 98 }
    requires place { place < 49 }
    requires nibble { nibble < 16 }
    ensures cost { result ≡ point_deviation levels.now nibble place }
    ensures low { result ≤ 2 ^ 24 }
{
    deviation(nibble / 4, levels[2 * place]) + deviation(nibble % 4, levels[2 * place + 1])
}

// Returns the position at which the point of each step of a path is transmitted.
fn sent_places() -> [u8; BLOCK_POINTS]
    ensures in_order { (k : ℕ) → k < 49 → slice_index (interleaved result) k ≡ k }
    ensures below { All (λ place. place < 49) result }
    ensures len { length result ≡ 49 }
{
    let mut in_order = [0; BLOCK_POINTS];
    for place in 0..BLOCK_POINTS {
        in_order[place] = place as u8;
    }
    gather(&in_order)
}

// Returns the table of the cost of each nibble at each step of a path.
fn level_costs(levels: &[i8]) -> [u32; BLOCK_COSTS]
    requires { length levels.now ≡ 98 }
    ensures costs { IsPointTable levels.now result }
    ensures low { All (λ cost. cost ≤ 2 ^ 24) result }
    ensures len { length result ≡ 784 }
{
    let places = sent_places();
    let mut costs = [0; BLOCK_COSTS];
    for step in 0..BLOCK_POINTS {
        let place = usize::from(places[step]);
        for nibble in 0..16 {
            costs[16 * step + usize::from(nibble)] = point_cost(levels, place, nibble);
        }
    }
    costs
}

/// Decodes a block's 98 levels: writes to `octets` those of the soft path, and returns the cost of that path. The cost
/// is the sum, over the 98 dibits of its transmitted bits, of the square of level minus nominal level. No path costs
/// less; if several cost the same, it is the first in dictionary order of symbols. It requires the levels in the order
/// of transmission, as the bits of `read_block`, and 12 octets at half rate or 18 at three-quarter rate. The measure is
/// this project's own; the paths are those of TIA-102.BAAA, Trellis Coding.
pub fn read_soft<R: Rate>(levels: &[i8], octets: &mut [u8]) -> u32
    requires levels { length levels.now ≡ 98 }
    requires octets { length octets.old ≡ R.OCTETS }
    ensures least { IsFirstLeastReading R.STATES R.BITS_PER_SYMBOL (soft_cost R.point_of levels.now) octets.new result }
    ensures octets { octets.new ≡ soft_octets R.STATES R.BITS_PER_SYMBOL R.point_of levels.now }
{
    read_costs::<R>(&level_costs(levels), octets)
}
