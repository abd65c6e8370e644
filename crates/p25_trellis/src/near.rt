//! The search for the first nearest path to received nibbles. From the last step to the first it computes the least
//! distance after each state, all states of a step side by side. It also computes the lowest symbol with which a rest
//! of that distance begins. Then it follows these symbols.

ghost use Rattle.std.specs.Prelude.{◌≡◌, ℕ, ◌+◌, ◌/◌, ◌%◌, ◌<◌, All, length, slice_index};
ghost use Rattle.p25_trellis.specs.{Trellis.{IsFirstLeastReading}, Tables.{nibble_distance}, Costs.{path_cost, received_cost}};
ghost use Rattle.p25_bits.specs.Least.{IsLowestLeast};
ghost use Rattle.p25_trellis.specs.Least.{HasLeastFrom, HasLowestFrom};

use super::path::take_path;
use super::rate::Rate;

// The number of least distances or costs after the states: 8 for each of 49 steps.
pub(crate) const BLOCK_RESTS: usize = 392;

// Returns the least rank of each state at a step; `rests` has the least distances after the next step. The rank is
// eight times the least distance of the step and its rest, plus the lowest symbol that attains it. There are eight
// entries; those after the last state are not used.
#[inline(always)]
fn least_at<R: Rate>(nibble: u8, rests: &[u8]) -> [u16; 8]
    requires nibble { nibble < 16 }
    requires rests { length rests.now ≡ 8 }
    ensures least { (state : ℕ) → state < R.STATES
        → IsLowestLeast R.STATES (λ other. nibble_distance (R.point_of state other) nibble + slice_index rests.now other)
        (slice_index result state % 8) (slice_index result state / 8) }
    ensures len { length result ≡ 8 }
{
    let mut least = [0xFFFF; 8];
    for symbol in 0..R::STATES {
        let ranks = R::ranks(symbol, nibble);
        let more = 8 * u16::from(rests[usize::from(symbol)]);
        for state in 0..8 {
            least[state] = least[state].min(ranks[state] + more);
        }
    }
    least
}

// Writes the distance of the last step after each state: that of the symbol 0.
fn fill_last<R: Rate>(received: &[u8; 49], rests: &mut [u8])
    requires nibbles { All (λ n. n < 16) received.now }
    requires rests { length rests.old ≡ 392 }
    ensures { HasLeastFrom R.STATES R.point_of (received_cost received.now) rests.new 48 }
{
    let ranks = R::ranks(0, received[48]);
    for state in 0..usize::from(R::STATES) {
        rests[384 + state] = (ranks[state] / 8) as u8;
    }
}

// Writes the least distance after each state at each step, and the lowest symbol with which it begins.
fn fill_rests<R: Rate>(
    received: &[u8; 49],
    rests: &mut [u8; BLOCK_RESTS],
    symbols: &mut [u8; BLOCK_RESTS],
)
    requires { All (λ n. n < 16) received.now }
    ensures least { HasLeastFrom R.STATES R.point_of (received_cost received.now) rests.new 0 }
    ensures lowest { HasLowestFrom R.STATES R.point_of (received_cost received.now) rests.new symbols.new 0 }
{
    fill_last::<R>(received, rests);
    for step in (0..48).rev() {
        let least = least_at::<R>(received[step], &rests[8 * step + 8..8 * step + 16]);
        for state in 0..usize::from(R::STATES) {
            rests[8 * step + state] = (least[state] / 8) as u8;
            symbols[8 * step + state] = (least[state] % 8) as u8;
        }
    }
}

// Decodes nibbles: writes to `octets` those of the first nearest path, and returns its distance. It is a function of
// its own, so a block without bit errors does not pay for the search.
#[inline(never)]
pub(crate) fn read_near<R: Rate>(received: &[u8; 49], octets: &mut [u8]) -> u32
    requires nibbles { All (λ n. n < 16) received.now }
    requires octets { length octets.old ≡ R.OCTETS }
    ensures { IsFirstLeastReading R.STATES R.BITS_PER_SYMBOL (path_cost R.point_of (received_cost received.now)) octets.new result }
{
    let mut rests = [0; BLOCK_RESTS];
    let mut symbols = [0; BLOCK_RESTS];
    fill_rests::<R>(received, &mut rests, &mut symbols);
    take_path::<R, _>(|step, state| symbols[8 * step + usize::from(state)], octets);
    u32::from(rests[0])
}
