//! The first least path of a table of costs. From the last step to the first the least cost after each state is
//! computed, and then forward the lowest symbol that attains it.

ghost use Rattle.std.specs.Prelude.{◌≡◌, ℕ, ◌^◌, ◌<◌, ◌≤◌, All, length};
ghost use Rattle.p25_trellis.specs.{Trellis.{IsFirstLeastReading}, Costs.{cost_in, path_cost}, Least.{step_cost, HasLeastFrom}};
ghost use Rattle.p25_bits.specs.Least.{IsLowestLeast};

use super::near::BLOCK_RESTS;
use super::path::take_path;
use super::rate::Rate;

/// The number of costs of a block: 16 for each of 49 steps, one for each nibble.
pub const BLOCK_COSTS: usize = 784;

// A symbol, and the cost of it and the rest of a path.
#[derive(Clone, Copy)]
struct Choice {
    symbol: u8,
    cost: u32,
}

// Returns the cost of a symbol after a state, together with the least cost that can follow it.
fn symbol_cost<R: Rate>(costs: &[u32], rests: &[u32], step: usize, state: u8, symbol: u8) -> u32
    requires costs { length costs.now ≡ 784 }
    requires rests { length rests.now ≡ 392 }
    requires step { step < 48 }
    requires state { state < R.STATES }
    requires symbol { symbol < R.STATES }
    requires fits { step_cost R.point_of (cost_in costs.now) rests.now step state symbol < 2 ^ 32 }
    ensures { result ≡ step_cost R.point_of (cost_in costs.now) rests.now step state symbol }
{
    costs[16 * step + usize::from(R::point(state, symbol))]
        + rests[8 * (step + 1) + usize::from(symbol)]
}

// Returns the lowest of the symbols that cost least after a state.
fn best_symbol<R: Rate>(costs: &[u32], rests: &[u32], step: usize, state: u8) -> Choice
    requires costs { length costs.now ≡ 784 }
    requires rests { length rests.now ≡ 392 }
    requires step { step < 48 }
    requires state { state < R.STATES }
    requires fits { (symbol : ℕ) → symbol < R.STATES → step_cost R.point_of (cost_in costs.now) rests.now step state symbol < 2 ^ 32 }
    ensures { IsLowestLeast R.STATES (step_cost R.point_of (cost_in costs.now) rests.now step state) result.symbol result.cost }
{
    let mut best = Choice {
        symbol: 0,
        cost: symbol_cost::<R>(costs, rests, step, state, 0),
    };
    for symbol in 1..R::STATES {
        let cost = symbol_cost::<R>(costs, rests, step, state, symbol);
        if cost < best.cost {
            best = Choice { symbol, cost };
        }
    }
    best
}

// Writes the cost of the last step after each state: that of the symbol 0.
fn fill_last<R: Rate>(costs: &[u32], rests: &mut [u32])
    requires costs { length costs.now ≡ 784 }
    requires rests { length rests.old ≡ 392 }
    ensures { HasLeastFrom R.STATES R.point_of (cost_in costs.now) rests.new 48 }
{
    for state in 0..R::STATES {
        rests[8 * 48 + usize::from(state)] = costs[16 * 48 + usize::from(R::point(state, 0))];
    }
}

/// Decodes by a table of costs: writes to `octets` those of the first least path, and returns the cost of that path. No
/// path costs less; if several cost the same, it is the first in dictionary order of symbols.
///
/// It requires 16 costs for each of the 49 steps, that of nibble n at step i at index 16·i + n, each at most 2^24. The
/// cost of a path is the sum over its nibbles, before interleaving. `read_block` is this with the distances from
/// received nibbles as costs; a decoder of soft symbols has costs of its own.
pub fn read_costs<R: Rate>(costs: &[u32], octets: &mut [u8]) -> u32
    requires costs { length costs.now ≡ 784 }
    requires low { All (λ cost. cost ≤ 2 ^ 24) costs.now }
    requires octets { length octets.old ≡ R.OCTETS }
    ensures { IsFirstLeastReading R.STATES R.BITS_PER_SYMBOL (path_cost R.point_of (cost_in costs.now)) octets.new result }
{
    let mut rests = [0; BLOCK_RESTS];
    fill_last::<R>(costs, &mut rests);
    for step in (0..48).rev() {
        for state in 0..R::STATES {
            let best = best_symbol::<R>(costs, &rests, step, state);
            rests[8 * step + usize::from(state)] = best.cost;
        }
    }
    take_path::<R, _>(
        |step, state| best_symbol::<R>(costs, &rests, step, state).symbol,
        octets,
    );
    rests[0]
}
