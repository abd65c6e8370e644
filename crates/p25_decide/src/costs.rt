//! The costs of dibits at soft symbols.

ghost use Rattle.std.specs.Prelude.{◌≡◌, ◌+◌, ◌*◌, ◌/◌, ◌^◌, ◌<◌, ◌≤◌, All, length};
ghost use Rattle.p25_decide.specs.LevelCosts.{field_costs, level_cost, level_costs, word_level_costs};

use p25_soft::nominal;

// The most that a level counts as distant from that of a dibit.
const FAR: u32 = 96;

// How many dibits of a unit are before each of its status symbols.
const BARE_DIBITS: usize = 35;

/// Returns what a dibit, which is below 4, costs at a level: the square of the distance between the level and that of the dibit, of
/// which 96 counts at most. This project's own.
pub fn level_cost(level: i8, dibit: u8) -> u32
    requires { dibit < 4 }
    ensures cost { result ≡ level_cost level dibit }
    ensures most { result ≤ 9216 }
{
    let apart = (i32::from(level) - i32::from(nominal(dibit)))
        .unsigned_abs()
        .min(FAR);
    apart * apart
}

// Returns what the four dibits cost at a level.
fn level_costs(level: i8) -> [u32; 4]
    ensures list { result ≡ level_costs level }
    ensures len { length result ≡ 4 }
{
    [
        level_cost(level, 0),
        level_cost(level, 1),
        level_cost(level, 2),
        level_cost(level, 3),
    ]
}

// Writes the costs of the dibits of an inner word that starts at the even position `at` of a unit without its status symbols: four for each
// dibit, at the level that was sent for it.
pub(crate) fn put_costs(levels: &[i8], at: usize, costs: &mut [u32])
    requires pairs { 4 * (length costs.old / 4) ≡ length costs.old }
    requires there { at / 2 + length costs.old / 4 ≤ 35 * (length levels.now / 36) }
    ensures { costs.new ≡ word_level_costs levels.now (at / 2) (length costs.old / 4) }
{
    for i in 0..costs.len() / 4 {
        let dibit = at / 2 + i;
        let level = levels[dibit + dibit / BARE_DIBITS];
        costs[4 * i..4 * i + 4].copy_from_slice(&level_costs(level));
    }
}

// Writes the costs of the inner words of a field, `size` bits each, that start at even positions of a unit without its status symbols.
pub(crate) fn put_field_costs(levels: &[i8], places: &[usize], size: usize, costs: &mut [u32])
    requires pairs { 2 * (size / 2) ≡ size }
    requires few { length places.now ≤ 36 }
    requires small { size ≤ 24 }
    requires there { All (λ at. at + size ≤ 70 * (length levels.now / 36)) places.now }
    requires costs { length costs.old ≡ 2 * size * length places.now }
    ensures list { costs.new ≡ field_costs size places.now levels.now }
    ensures low { All (λ cost. cost ≤ 2 ^ 16) costs.new }
{
    for (i, at) in places.iter().enumerate() {
        put_costs(
            levels,
            *at,
            &mut costs[2 * size * i..2 * size * i + 2 * size],
        );
    }
}
