//! Paths: the octets that they carry, and the nibbles of their steps.

ghost use Rattle.std.specs.Prelude.{◌≡◌, ℕ, ◌<◌, All, List, length};
ghost use Rattle.p25_trellis.specs.{Trellis.{IsPath, IsFirstLeastReading, Carries, nibbles_from}, Costs.{path_cost}, Least.{rest_in, Chooses, HasLeastFrom}};

use super::groups::regroup;
use super::rate::Rate;

// Writes the octets that a path carries.
pub(crate) fn octets_of<R: Rate>(path: &[u8], octets: &mut [u8])
    requires path { IsPath R.STATES path.now }
    requires octets { length octets.old ≡ R.OCTETS }
    ensures { Carries R.BITS_PER_SYMBOL path.now octets.new }
{
    regroup(&path[..48], R::BITS_PER_SYMBOL, 8, octets);
}

// Writes the octets of the path on which each step takes the symbol chosen for the step and the state before it. If
// that is the lowest symbol that leads to the least cost after the state, the path is the first least one.
pub(crate) fn take_path<R: Rate, F: Fn(usize, u8) -> u8>(choose: F, octets: &mut [u8])
    requires callable { (step state : ℕ) → step < 48 → state < R.STATES → F.pre choose step state }
    requires below { (step state symbol : ℕ) → step < 48 → state < R.STATES → F.post choose step state symbol → symbol < R.STATES }
    requires octets { length octets.old ≡ R.OCTETS }
    ensures { (cost : ℕ → ℕ → ℕ) (rests : List ℕ) → HasLeastFrom R.STATES R.point_of cost rests 0
        → Chooses R.STATES R.point_of cost rests (F.post choose)
        → IsFirstLeastReading R.STATES R.BITS_PER_SYMBOL (path_cost R.point_of cost) octets.new (rest_in rests 0 0) }
{
    let mut path = [0; 49];
    let mut state = 0;
    for step in 0..48 {
        state = choose(step, state);
        path[step] = state;
    }
    octets_of::<R>(&path, octets);
}

// Returns the nibbles of a path.
pub(crate) fn nibbles_of<R: Rate>(path: &[u8; 49]) -> [u8; 49]
    requires { All (λ symbol. symbol < R.STATES) path.now }
    ensures value { result ≡ nibbles_from R.point_of 0 path.now }
    ensures nibbles { All (λ n. n < 16) result }
    ensures len { length result ≡ 49 }
{
    let mut nibbles = [0; 49];
    let mut state = 0;
    for step in 0..49 {
        nibbles[step] = R::point(state, path[step]);
        state = path[step];
    }
    nibbles
}
