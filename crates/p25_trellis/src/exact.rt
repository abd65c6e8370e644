//! The path whose transmitted bits are exactly the received ones, if there is one. It is the nearest path, and no costs
//! are summed for it.

ghost use Rattle.std.specs.Prelude.{◌≡◌, ◌<◌, All, MatchOption};
ghost use Rattle.p25_trellis.specs.Trellis.{IsPath, nibbles_from};

use super::rate::Rate;

// Returns a path with the given nibbles, before interleaving, or `None`. If there is such a path it is found, because
// the points of a row differ. No contract depends on this: a caller without a path searches for the nearest one.
pub(crate) fn path_along<R: Rate>(nibbles: &[u8; 49]) -> Option<[u8; 49]>
    requires { All (λ n. n < 16) nibbles.now }
    ensures { MatchOption result (Unit {0}) (λ path. IsPath R.STATES path × (nibbles_from R.point_of 0 path ≡ nibbles.now)) }
{
    let mut path = [0; 49];
    let mut state = 0;
    for step in 0..48 {
        state = R::symbol_sending(state, nibbles[step]);
        if state >= R::STATES {
            return None;
        }
        path[step] = state;
    }
    if R::point(state, 0) == nibbles[48] {
        Some(path)
    } else {
        None
    }
}
