//! A theorem on octets, and the value of a public constant. Their contracts are the theorems.

ghost use Rattle.std.specs.Prelude.{◌≡◌, ◌<◌, All};

use crate::BITS_MOST;

/// **Theorem.** Each octet of a slice is below 256.
pub fn octets_fit(octets: &[u8])
    ensures { All (λ octet. octet < 256) octets.now }
{
    // For the prover: this call gives the facts about a slice of octets.
    let _ = octets.len();
}

/// **Theorem.** The most bits of a list are 25,928.
pub fn numbers()
    ensures bits { BITS_MOST ≡ 25928 }
{}
