//! Octets as they arrive, eight at once.

ghost use Rattle.std.specs.Prelude.{◌≡◌, ◌+◌, ◌*◌, ◌<◌, ◌≤◌, ◌++◌, length, take};
ghost use Rattle.p25_bits.specs.Bits.{octet_bits};
ghost use Rattle.p25_stream.specs.Scan.{octets_taken};

use p25_bits::BitBuf;

// The most bits that a scanner holds.
const HELD_MOST: usize = 25_927;

// Appends the bits of some octets, from the first on, and returns the number of these octets: eight if there are that
// many and capacity for them, otherwise one.
#[inline]
#[tactic(auto, using(std::proofs::lemmas::Bool::Decides::nat_tests))]
pub(crate) fn put_some(octets: &[u8], held: &mut BitBuf) -> usize
    requires some { 0 < length octets.now }
    requires room { length held.old < 25920 }
    ensures list { held.new ≡ held.old ++ octet_bits (take result octets.now) }
    ensures len { length held.new ≡ length held.old + 8 * result }
    ensures most { length held.new ≤ 25927 }
    ensures some { 0 < result }
    ensures there { result ≤ length octets.now }
    ensures count { result ≡ octets_taken (length held.old) (length octets.now) }
{
    if octets.len() < 8 || held.len() + 64 > HELD_MOST {
        held.put_field(u64::from(octets[0]), 8);
        return 1;
    }
    held.put_eight(octets);
    8
}
