//! The order in which the nibbles of a block are transmitted.

ghost use Rattle.std.specs.Prelude.{◌≡◌, ℕ, List, length};
ghost use Rattle.p25_trellis.specs.Interleave.{interleaved};

// The index of the nibble of a path that is transmitted at each position: 0, 4, .., 48 first, then 1, 5, .., 45, then
// 2, 6, .., 46, and then 3, 7, .., 47.
const SENT_ORDER: [usize; 49] = [
    0, 4, 8, 12, 16, 20, 24, 28, 32, 36, 40, 44, 48, //
    1, 5, 9, 13, 17, 21, 25, 29, 33, 37, 41, 45, //
    2, 6, 10, 14, 18, 22, 26, 30, 34, 38, 42, 46, //
    3, 7, 11, 15, 19, 23, 27, 31, 35, 39, 43, 47,
];

/// Interleaves the nibbles of a path: returns them in the order of transmission. Those at positions 0 modulo 4 are
/// first, then those at 1, 2 and 3 modulo 4 (TIA-102.BAAA, Data Interleaving).
pub fn spread(nibbles: &[u8; 49]) -> [u8; 49]
    ensures sent { result ≡ interleaved nibbles.now }
    ensures len { length result ≡ 49 }
{
    let mut sent = [0; 49];
    for place in 0..49 {
        sent[place] = nibbles[SENT_ORDER[place]];
    }
    sent
}

/// Deinterleaves transmitted nibbles: returns them in the order of the path. This is the inverse of `spread`.
/// TIA-102.BAAA, Data Interleaving.
pub fn gather(nibbles: &[u8; 49]) -> [u8; 49]
    ensures sent { interleaved result ≡ nibbles.now }
    ensures undone { (gathered : List ℕ) → interleaved gathered ≡ nibbles.now → result ≡ gathered }
    ensures len { length result ≡ 49 }
{
    let mut gathered = [0; 49];
    for place in 0..49 {
        gathered[SENT_ORDER[place]] = nibbles[place];
    }
    gathered
}

#[cfg(test)]
mod tests {
    use super::*;

    // Deinterleaving interleaved nibbles gives the nibbles again.
    fn gathered_again(nibbles: &[u8; 49]) -> [u8; 49]
        ensures { result ≡ nibbles.now }
    {
        gather(&spread(nibbles))
    }

    // Interleaving deinterleaved nibbles gives the nibbles again.
    fn spread_again(nibbles: &[u8; 49]) -> [u8; 49]
        ensures { result ≡ nibbles.now }
    {
        spread(&gather(nibbles))
    }

    #[test]
    fn each_undoes_the_other(rt: HostRuntime) {
        let mut nibbles = [0; 49];
        for place in 0..49 {
            nibbles[place] = place as u8;
        }
        let sent = spread(&nibbles);
        let bounds = [
            sent[1], sent[12], sent[13], sent[24], sent[25], sent[36], sent[37], sent[48],
        ];
        assert_eq!(rt; bounds, [4, 48, 1, 45, 2, 46, 3, 47]);
        assert_eq!(rt; gathered_again(&nibbles), nibbles);
        assert_eq!(rt; spread_again(&nibbles), nibbles);
    }
}
