//! Words whose costs lie between two codewords, at nominal levels 32, 96, -32 and -96 of 00, 01, 10 and 11 and with
//! costs of at most 96 squared.

ghost use Rattle.std.specs.Prelude.{◌≡◌, ◌*◌, ◌/◌, ◌<◌, ◌≤◌, length};

use crate::{Golay18, Golay24};
use p25_code::{Margin, NumberCode, cheapest, cost_margin};

// Levels half way between the codeword of zeros and 04A961, so both cost the same.
const TIE: [u32; 48] = [
    0, 4096, 4096, 9216, 0, 4096, 4096, 9216, 1024, 1024, 9216, 9216, 0, 4096, 4096, 9216, 1024,
    9216, 1024, 9216, 1024, 9216, 1024, 9216, 1024, 9216, 1024, 9216, 1024, 1024, 9216, 9216, 1024,
    1024, 9216, 9216, 1024, 9216, 1024, 9216, 0, 4096, 4096, 9216, 1024, 1024, 9216, 9216,
];

// Levels one step further.
const BEYOND: [u32; 48] = [
    0, 4096, 4096, 9216, 0, 4096, 4096, 9216, 1089, 961, 9216, 9216, 0, 4096, 4096, 9216, 1089,
    9216, 961, 9025, 1089, 9216, 961, 9025, 1089, 9216, 961, 9025, 1089, 961, 9216, 9216, 1089,
    961, 9216, 9216, 1089, 9216, 961, 9025, 0, 4096, 4096, 9216, 1089, 961, 9216, 9216,
];

// The nominal levels of 04A961.
const NOMINAL: [u32; 48] = [
    0, 4096, 4096, 9216, 0, 4096, 4096, 9216, 4096, 0, 9216, 9216, 0, 4096, 4096, 9216, 4096, 9216,
    0, 4096, 4096, 9216, 0, 4096, 4096, 9216, 0, 4096, 4096, 0, 9216, 9216, 4096, 0, 9216, 9216,
    4096, 9216, 0, 4096, 0, 4096, 4096, 9216, 4096, 0, 9216, 9216,
];

// Levels half way between the codeword of zeros and 12A59 of the code (18,6).
const SHORT_TIE: [u32; 36] = [
    1024, 1024, 9216, 9216, 0, 4096, 4096, 9216, 1024, 9216, 1024, 9216, 1024, 9216, 1024, 9216,
    1024, 9216, 1024, 9216, 1024, 1024, 9216, 9216, 1024, 1024, 9216, 9216, 1024, 9216, 1024, 9216,
    1024, 1024, 9216, 9216,
];

// Levels one step further.
const SHORT_BEYOND: [u32; 36] = [
    1089, 961, 9216, 9216, 0, 4096, 4096, 9216, 1089, 9216, 961, 9025, 1089, 9216, 961, 9025, 1089,
    9216, 961, 9025, 1089, 961, 9216, 9216, 1089, 961, 9216, 9216, 1089, 9216, 961, 9025, 1089,
    961, 9216, 9216,
];

// The codeword decoded from costs, its cost and that of the cheapest other codeword, if all are small.
fn read<C: NumberCode>(costs: &[u32]) -> Option<(u32, Margin)>
    requires code { C.HasCode }
    requires pairs { 2 * (C.N / 2) ≡ C.N }
    requires small { C.N ≤ 24 }
    requires some { 0 < C.K }
    requires costs { length costs.now ≡ 2 * C.N }
{
    if !costs.iter().all(|cost| *cost <= 65_536) {
        return None;
    }
    let info = cheapest::<C>(costs);
    Some((info, cost_margin::<C>(costs, info)))
}

#[test]
fn reads_costs(rt: HostRuntime) {
    // The last row has a key of 32,768: the second cost less twice the least.
    let both = Margin {
        least: 8192,
        second: 8192,
    };
    assert_eq!(rt; read::<Golay24>(&TIE), Some((0, both)));
    let next = Margin {
        least: 7688,
        second: 8712,
    };
    assert_eq!(rt; read::<Golay24>(&BEYOND), Some((0x04A, next)));
    let sure = Margin {
        least: 0,
        second: 32768,
    };
    assert_eq!(rt; read::<Golay24>(&NOMINAL), Some((0x04A, sure)));
}

#[test]
fn reads_costs_of_the_short_code(rt: HostRuntime) {
    let both = Margin {
        least: 8192,
        second: 8192,
    };
    assert_eq!(rt; read::<Golay18>(&SHORT_TIE), Some((0, both)));
    let next = Margin {
        least: 7688,
        second: 8712,
    };
    assert_eq!(rt; read::<Golay18>(&SHORT_BEYOND), Some((0x12, next)));
}
