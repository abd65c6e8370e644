//! Words whose costs lie between two codewords, at nominal levels 32, 96, -32 and -96 of 00, 01, 10 and 11 and with
//! costs of at most 96 squared.

ghost use Rattle.std.specs.Prelude.{◌≡◌, ◌*◌, ◌/◌, ◌<◌, ◌≤◌, length};

use crate::{Hamming10, Lsd16};
use p25_code::{Margin, NumberCode, cheapest, cost_margin};

// Levels half way between the codeword of zeros and 064, so both cost the same.
const TIE: [u32; 20] = [
    0, 4096, 4096, 9216, 1024, 1024, 9216, 9216, 1024, 9216, 1024, 9216, 1024, 1024, 9216, 9216, 0,
    4096, 4096, 9216,
];

// Levels one step further.
const BEYOND: [u32; 20] = [
    0, 4096, 4096, 9216, 1089, 961, 9216, 9216, 1089, 9216, 961, 9025, 1089, 961, 9216, 9216, 0,
    4096, 4096, 9216,
];

// Levels half way between the codeword of zeros and 1506 of the low speed data.
const LSD_TIE: [u32; 32] = [
    0, 4096, 4096, 9216, 1024, 1024, 9216, 9216, 1024, 1024, 9216, 9216, 1024, 1024, 9216, 9216, 0,
    4096, 4096, 9216, 0, 4096, 4096, 9216, 1024, 1024, 9216, 9216, 1024, 9216, 1024, 9216,
];

// Levels one step further.
const LSD_BEYOND: [u32; 32] = [
    0, 4096, 4096, 9216, 1089, 961, 9216, 9216, 1089, 961, 9216, 9216, 1089, 961, 9216, 9216, 0,
    4096, 4096, 9216, 0, 4096, 4096, 9216, 1089, 961, 9216, 9216, 1089, 9216, 961, 9025,
];

// The nominal levels of zeros, the first of them -128.
const CLICK: [u32; 32] = [
    9216, 9216, 9216, 1024, 0, 4096, 4096, 9216, 0, 4096, 4096, 9216, 0, 4096, 4096, 9216, 0, 4096,
    4096, 9216, 0, 4096, 4096, 9216, 0, 4096, 4096, 9216, 0, 4096, 4096, 9216,
];

// Eight levels of -128.
const NOISE: [u32; 32] = [
    9216, 9216, 9216, 1024, 9216, 9216, 9216, 1024, 9216, 9216, 9216, 1024, 9216, 9216, 9216, 1024,
    9216, 9216, 9216, 1024, 9216, 9216, 9216, 1024, 9216, 9216, 9216, 1024, 9216, 9216, 9216, 1024,
];

// The codeword decoded from costs, its cost and that of the cheapest other codeword, if all are small.
fn read<C: NumberCode>(costs: &[u32]) -> Option<(u32, Margin)>
    requires code { C.HasCode }
    requires pairs { 2 * (C.N / 2) ≡ C.N }
    requires small { C.N ≤ 24 }
    requires some { 0 < C.K }
    requires costs { length costs.now ≡ 2 * C.N }
{
    if !costs.iter().all(|cost| *cost <= 65_536) {
        return None;
    }
    let info = cheapest::<C>(costs);
    Some((info, cost_margin::<C>(costs, info)))
}

#[test]
fn hamming10_reads_costs(rt: HostRuntime) {
    let both = Margin {
        least: 3072,
        second: 3072,
    };
    assert_eq!(rt; read::<Hamming10>(&TIE), Some((0, both)));
    let next = Margin {
        least: 2883,
        second: 3267,
    };
    assert_eq!(rt; read::<Hamming10>(&BEYOND), Some((6, next)));
}

#[test]
fn lsd16_reads_costs(rt: HostRuntime) {
    let both = Margin {
        least: 5120,
        second: 5120,
    };
    assert_eq!(rt; read::<Lsd16>(&LSD_TIE), Some((0, both)));
    let next = Margin {
        least: 4805,
        second: 5445,
    };
    assert_eq!(rt; read::<Lsd16>(&LSD_BEYOND), Some((0x15, next)));
    // A click: squares without a limit would decode to another codeword, of cost 13,312.
    let far = Margin {
        least: 9216,
        second: 13312,
    };
    assert_eq!(rt; read::<Lsd16>(&CLICK), Some((0, far)));
    assert!(rt; matches!(read::<Lsd16>(&NOISE), Some((0x37, _))));
}
