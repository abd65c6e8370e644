//! The first sample data units, against values from outside.

use super::{SampleReport, Sampler, sample};
use p25_bits::BitBuf;
use std::process::Abort;

#[test]
fn first_unit(rt: HostRuntime) {
    let mut sampler = Sampler::new();
    let mut bits = BitBuf::new();
    let unit = sampler.next(&mut bits);
    assert_eq!(rt; (bits.len(), unit.flips), (144, 8));
}

// The first data unit, a TDU, and the counts of the first thousand.
#[test]
fn reports(rt: HostRuntime) {
    for (units, flips) in [(1, 8), (1_000, 39_735)] {
        let exact = units;
        assert_eq!(rt;
            sample(units),
            SampleReport {
                units,
                flips,
                exact
            }
        );
    }
}
