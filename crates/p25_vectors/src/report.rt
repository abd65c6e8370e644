//! A report on sample data units.

ghost use Rattle.std.specs.Prelude.{◌≡◌, ◌≤◌, Ok, length, true};
ghost use Rattle.p25_units.specs.{Needs.{need_of}, Readings.{unit_reading_of}, Units.{IsSoundFrame}, declared.needs.Need.TheVariants.{Length}};
ghost use Rattle.p25_vectors.specs.Samples.{flips_of};

use crate::sampler::Sampler;
use p25_bits::BitBuf;
use p25_units::{Frame, Need, need, read_unit};

/// The counts of a series of sample data units.
#[derive(Clone, Copy, Debug, PartialEq, Eq)]
pub struct SampleReport {
    /// The number of data units.
    pub units: u64,
    /// The number of inverted bits.
    pub flips: u64,
    /// The number of damaged data units that decode to their own frames.
    pub exact: u64,
}

/// Decodes the first `n` sample data units after damaging each, and returns the report. It requires `n` from 1 to
/// 10,000. All decode to their own frames.
pub fn sample(n: u64) -> SampleReport
    requires some { 1 ≤ n }
    requires most { n ≤ 10000 }
    ensures units { result.units ≡ n }
    ensures flips { result.flips ≡ flips_of n }
    ensures exact { result.exact ≡ n }
{
    let mut sampler = Sampler::new();
    let mut bits = BitBuf::new();
    let mut report = SampleReport {
        units: 0,
        flips: 0,
        exact: 0,
    };
    for _given in 0..n {
        let unit = sampler.next(&mut bits);
        report.units += 1;
        report.flips += u64::from(unit.flips);
        report.exact += u64::from(reads_as(&bits, &unit.frame));
    }
    report
}

// Returns whether bits decode to a frame. Those of the series always do, as is proved, so the result is always true;
// `sample` decodes them nevertheless, and counts.
fn reads_as(bits: &BitBuf, frame: &Frame) -> bool
    requires length { need_of bits.now ≡ Length (length bits.now) }
    requires sound { IsSoundFrame frame.now }
    requires read { unit_reading_of bits.now ≡ Ok frame.now }
    ensures { result ≡ true }
{
    match need(bits, 0) {
        Need::Length(count) => match read_unit(bits, 0, count) {
            Ok(read) => read == *frame,
            Err(_) => false,
        },
        _ => false,
    }
}
