//! The work of `sample`: a line about sample data units.

ghost use Rattle.std.specs.Prelude.{◌≡◌, ◌≤◌, List};
ghost use Rattle.p25_io.specs.Events.{Event};
ghost use Rattle.p25_filter.specs.Traces.{IsRun};
ghost use Rattle.p25_vectors.specs.Samples.{flips_of};
ghost use Rattle.p25_tool.specs.{CallRuns.{AreWrites}, Outputs.{command_future, sample_line}, declared.command.Command.TheVariants.{Sample}};

use p25_filter::{Ending, FilterEnd};
use p25_io::Port;
use p25_line::Line;
use p25_vectors::{SampleReport, sample};

// Writes the line about the first sample data units. Nothing is read.
#[inline(never)]
pub(crate) fn run_sample<P: Port>(count: u64, port: &mut P) -> FilterEnd
    requires some { 1 ≤ count }
    requires most { count ≤ 10000 }
    ensures { (events : List Event) × P.moves port.old events port.new × IsRun (command_future (Sample count)) events result × AreWrites events }
{
    let mut line = Line::new();
    put_sample_line(&sample(count), &mut line);
    match port.write(line.octets()) {
        Ok(()) => FilterEnd::Ended(Ending::Done),
        Err(_) => FilterEnd::WriteFault,
    }
}

// Writes to `out` the line of a report.
#[tactic(auto, using(p25_line::proofs::DecimalLaws::decimal_short))]
fn put_sample_line(report: &SampleReport, out: &mut Line)
    requires flips { report.now.flips ≡ flips_of report.now.units }
    requires exact { report.now.exact ≡ report.now.units }
    ensures { out.new ≡ sample_line report.now.units }
{
    out.clear();
    out.put_labelled(b"units=", report.units);
    out.put_labelled(b" flips=", report.flips);
    out.put_labelled(b" exact=", report.exact);
    out.put(b"\n");
}
