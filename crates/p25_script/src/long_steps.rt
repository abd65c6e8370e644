//! The texts of the steps of long messages.

ghost use Rattle.std.specs.Prelude.{◌≡◌, ◌+◌, ◌≤◌, ◌++◌, decimal, length};
ghost use Rattle.p25_script.specs.{StepTexts.{step_text_of}, LongTexts.{ended_line, first_line_of, line_before, line_behind, long_step_text_of}};

use super::shown::ScriptStep;
use super::steps::step_text;
use p25_fragments::{LongStep, Then};
use p25_line::Line;
use p25_stations::Step;

/// Writes to `out` and `behind` the two parts of the text of a step, one after the other: its lines, each with its end.
/// The line of a long message that is taken comes before that of the step of its part 0. Any other line comes after
/// that of the step of the inner world.
#[tactic(auto, unfolding(crate::specs::LongTexts::long_step_text_of, crate::specs::LongTexts::line_before, crate::specs::LongTexts::line_behind))]
pub fn long_step_text(step: &LongStep, out: &mut Line, behind: &mut Line)
    ensures { out.new ++ behind.new ≡ long_step_text_of step.now }
{
    match &step.then {
        Then::Started { parts } => {
            put_line(b"long taken parts=", u64::from(*parts), out);
            put_first(&step.first, behind);
        }
        then => {
            put_first(&step.first, out);
            put_behind(then, behind);
        }
    }
}

impl ScriptStep for LongStep {
    ghost shown = { long_step_text_of };

    fn put_text(&self, out: &mut Line, behind: &mut Line) {
        long_step_text(self, out, behind);
    }
}

// Writes to `out` the line of the step of the inner world, or nothing if there is none.
#[tactic(auto, unfolding(crate::specs::LongTexts::first_line_of))]
fn put_first(first: &Option<Step>, out: &mut Line)
    ensures { out.new ≡ first_line_of first.now }
{
    match first {
        Some(step) => put_step(step, out),
        None => out.clear(),
    }
}

// Writes to `out` the line after the step of the inner world, or nothing if there is none.
#[tactic(auto, unfolding(crate::specs::LongTexts::line_behind))]
fn put_behind(then: &Then, out: &mut Line)
    ensures { out.new ≡ line_behind then.now }
{
    out.clear();
    match then {
        Then::Plain | Then::Started { .. } => {}
        Then::Busy => out.put(b"long busy\n"),
        Then::Down => out.put(b"long down\n"),
        Then::Part { number } => put_line(b"part ", u64::from(*number), out),
        Then::Whole(message) => {
            out.put(b"whole message=");
            out.put_octets(message.octets());
            out.put(b"\n");
        }
        Then::Refused => out.put(b"part refused\n"),
        Then::Next(step) => put_step(step, out),
        Then::Finished => out.put(b"long acknowledged\n"),
    }
}

// Writes to `out` the line of a step of the inner world.
fn put_step(step: &Step, out: &mut Line)
    ensures { out.new ≡ ended_line (step_text_of step.now) }
{
    step_text(step, out);
    out.put(b"\n");
}

// Writes to `out` the line of a label and a number in decimal.
fn put_line(label: &[u8], number: u64, out: &mut Line)
    requires { length label.now ≤ 20 }
    ensures { out.new ≡ ended_line (label.now ++ decimal number) }
{
    out.clear();
    out.put_labelled(label, number);
    out.put(b"\n");
}
