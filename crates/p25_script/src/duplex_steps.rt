//! The texts of the steps of stations that both send.

ghost use Rattle.std.specs.Prelude.{◌≡◌, ◌≤◌, length};
ghost use Rattle.p25_script.specs.StepTexts.{duplex_step_text_of};

use super::shown::ScriptStep;
use super::steps::put_step_text;
use p25_duplex::DuplexStep;
use p25_line::Line;

/// Writes to `out` the text of a step, without the end of its line. It has the letter of the side that acts or
/// receives, a space, and the text of the step's type. It has at most 4,208 octets.
#[tactic(auto, unfolding(crate::specs::StepTexts::duplex_step_text_of))]
pub fn duplex_step_text(step: &DuplexStep, out: &mut Line)
    ensures text { out.new ≡ duplex_step_text_of step.now }
    ensures short { length out.new ≤ 4208 }
{
    out.clear();
    out.put(step.side.word());
    out.put(b" ");
    put_step_text(&step.step, out);
}

impl ScriptStep for DuplexStep {
    ghost shown = { duplex_step_text_of };

    fn put_text(&self, out: &mut Line, behind: &mut Line) {
        duplex_step_text(self, out);
        behind.clear();
    }
}
