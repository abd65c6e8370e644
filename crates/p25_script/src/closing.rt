//! The texts that close a run.

ghost use Rattle.std.specs.Prelude.{◌≡◌, ◌≤◌, length};
ghost use Rattle.p25_script.specs.{LongTexts.{long_closing_text_of}, StepTexts.{closing_text_of}};

use p25_fragments::LongWorld;
use p25_line::Line;
use p25_stations::World;
use p25_stations::parts::put_sessions;

/// Writes to `out` the text that closes a run, without the end of its line. It has the numbers of messages sent,
/// delivered and acknowledged, and the number of deliveries that were false passes. The number of sessions follows, if
/// there was more than one.
#[tactic(auto, unfolding(crate::specs::StepTexts::closing_text_of))]
pub fn closing_text(world: &World, out: &mut Line)
    ensures text { out.new ≡ closing_text_of world.now.state }
    ensures short { length out.new ≤ 200 }
{
    out.clear();
    out.put_labelled(b"sent=", world.sent().len() as u64);
    out.put_labelled(b" delivered=", world.delivered().len() as u64);
    out.put_labelled(b" acknowledged=", world.acknowledged());
    out.put_labelled(b" false=", world.false_passes());
    put_sessions(world.sessions(), out);
}

/// Writes to `out` the text that closes a run of long messages, without the end of its line. It has the numbers of long
/// messages taken, whole and acknowledged, and the number of deliveries that were false passes. The number of sessions
/// follows, if there was more than one.
#[tactic(auto, unfolding(crate::specs::LongTexts::long_closing_text_of))]
pub fn long_closing_text(world: &LongWorld, out: &mut Line)
    ensures text { out.new ≡ long_closing_text_of world.now.state }
    ensures short { length out.new ≤ 200 }
{
    out.clear();
    out.put_labelled(b"taken=", world.taken().len() as u64);
    out.put_labelled(b" whole=", world.whole().len() as u64);
    out.put_labelled(b" acknowledged=", world.acknowledged());
    out.put_labelled(b" false=", world.inner().false_passes());
    put_sessions(world.inner().sessions(), out);
}
