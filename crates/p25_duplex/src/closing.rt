//! The text that closes a run for one side.

ghost use Rattle.std.specs.Prelude.{◌≡◌, ◌≤◌, length};
ghost use Rattle.p25_duplex.specs.ClosingTexts.{duplex_closing_of};

use crate::side::Side;
use crate::world::DuplexWorld;
use p25_line::Line;
use p25_stations::parts::put_sessions;

/// Writes to `out` the text that closes a run for one side, without the end of its line. It has the side's letter, and
/// the numbers of messages that it sent and of those that were delivered and acknowledged. The number of sessions
/// follows, if there was more than one.
#[tactic(auto, unfolding(crate::specs::ClosingTexts::duplex_closing_of))]
pub fn duplex_closing(world: &DuplexWorld, side: Side, out: &mut Line)
    ensures text { out.new ≡ duplex_closing_of side world.now.state }
    ensures short { length out.new ≤ 200 }
{
    out.clear();
    out.put(side.word());
    out.put_labelled(b" sent=", world.sent(side).len() as u64);
    out.put_labelled(b" delivered=", world.delivered(side).len() as u64);
    out.put_labelled(b" acknowledged=", world.acknowledged(side));
    put_sessions(world.sessions(side), out);
}
