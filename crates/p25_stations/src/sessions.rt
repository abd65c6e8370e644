//! The text of the number of sessions.

ghost use Rattle.std.specs.Prelude.{◌≡◌, ◌+◌, ◌≤◌, ◌++◌, length};
ghost use Rattle.p25_stations.specs.SessionTexts.{sessions_text};

use p25_line::Line;

/// Appends ` sessions=` and the number of sessions in decimal, if there was more than one.
pub fn put_sessions(sessions: u64, out: &mut Line)
    requires { length out.old + 30 ≤ 8192 }
    ensures text { out.new ≡ out.old ++ sessions_text sessions }
    ensures short { length out.new ≤ length out.old + 30 }
{
    if sessions > 1 {
        out.put_labelled(b" sessions=", sessions);
    }
}
