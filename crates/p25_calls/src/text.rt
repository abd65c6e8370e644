//! The texts of calls.

ghost use Rattle.std.specs.Prelude.{◌≡◌, ◌<◌, ◌≤◌, length};
ghost use Rattle.p25_calls.specs.CallTexts.{call_text_of};

use super::call::{Call, CallEnd};
use p25_line::Line;

/// Writes to `out` the text of a call, without the end of its line. Its values are, in this order:
///
/// - its position and its length in decimal
/// - the three digits of its network access code (NAC)
/// - how it was entered and how it ends
/// - the numbers of its link data units (LDU1 or LDU2) and of its broken data units in decimal
/// - the 18 digits of its link control (LC), and the two of its algorithm
#[tactic(auto, unfolding(crate::specs::CallTexts::call_text_of))]
pub fn call_text(call: &Call, out: &mut Line)
    requires { call.now.nac < 4096 }
    ensures text { out.new ≡ call_text_of call.now }
    ensures short { length out.new ≤ 400 }
{
    out.clear();
    out.put_labelled(b"call at=", call.place);
    out.put_labelled(b" bits=", call.bits);
    out.put(b" nac=");
    out.put_three_digits(call.nac);
    out.put(b" entry=");
    if call.late {
        out.put(b"late");
    } else {
        out.put(b"header");
    }
    out.put(b" end=");
    match call.end {
        CallEnd::Tdu => out.put(b"tdu"),
        CallEnd::Tdulc => out.put(b"tdulc"),
        CallEnd::Open => out.put(b"open"),
    }
    out.put_labelled(b" links=", u64::from(call.links));
    out.put_labelled(b" broken=", u64::from(call.broken));
    out.put(b" lc=");
    match &call.link {
        Some(link) => out.put_hex(&link.0),
        None => out.put(b"none"),
    }
    out.put(b" alg=");
    match call.algid {
        Some(algid) => out.put_hex(&[algid]),
        None => out.put(b"none"),
    }
}
