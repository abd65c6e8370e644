//! The texts of steps.

ghost use Rattle.std.specs.Prelude.{◌≡◌, ◌+◌, ◌<◌, ◌≤◌, ◌++◌, [], ◌∷◌, length, if◌then◌else◌, codes, decimal};
ghost use Rattle.p25_messages.specs.declared.step_kind.StepKind.TheVariants.{Retry};
ghost use Rattle.p25_line.specs.{CommaLists.{comma_text}, Octets.{octets_text}};
ghost use Rattle.p25_script.specs.{StepTexts.{flags_text, kind_text, serials_of, step_text_of}, Script.{way_word}};

use super::names::word_of_way;
use super::shown::ScriptStep;
use p25_line::Line;
use p25_messages::Message;
use p25_packet_blocks::{Flags, flags_make};
use p25_stations::{Step, StepKind, Way};
use p25_status::put_field_name;

/// Writes to `out` the text of a step, without the end of its line. The texts of deliveries begin with `data` or
/// `answer`; that of a false pass ends with ` false`.
pub fn step_text(step: &Step, out: &mut Line)
    ensures text { out.new ≡ step_text_of step.now }
    ensures short { length out.new ≤ 4206 }
{
    out.clear();
    put_step_text(step, out);
}

impl ScriptStep for Step {
    ghost shown = { step_text_of };

    fn put_text(&self, out: &mut Line, behind: &mut Line) {
        step_text(self, out);
        behind.clear();
    }
}

// Appends the text of a step.
#[tactic(auto, unfolding(crate::specs::StepTexts::step_text_of))]
pub(crate) fn put_step_text(step: &Step, out: &mut Line)
    requires { length out.old + 4206 ≤ 8192 }
    ensures text { out.new ≡ out.old ++ step_text_of step.now }
    ensures short { length out.new ≤ length out.old + 4206 }
{
    put_kind(&step.kind, out);
    if step.false_pass {
        out.put(b" false");
    }
}

// Appends the text of a type of step.
#[tactic(auto, unfolding(crate::specs::StepTexts::kind_text))]
fn put_kind(kind: &StepKind, out: &mut Line)
    requires { length out.old + 4200 ≤ 8192 }
    ensures text { out.new ≡ out.old ++ kind_text kind.now }
    ensures short { length out.new ≤ length out.old + 4200 }
{
    match kind {
        StepKind::Taken { number, blocks } => {
            put_numbered(b"send taken ns=", *number, out);
            put_numbered(b" blocks=", *blocks, out);
        }
        StepKind::Busy => out.put(b"send busy"),
        StepKind::OfferDown => out.put(b"send down"),
        StepKind::Resent { number, tries } => put_sent(b"timeout sent ns=", *number, *tries, out),
        StepKind::Idle => out.put(b"timeout idle"),
        StepKind::TimeoutDown => out.put(b"timeout down"),
        StepKind::Reopened { number } => put_numbered(b"reopen sent ns=", *number, out),
        StepKind::Up => out.put(b"reopen up"),
        StepKind::Nothing { way } => put_way(*way, b" none", out),
        StepKind::Lost { way, field } => {
            put_way(*way, b" lost ", out);
            put_field_name(*field, out);
        }
        StepKind::Ignored { way } => put_way(*way, b" ignored", out),
        StepKind::Delivered { number, message } => put_delivered(*number, message, out),
        StepKind::SynHeard { number } => put_numbered(b"data opened ns=", *number, out),
        StepKind::Again { number } => put_numbered(b"data again ack=", *number, out),
        StepKind::Kept { number, flags } => put_kept(*number, flags, out),
        StepKind::RefusedCrc { number } => put_numbered(b"data refused crc ns=", *number, out),
        StepKind::RefusedOrder { last } => put_numbered(b"data refused order vr=", *last, out),
        StepKind::Acknowledged { number } => put_numbered(b"answer acknowledged ns=", *number, out),
        StepKind::LinkOpened { number } => put_numbered(b"answer opened ns=", *number, out),
        StepKind::Retry {
            number,
            wanted,
            tries,
        } => put_retry(*number, wanted, *tries, out),
        StepKind::Repeat { number, tries } => put_sent(b"answer repeat ns=", *number, *tries, out),
        StepKind::AnswerDown => out.put(b"answer down"),
    }
}

// Appends the word of a direction, and the text that follows it.
fn put_way(way: Way, rest: &[u8], out: &mut Line)
    requires { length out.old + 6 + length rest.now ≤ 8192 }
    ensures text { out.new ≡ out.old ++ way_word way ++ rest.now }
    ensures short { length out.new ≤ length out.old + 6 + length rest.now }
{
    out.put(word_of_way(way));
    out.put(rest);
}

// Appends a label and a number.
fn put_numbered(label: &[u8], number: u8, out: &mut Line)
    requires { length out.old + length label.now + 100 ≤ 8192 }
    ensures text { out.new ≡ out.old ++ (label.now ++ decimal number) }
    ensures short { length out.new ≤ length out.old + length label.now + 100 }
{
    out.put_labelled(label, u64::from(number));
}

// Appends a label, a number, and the number of transmissions.
fn put_sent(label: &[u8], number: u8, tries: u8, out: &mut Line)
    requires { length out.old + length label.now + 100 ≤ 8192 }
    ensures text { out.new ≡ out.old ++ label.now ++ decimal number ++ codes " try=" ++ decimal tries }
    ensures short { length out.new ≤ length out.old + length label.now + 100 }
{
    out.put_labelled(label, u64::from(number));
    out.put_labelled(b" try=", u64::from(tries));
}

// Appends the text of a delivered message.
fn put_delivered(number: u8, message: &Message, out: &mut Line)
    requires { length out.old + 4150 ≤ 8192 }
    ensures text { out.new ≡ out.old ++ codes "data delivered ns=" ++ decimal number ++ codes " message=" ++ octets_text message.now }
    ensures short { length out.new ≤ length out.old + 4150 }
{
    out.put_labelled(b"data delivered ns=", u64::from(number));
    out.put(b" message=");
    out.put_octets(message.octets());
}

// Appends the text of blocks that are kept.
fn put_kept(number: u8, flags: &Flags, out: &mut Line)
    requires { length out.old + 100 ≤ 8192 }
    ensures text { out.new ≡ out.old ++ codes "data kept ns=" ++ decimal number ++ codes " flags=" ++ flags_text flags.now }
    ensures short { length out.new ≤ length out.old + 100 }
{
    out.put_labelled(b"data kept ns=", u64::from(number));
    out.put(b" flags=");
    put_flags(flags, out);
}

// Appends the octets of flags, two digits each.
fn put_flags(flags: &Flags, out: &mut Line)
    requires { length out.old + 32 ≤ 8192 }
    ensures text { out.new ≡ out.old ++ flags_text flags.now }
    ensures short { length out.new ≤ length out.old + 32 }
{
    let octets = flags_make(flags);
    out.put_hex(&octets.octets()[..flags.len() / 8]);
}

// Appends the text of blocks that are transmitted again.
fn put_retry(number: u8, wanted: &Flags, tries: u8, out: &mut Line)
    requires { length out.old + 700 ≤ 8192 }
    ensures text { out.new ≡ out.old ++ kind_text (Retry number wanted.now tries) }
    ensures short { length out.new ≤ length out.old + 700 }
{
    out.put_labelled(b"answer retry ns=", u64::from(number));
    out.put(b" blocks=");
    put_serials(wanted, out);
    out.put_labelled(b" try=", u64::from(tries));
}

// Appends the serial numbers of the flags that are true, with commas between them.
fn put_serials(wanted: &Flags, out: &mut Line)
    requires { length out.old + 512 ≤ 8192 }
    ensures text { out.new ≡ out.old ++ comma_text decimal (serials_of wanted.now) }
    ensures short { length out.new ≤ length out.old + 512 }
{
    let mut behind = false;
    for serial in 0..wanted.len() {
        if wanted.get(serial) {
            put_serial(behind, serial, out);
            behind = true;
        }
    }
}

// Appends a serial number, with a comma before it if it follows another.
#[tactic(auto, using(p25_line::proofs::DecimalLaws::decimal_octet))]
fn put_serial(behind: bool, serial: usize, out: &mut Line)
    requires below { serial < 128 }
    requires room { length out.old + 4 ≤ 8192 }
    ensures text { out.new ≡ out.old ++ (if behind then 44 ∷ [] else []) ++ decimal serial }
    ensures short { length out.new ≤ length out.old + 4 }
{
    if behind {
        out.put(b",");
    }
    out.put_number(serial as u64);
}
