//! Lines that are refused, and scripts with their results.

ghost use Rattle.std.specs.Prelude.{◌≤◌};

use super::refused;
use crate::{LongEventLine, StepText, long_closing_text, long_step_text, read_long_event};
use p25_fragments::{LongEvent, LongStep, LongWorld, Then};
use p25_line::{Line, LineFault};
use std::alloc::Global;
use std::test::Fail;

#[test]
fn step_of_a_long_event(rt: HostRuntime) -> Result<(), Fail> {
    let mut world = LongWorld::new(rt.alloc());
    let event = read_long_event(b"long 6162")?;
    let step = world.step(&event)?;
    let mut out = Line::new();
    let mut behind = Line::new();
    long_step_text(&step, &mut out, &mut behind);
    assert_eq!(rt; out.octets(), b"long taken parts=1\n".as_slice());
    Ok(())
}

// The step of a line that is parsed.
fn parsed_step(world: &mut LongWorld, line: &str) -> Option<LongStep> {
    match line.parse::<LongEventLine>() {
        Ok(event) => world.step(&event.0).ok(),
        Err(_) => None,
    }
}

// Whether a step is displayed as this text.
fn is_shown(alloc: Global, step: &LongStep, want: &str) -> bool {
    match StepText(step).to_string(alloc) {
        Ok(text) => text.as_str() == want,
        Err(_) => false,
    }
}

// Whether a line is parsed, and its step is displayed as this text.
fn is_parsed_and_shown(alloc: Global, line: &str, want: &str) -> bool {
    let mut world = LongWorld::new(alloc);
    match parsed_step(&mut world, line) {
        Some(step) => is_shown(alloc, &step, want),
        None => false,
    }
}

// An event is parsed from its line, and a step is displayed with both parts of its text.
#[test]
fn event_is_parsed_and_step_shown(rt: HostRuntime) {
    let text = "long taken parts=1\nsend taken ns=0 blocks=1\n";
    assert!(rt; is_parsed_and_shown(rt.alloc(), "long 6162", text));
}

// A line of a long message whose digits are all 0.
fn line_of_zeros<const N: usize>() -> [u8; N]
    requires { 5 ≤ N }
{
    let mut line = [b'0'; N];
    line[..5].copy_from_slice(b"long ");
    line
}

// Lines that are refused.
const REFUSED: [(&str, LineFault); 12] = [
    ("", LineFault::Form),
    ("long  61", LineFault::Form),
    ("send  61", LineFault::Form),
    ("send 61", LineFault::Kind),
    ("send", LineFault::Kind),
    ("longs 61", LineFault::Kind),
    ("long", LineFault::Key),
    ("long 6 1", LineFault::Key),
    ("timeout x", LineFault::Key),
    ("deliver voice -", LineFault::Key),
    ("long 616", LineFault::Value),
    ("long 6A", LineFault::Value),
];

#[test]
fn refused_lines(rt: HostRuntime) {
    refused::<LongEventLine>(&rt, &REFUSED);
    let longest = [b'a'; 8_193];
    assert_eq!(rt; read_long_event(&longest).err(), Some(LineFault::Long));
    let zeros = line_of_zeros::<8_007>();
    assert_eq!(rt; read_long_event(&zeros).err(), Some(LineFault::Value));
}

// Whether a line decodes to a long message of this number of octets.
fn has_octets(line: &[u8], count: usize) -> bool {
    match read_long_event(line) {
        Ok(LongEvent::Long(message)) => message.octets().len() == count,
        _ => false,
    }
}

#[test]
fn read_lines(rt: HostRuntime) {
    assert!(rt; has_octets(&line_of_zeros::<8_005>(), 4_000));
    assert!(rt; has_octets(b"long -", 0));
    assert!(rt; matches!(read_long_event(b"timeout"), Ok(LongEvent::Inner(_))));
}

// A line, and the two parts of the text of its step.
type Row = (&'static [u8], &'static [u8], &'static [u8]);

// The step of a line that is read.
fn step_of(world: &mut LongWorld, line: &[u8]) -> Option<LongStep> {
    match read_long_event(line) {
        Ok(event) => world.step(&event).ok(),
        Err(_) => None,
    }
}

// Whether a line is read, and its step has this text.
fn is_told(world: &mut LongWorld, row: &Row) -> bool {
    match step_of(world, row.0) {
        Some(step) => has_text(&step, row.1, row.2),
        None => false,
    }
}

// Whether a step has this text, in two parts.
fn has_text(step: &LongStep, first: &[u8], second: &[u8]) -> bool {
    let mut out = Line::new();
    let mut behind = Line::new();
    long_step_text(step, &mut out, &mut behind);
    out.octets() == first && behind.octets() == second
}

// Whether a run closes with this text.
fn closes_with(world: &LongWorld, closing: &[u8]) -> bool {
    let mut out = Line::new();
    long_closing_text(world, &mut out);
    out.octets() == closing
}

// Whether sixteen transmissions time out.
fn tries_time_out(world: &mut LongWorld) -> bool {
    for _tries in 0..16 {
        if step_of(world, b"timeout").is_none() {
            return false;
        }
    }
    true
}

const DOWN: [Row; 3] = [
    (b"long -", b"", b"long down\n"),
    (b"reopen", b"reopen sent ns=4\n", b""),
    (b"long 61", b"", b"long busy\n"),
];

// The long message is not acknowledged: after sixteen transmissions the sender is down, until it reopens.
#[test]
fn down_and_another_session(rt: HostRuntime) {
    let mut world = LongWorld::new(rt.alloc());
    let taken: Row = (
        b"long -",
        b"long taken parts=1\n",
        b"send taken ns=0 blocks=1\n",
    );
    assert!(rt; is_told(&mut world, &taken));
    assert!(rt; closes_with(&world, b"taken=1 whole=0 acknowledged=0 false=0"));
    assert!(rt; tries_time_out(&mut world));
    for row in &DOWN {
        assert!(rt; is_told(&mut world, row));
    }
    assert!(rt; closes_with(&world, b"taken=1 whole=0 acknowledged=0 false=0 sessions=2"));
}

#[test]
fn a_part_that_is_refused(rt: HostRuntime) {
    let step = LongStep {
        first: None,
        then: Then::Refused,
    };
    assert!(rt; has_text(&step, b"", b"part refused\n"));
}
