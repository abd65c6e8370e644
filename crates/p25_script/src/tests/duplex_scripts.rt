//! Lines that are read and refused, and steps with their texts.

use super::refused;
use crate::{DuplexEventLine, StepText, duplex_closing, duplex_step_text, read_duplex_event};
use p25_duplex::{DuplexEvent, DuplexStep, DuplexWorld, Side};
use p25_line::{Line, LineFault};
use std::alloc::Global;
use std::test::Fail;

#[test]
fn the_example_of_the_head(rt: HostRuntime) -> Result<(), Fail> {
    let mut world = DuplexWorld::new(rt.alloc());
    let event = read_duplex_event(b"a send 6162")?;
    let step = world.step(&event)?;
    let mut line = Line::new();
    duplex_step_text(&step, &mut line);
    assert_eq!(rt; line.octets(), b"a send taken ns=0 blocks=1".as_slice());
    Ok(())
}

// Lines that are refused.
const REFUSED: [(&str, LineFault); 16] = [
    ("", LineFault::Form),
    ("a  timeout", LineFault::Form),
    ("c timeout", LineFault::Kind),
    ("A timeout", LineFault::Kind),
    ("timeout", LineFault::Kind),
    ("a", LineFault::Key),
    ("a send", LineFault::Key),
    ("a send 61 62", LineFault::Key),
    ("a timeout x", LineFault::Key),
    ("b deliver ab -", LineFault::Key),
    ("deliver", LineFault::Key),
    ("deliver aa 3,3", LineFault::Key),
    ("deliver data -", LineFault::Key),
    ("deliver ab - -", LineFault::Key),
    ("a send 6", LineFault::Value),
    ("deliver ba 3,3", LineFault::Value),
];

#[test]
fn refused_lines(rt: HostRuntime) {
    refused::<DuplexEventLine>(&rt, &REFUSED);
    let longest = [b'a'; 8_193];
    assert_eq!(rt; read_duplex_event(&longest).err(), Some(LineFault::Long));
}

// The side of the event of a line, and the number of octets that it sends or of positions that it inverts.
fn told(line: &[u8]) -> Option<(Side, usize)> {
    match read_duplex_event(line) {
        Ok(DuplexEvent::Send(side, message)) => Some((side, message.octets().len())),
        Ok(DuplexEvent::Timeout(side)) => Some((side, 5_000)),
        Ok(DuplexEvent::Reopen(side)) => Some((side, 5_001)),
        Ok(DuplexEvent::Deliver { to, flips }) => Some((to, 6_000 + flips.len())),
        Err(_) => None,
    }
}

// Lines with the values of their events: 5,000 for a timeout, 5,001 for a reopening, and from 6,000 on a delivery.
const READ: [(&[u8], Side, usize); 7] = [
    (b"a send 6162", Side::A, 2),
    (b"b send -", Side::B, 0),
    (b"a timeout", Side::A, 5_000),
    (b"b timeout", Side::B, 5_000),
    (b"b reopen", Side::B, 5_001),
    (b"deliver ab 0,9,25919", Side::B, 6_003),
    (b"deliver ba -", Side::A, 6_000),
];

#[test]
fn read_lines(rt: HostRuntime) {
    for (line, side, count) in &READ {
        assert!(rt; told(line) == Some((*side, *count)));
    }
}

// The step of a line that is parsed.
fn parsed_step(world: &mut DuplexWorld, line: &str) -> Option<DuplexStep> {
    match line.parse::<DuplexEventLine>() {
        Ok(event) => world.step(&event.0).ok(),
        Err(_) => None,
    }
}

// Whether a line is parsed, and its step is displayed as this text.
fn is_shown(alloc: Global, world: &mut DuplexWorld, line: &str, want: &str) -> bool {
    match parsed_step(world, line) {
        Some(step) => match StepText(&step).to_string(alloc) {
            Ok(text) => text.as_str() == want,
            Err(_) => false,
        },
        None => false,
    }
}

// Lines, and the texts of their steps.
const SHOWN: [(&str, &str); 7] = [
    ("a send 6162", "a send taken ns=0 blocks=1"),
    ("deliver ab 0,1,2,3,4", "b data lost sync"),
    ("deliver ab -", "b data delivered ns=0 message=6162"),
    ("b send -", "b send taken ns=0 blocks=1"),
    ("b timeout", "b timeout sent ns=0 try=2"),
    ("deliver ba -", "a data delivered ns=0 message=-"),
    ("deliver ab -", "b answer acknowledged ns=0"),
];

// Whether the text that closes a run for a side is this.
fn closes_with(world: &DuplexWorld, side: Side, want: &[u8]) -> bool {
    let mut out = Line::new();
    duplex_closing(world, side, &mut out);
    out.octets() == want
}

#[test]
fn steps_are_shown_and_the_run_is_closed(rt: HostRuntime) {
    let mut world = DuplexWorld::new(rt.alloc());
    for (line, want) in &SHOWN {
        assert!(rt; is_shown(rt.alloc(), &mut world, line, want));
    }
    assert!(rt; closes_with(&world, Side::A, b"a sent=1 delivered=1 acknowledged=0"));
    assert!(rt; closes_with(&world, Side::B, b"b sent=1 delivered=1 acknowledged=1"));
    for _tries in 0..16 {
        let _ = parsed_step(&mut world, "a timeout");
    }
    assert!(rt; is_shown(rt.alloc(), &mut world, "a reopen", "a reopen sent ns=4"));
    let closing = b"a sent=1 delivered=1 acknowledged=0 sessions=2";
    assert!(rt; closes_with(&world, Side::A, closing));
    assert!(rt; closes_with(&world, Side::B, b"b sent=1 delivered=1 acknowledged=1"));
}
