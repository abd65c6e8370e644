//! Scripts with their results.

use super::is_text_of;
use crate::{Event, EventLine, StepText, World, closing_text, read_event, step_text};
use p25_line::{Line, LineFault};
use std::process::Abort;
use std::test::Fail;

#[test]
fn step_of_an_event(rt: HostRuntime) -> Result<(), Fail> {
    let mut world = World::new(rt.alloc());
    let event = read_event(b"send 6162")?;
    let step = world.step(&event)?;
    let mut line = Line::new();
    step_text(&step, &mut line);
    assert_eq!(rt; line.octets(), b"send taken ns=0 blocks=1".as_slice());
    Ok(())
}

// An event is parsed from its line, and a step is displayed.
#[test]
fn event_is_parsed_and_step_shown(rt: HostRuntime) -> Result<(), Fail> {
    let mut world = World::new(rt.alloc());
    let event = "deliver answer -".parse::<EventLine>()?;
    let step = world.step(&event.0)?;
    assert_eq!(rt;
        StepText(&step).to_string(rt.alloc())?.as_str(),
        "answer none"
    );
    assert_eq!(rt;
        "deliver data".parse::<EventLine>().err(),
        Some(LineFault::Key)
    );
    Ok(())
}

// Makes the event of a line happen, and returns whether the step has this text.
fn steps_to(world: &mut World, line: &[u8], text: &[u8]) -> bool {
    match read_event(line) {
        Ok(event) => happens(world, &event, text),
        Err(_) => false,
    }
}

// Makes an event happen, and returns whether the step has this text.
fn happens(world: &mut World, event: &Event, text: &[u8]) -> bool {
    match world.step(event) {
        Ok(step) => is_text_of(&step, text),
        Err(_) => false,
    }
}

// Makes the events of lines happen, each with the text of its step, and then the world has this closing text.
fn has_told(rt: &impl Abort, world: &mut World, rows: &[(&[u8], &[u8])], closing: &[u8]) {
    for (line, text) in rows {
        assert!(rt; steps_to(world, line, text));
    }
    let mut out = Line::new();
    closing_text(world, &mut out);
    assert_eq!(rt; out.octets(), closing);
}

const RETRY: [(&[u8], &[u8]); 8] = [
    (
        b"send \
          000000000000000000000000000000000000000000000000000000000000\
          000000000000000000000000000000000000000000000000000000000000",
        b"send taken ns=0 blocks=4",
    ),
    (
        b"deliver data 366,367,514,515,516,517,768,769,916,917,918,919",
        b"data kept ns=0 flags=5000000000000000",
    ),
    (b"deliver answer -", b"answer retry ns=0 blocks=0,2 try=2"),
    (
        b"deliver data -",
        b"data delivered ns=0 message=\
          000000000000000000000000000000000000000000000000000000000000\
          000000000000000000000000000000000000000000000000000000000000",
    ),
    (b"timeout", b"timeout sent ns=0 try=3"),
    (b"deliver data -", b"data again ack=0"),
    (b"deliver answer -", b"answer acknowledged ns=0"),
    (b"send -", b"send taken ns=1 blocks=1"),
];

#[test]
fn script_of_a_selective_retry(rt: HostRuntime) {
    let mut world = World::new(rt.alloc());
    let closing = b"sent=2 delivered=1 acknowledged=1 false=0";
    has_told(&rt, &mut world, &RETRY, closing);
}

const REOPENED: [(&[u8], &[u8]); 24] = [
    (b"reopen", b"reopen up"),
    (b"send -", b"send taken ns=0 blocks=1"),
    (b"timeout", b"timeout sent ns=0 try=2"),
    (b"timeout", b"timeout sent ns=0 try=3"),
    (b"timeout", b"timeout sent ns=0 try=4"),
    (b"timeout", b"timeout sent ns=0 try=5"),
    (b"timeout", b"timeout sent ns=0 try=6"),
    (b"timeout", b"timeout sent ns=0 try=7"),
    (b"timeout", b"timeout sent ns=0 try=8"),
    (b"timeout", b"timeout sent ns=0 try=9"),
    (b"timeout", b"timeout sent ns=0 try=10"),
    (b"timeout", b"timeout sent ns=0 try=11"),
    (b"timeout", b"timeout sent ns=0 try=12"),
    (b"timeout", b"timeout sent ns=0 try=13"),
    (b"timeout", b"timeout sent ns=0 try=14"),
    (b"timeout", b"timeout sent ns=0 try=15"),
    (b"timeout", b"timeout sent ns=0 try=16"),
    (b"timeout", b"timeout down"),
    (b"reopen", b"reopen sent ns=4"),
    (b"deliver data -", b"data opened ns=4"),
    (b"deliver answer -", b"answer opened ns=4"),
    (b"send 6162", b"send taken ns=5 blocks=1"),
    (b"deliver data -", b"data delivered ns=5 message=6162"),
    (b"deliver answer -", b"answer acknowledged ns=5"),
];

#[test]
fn script_of_a_link_that_is_opened_again(rt: HostRuntime) {
    let mut world = World::new(rt.alloc());
    let closing = b"sent=2 delivered=1 acknowledged=1 false=0 sessions=2";
    has_told(&rt, &mut world, &REOPENED, closing);
}
