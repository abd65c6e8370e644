//! A duplex world, step by step: the side of each event, and the lists of each side.

use super::{DuplexEvent, DuplexStep, DuplexWorld, Side};
use p25_messages::{Flips, Message, MessageList};
use p25_stations::{Step, StepKind};
use std::test::Fail;

#[test]
fn the_example_of_the_head(rt: HostRuntime) -> Result<(), Fail> {
    let mut world = DuplexWorld::new(rt.alloc());
    let _ = world.step(&DuplexEvent::Send(Side::A, Message::new(b"ab").ok_or("two octets")?))?;
    assert_eq!(rt; world.sent(Side::A).len(), 1);
    Ok(())
}

// An event of a side: a message of this one octet is offered, a number of timeouts, the session is reopened, or the
// newest transmission of the other side arrives.
#[derive(Clone, Copy)]
enum Happening {
    Send(u8),
    Timeouts(u32),
    Reopen,
    Deliver,
}

fn event_of(side: Side, happening: Happening) -> Option<DuplexEvent> {
    Some(match happening {
        Happening::Send(octet) => DuplexEvent::Send(side, Message::new(&[octet])?),
        Happening::Timeouts(_) => DuplexEvent::Timeout(side),
        Happening::Reopen => DuplexEvent::Reopen(side),
        Happening::Deliver => DuplexEvent::Deliver {
            to: side,
            flips: Flips::new(),
        },
    })
}

// Makes an event happen at a side, and returns its last step.
fn happened(world: &mut DuplexWorld, side: Side, happening: Happening) -> Option<DuplexStep> {
    let event = event_of(side, happening)?;
    let times = if let Happening::Timeouts(count) = happening {
        count
    } else {
        1
    };
    let mut last = None;
    for _time in 0..times {
        last = world.step(&event).ok();
    }
    last
}

// A step: a word, and a number if it has one.
fn told(kind: &StepKind) -> (&'static str, u8) {
    match kind {
        StepKind::Taken { number, .. } => ("taken", *number),
        StepKind::Resent { tries, .. } => ("resent", *tries),
        StepKind::Nothing { .. } => ("nothing", 0),
        StepKind::Delivered { message, .. } => {
            ("delivered", message.octets().first().copied().unwrap_or(0))
        }
        StepKind::Acknowledged { number } => ("acknowledged", *number),
        StepKind::Again { number } => ("again", *number),
        StepKind::SynHeard { number } => ("opened", *number),
        StepKind::LinkOpened { number } => ("open", *number),
        StepKind::Reopened { number } => ("opening", *number),
        StepKind::TimeoutDown => ("down", 0),
        StepKind::Idle => ("idle", 0),
        StepKind::Up => ("up", 0),
        _ => ("other", 0),
    }
}

// A message in each direction; the response of a is not delivered. Then a gives a message up, and opens its session
// again.
const HAPPENINGS: [(Side, Happening, &str, u8); 17] = [
    (Side::B, Happening::Deliver, "nothing", 0),
    (Side::B, Happening::Timeouts(1), "idle", 0),
    (Side::A, Happening::Reopen, "up", 0),
    (Side::A, Happening::Send(1), "taken", 0),
    (Side::B, Happening::Deliver, "delivered", 1),
    (Side::A, Happening::Deliver, "acknowledged", 0),
    (Side::B, Happening::Send(2), "taken", 0),
    (Side::A, Happening::Deliver, "delivered", 2),
    (Side::A, Happening::Send(3), "taken", 1),
    (Side::B, Happening::Deliver, "delivered", 3),
    (Side::B, Happening::Timeouts(1), "resent", 2),
    (Side::A, Happening::Deliver, "again", 0),
    (Side::B, Happening::Deliver, "acknowledged", 0),
    (Side::A, Happening::Timeouts(16), "down", 0),
    (Side::A, Happening::Reopen, "opening", 5),
    (Side::B, Happening::Deliver, "opened", 5),
    (Side::A, Happening::Deliver, "open", 5),
];

// Whether the event of a side is a step of that side, and this one.
fn is_told(world: &mut DuplexWorld, row: &(Side, Happening, &str, u8)) -> bool {
    match happened(world, row.0, row.1) {
        Some(DuplexStep { side, step }) => side == row.0 && told(&step.kind) == (row.2, row.3),
        None => false,
    }
}

// Whether a list has these messages, of an octet each.
fn are_there(list: &MessageList, octets: &[u8]) -> bool {
    for i in 0..list.len().min(octets.len()) {
        if list.get(i) != [octets[i]].as_slice() {
            return false;
        }
    }
    list.len() == octets.len()
}

#[test]
fn steps_and_lists_of_both_sides(rt: HostRuntime) {
    let mut world = DuplexWorld::new(rt.alloc());
    for row in &HAPPENINGS {
        assert!(rt; is_told(&mut world, row));
    }
    assert!(rt; are_there(world.sent(Side::A), &[1, 3]) && are_there(world.sent(Side::B), &[2]));
    assert!(rt; are_there(world.delivered(Side::A), &[1, 3]));
    assert!(rt; are_there(world.delivered(Side::B), &[2]));
    assert!(rt; world.acknowledged(Side::A) == 1 && world.acknowledged(Side::B) == 1);
    assert!(rt; world.sessions(Side::A) == 2 && world.sessions(Side::B) == 1);
    assert!(rt; world.false_passes() == 0);
}

#[test]
fn sides_and_words(rt: HostRuntime) {
    assert!(rt; Side::A.word() == b"a".as_slice() && Side::B.word() == b"b".as_slice());
    assert!(rt; Side::A.other() == Side::B && Side::B.other() == Side::A);
}

#[test]
fn events_and_steps_are_shown(rt: HostRuntime) -> Result<(), Fail> {
    let event = DuplexEvent::Timeout(Side::A);
    assert_eq!(rt; format!(in rt.alloc(); "{event:?}")?.as_str(), "Timeout(A)");
    let step = DuplexStep {
        side: Side::A,
        step: Step::quiet(StepKind::Idle),
    };
    let text = "DuplexStep { side: A, step: Step { kind: Idle, false_pass: false } }";
    assert_eq!(rt; format!(in rt.alloc(); "{step:?}")?.as_str(), text);
    Ok(())
}
