//! Each result of a joiner, and a world of long messages, step by step.

use super::{Joined, Joiner, LongEvent, LongMessage, LongStep, LongWorld, Then};
use p25_messages::{Flips, Message};
use p25_stations::Event;
use std::test::Fail;

#[test]
fn the_example_of_the_head(rt: HostRuntime) -> Result<(), Fail> {
    let mut world = LongWorld::new(rt.alloc());
    let _ = world.step(&LongEvent::Long(LongMessage::new(b"ab").ok_or("two octets")?))?;
    assert_eq!(rt; world.taken().len(), 1);
    Ok(())
}

// An event of a joiner: a part, by its first octet and the number of octets after it, or one of no octets; or a reset.
#[derive(Clone, Copy)]
enum Act {
    Part(u8, usize),
    Empty,
    Reset,
}

// The result of a part for a joiner: a letter, with the number of a part or the length of a whole message.
fn taken(joiner: &mut Joiner, octets: &[u8]) -> (char, usize) {
    let Some(part) = Message::new(octets) else {
        return ('?', 0);
    };
    match joiner.take(&part) {
        Joined::Whole(message) => ('w', message.octets().len()),
        Joined::Part { number } => ('p', number as usize),
        Joined::Refused => ('r', 0),
    }
}

fn done(joiner: &mut Joiner, act: Act) -> (char, usize) {
    match act {
        Act::Part(mark, behind) => {
            let mut octets = [7; 600];
            octets[0] = mark;
            taken(joiner, &octets[..behind.min(599) + 1])
        }
        Act::Empty => taken(joiner, b""),
        Act::Reset => {
            joiner.reset();
            ('-', 0)
        }
    }
}

// Refused parts; then at most eight parts, in their order; then a joiner that is reset.
const JOINED: [(Act, (char, usize)); 32] = [
    (Act::Empty, ('r', 0)),
    (Act::Part(1, 500), ('r', 0)),
    (Act::Part(0, 499), ('r', 0)),
    (Act::Part(0, 501), ('r', 0)),
    (Act::Part(0x80, 501), ('r', 0)),
    (Act::Part(0, 500), ('p', 0)),
    (Act::Part(0, 500), ('r', 0)),
    (Act::Part(0, 500), ('p', 0)),
    (Act::Part(0x81, 0), ('r', 0)),
    (Act::Part(0x81, 1), ('r', 0)),
    (Act::Part(0, 500), ('p', 0)),
    (Act::Part(0x81, 1), ('w', 501)),
    (Act::Part(0x80, 0), ('w', 0)),
    (Act::Reset, ('-', 0)),
    (Act::Part(0, 500), ('p', 0)),
    (Act::Part(1, 500), ('p', 1)),
    (Act::Part(2, 500), ('p', 2)),
    (Act::Part(3, 500), ('p', 3)),
    (Act::Part(4, 500), ('p', 4)),
    (Act::Part(5, 500), ('p', 5)),
    (Act::Part(6, 500), ('p', 6)),
    (Act::Part(7, 500), ('r', 0)),
    (Act::Part(0x87, 500), ('r', 0)),
    (Act::Part(0x80, 500), ('w', 500)),
    (Act::Reset, ('-', 0)),
    (Act::Part(0, 500), ('p', 0)),
    (Act::Part(1, 500), ('p', 1)),
    (Act::Reset, ('-', 0)),
    (Act::Part(2, 500), ('r', 0)),
    (Act::Part(0, 500), ('p', 0)),
    (Act::Part(0x81, 2), ('w', 502)),
    (Act::Part(0x80, 0), ('w', 0)),
];

#[test]
fn answers_of_a_joiner(rt: HostRuntime) {
    let mut joiner = Joiner::new();
    for (act, expected) in &JOINED {
        assert!(rt; done(&mut joiner, *act) == *expected);
    }
}

// The meaning of a step for the long messages: a letter, with the number of parts or of a part, or the length of a
// whole message.
fn meaning(step: &LongStep) -> (char, usize) {
    match &step.then {
        Then::Plain => ('-', 0),
        Then::Started { parts } => ('s', usize::from(*parts)),
        Then::Busy => ('b', 0),
        Then::Down => ('d', 0),
        Then::Part { number } => ('p', usize::from(*number)),
        Then::Whole(message) => ('w', message.octets().len()),
        Then::Refused => ('r', 0),
        Then::Next(_) => ('n', 0),
        Then::Finished => ('f', 0),
    }
}

// An event of a world: a long message of a number of octets is offered, a delivery of data or of a response, a number
// of timeouts, or the session is reopened.
#[derive(Clone, Copy)]
enum Happening {
    Long(usize),
    Data,
    Answer,
    Timeouts(u32),
    Reopen,
}

// The event of a happening.
fn event_of(happening: Happening) -> Option<LongEvent> {
    Some(match happening {
        Happening::Long(count) => LongEvent::Long(LongMessage::new(
            &[7; 4_000][..count.min(4_000)],
        )?),
        Happening::Data => LongEvent::Inner(Event::ToReceiver(Flips::new())),
        Happening::Answer => LongEvent::Inner(Event::ToSender(Flips::new())),
        Happening::Timeouts(_) => LongEvent::Inner(Event::Timeout),
        Happening::Reopen => LongEvent::Inner(Event::Reopen),
    })
}

// Makes an event happen in a world, and returns the meaning of its last step, and whether the stations made a step.
fn happened(world: &mut LongWorld, happening: Happening) -> Option<((char, usize), bool)> {
    let event = event_of(happening)?;
    let times = if let Happening::Timeouts(count) = happening {
        count
    } else {
        1
    };
    let mut told = None;
    for _time in 0..times {
        let step = world.step(&event).ok()?;
        told = Some((meaning(&step), step.first.is_some()));
    }
    told
}

// A message in two parts; one of no octets, and one that is offered meanwhile; one that is given up in its second part,
// and one in another session.
const HAPPENINGS: [(Happening, (char, usize), bool); 22] = [
    (Happening::Data, ('-', 0), true),
    (Happening::Long(501), ('s', 2), true),
    (Happening::Data, ('p', 0), true),
    (Happening::Answer, ('n', 0), true),
    (Happening::Data, ('w', 501), true),
    (Happening::Data, ('-', 0), true),
    (Happening::Answer, ('f', 0), true),
    (Happening::Long(0), ('s', 1), true),
    (Happening::Long(1), ('b', 0), false),
    (Happening::Data, ('w', 0), true),
    (Happening::Answer, ('f', 0), true),
    (Happening::Long(1_000), ('s', 2), true),
    (Happening::Data, ('p', 0), true),
    (Happening::Answer, ('n', 0), true),
    (Happening::Timeouts(16), ('-', 0), true),
    (Happening::Long(1), ('d', 0), false),
    (Happening::Reopen, ('-', 0), true),
    (Happening::Data, ('-', 0), true),
    (Happening::Answer, ('-', 0), true),
    (Happening::Long(2), ('s', 1), true),
    (Happening::Data, ('w', 2), true),
    (Happening::Answer, ('f', 0), true),
];

#[test]
fn steps_of_a_world(rt: HostRuntime) {
    let mut world = LongWorld::new(rt.alloc());
    for (happening, meaning, is_step) in &HAPPENINGS {
        assert!(rt; happened(&mut world, *happening) == Some((*meaning, *is_step)));
    }
    assert!(rt; world.taken().len() == 4 && world.whole().len() == 3);
    assert!(rt; world.acknowledged() == 3 && world.inner().sessions() == 2);
}

#[test]
fn events_and_steps_are_shown(rt: HostRuntime) -> Result<(), Fail> {
    let long = LongEvent::Long(LongMessage::new(b"a").ok_or("an octet")?);
    let text = "Long(MessageOf { items: [97] })";
    assert_eq!(rt; format!(in rt.alloc(); "{long:?}")?.as_str(), text);
    let step = LongStep {
        first: None,
        then: Then::Part { number: 1 },
    };
    let text = "LongStep { first: None, then: Part { number: 1 } }";
    assert_eq!(rt; format!(in rt.alloc(); "{step:?}")?.as_str(), text);
    Ok(())
}
