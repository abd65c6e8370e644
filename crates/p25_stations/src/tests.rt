//! The reception of a packet on the channel, and a world step by step.

use super::{
    Carried, Event, Flips, Message, MessageList, Newest, Offer, Sender, Step, StepKind, Way, World,
    carry, transmit,
};
use p25_bits::BitBuf;
use p25_packet_blocks::{Packet, is_whole};
use p25_status::Field;
use std::test::Fail;

#[test]
fn the_example_of_the_head(rt: HostRuntime) -> Result<(), Fail> {
    let mut world = World::new(rt.alloc());
    let _ = world.step(&Event::Send(Message::new(b"ab").ok_or("two octets")?))?;
    let _ = world.step(&Event::ToReceiver(Flips::new()))?;
    assert_eq!(rt; world.delivered().len(), 1);
    Ok(())
}

// The first four bits of a sync, and the first five.
fn first_four() -> Flips {
    let mut flips = Flips::new();
    flips.push(0);
    flips.push(1);
    flips.push(2);
    flips.push(3);
    flips
}

fn first_five() -> Flips {
    let mut flips = Flips::new();
    flips.push(0);
    flips.push(1);
    flips.push(2);
    flips.push(3);
    flips.push(4);
    flips
}

// Positions after the end of a transmission of one block.
fn behind_the_end() -> Flips {
    let mut flips = Flips::new();
    flips.push(576);
    flips.push(25_919);
    flips
}

// The packet (PDU) of the message 61 62 hex.
fn offered() -> Option<Packet> {
    match Sender::new().offer(&Message::new(b"ab")?) {
        Offer::Taken { packet, .. } => Some(packet),
        Offer::Busy | Offer::Down => None,
    }
}

// Its reception with these bits wrong: a letter for lost, foreign, received, or received as another packet.
fn come_of(flips: &Flips) -> Option<char> {
    let packet = offered()?;
    if !is_whole(&packet) {
        return None;
    }
    Some(match carry(&packet, flips) {
        Carried::Lost(Field::Sync) => 'l',
        Carried::Lost(_) => '?',
        Carried::Foreign => 'f',
        Carried::Heard {
            false_pass: true,
            ..
        } => 'p',
        Carried::Heard { .. } => 'h',
    })
}

#[test]
fn what_comes_of_a_packet(rt: HostRuntime) {
    assert!(rt; come_of(&Flips::new()) == Some('h'));
    assert!(rt; come_of(&first_four()) == Some('h'));
    assert!(rt; come_of(&first_five()) == Some('l'));
    assert!(rt; come_of(&behind_the_end()) == Some('h'));
}

// The network access code (NAC), the status symbols and the length of the transmission of a packet.
fn front() -> Option<(u64, u64, u64, usize)> {
    let packet = offered()?;
    if !is_whole(&packet) {
        return None;
    }
    let mut out = BitBuf::new();
    transmit(&packet, &mut out);
    if out.len() < 144 {
        return None;
    }
    Some((
        out.field(48, 12),
        out.field(70, 2),
        out.field(142, 2),
        out.len(),
    ))
}

#[test]
fn a_transmission(rt: HostRuntime) {
    assert!(rt; front() == Some((0x293, 0, 0, 576)));
}

// Whether the newest transmission is the last that was kept, and a call that transmits nothing leaves it.
fn is_newest() -> Option<bool> {
    let mut newest = Newest::new();
    let none = newest.deliver(Way::Packets, &Flips::new()).err();
    let packet = offered()?;
    if !is_whole(&packet) {
        return None;
    }
    // A transmitted packet is sendable.
    transmit(&packet, &mut BitBuf::new());
    let kind = newest.keep((StepKind::Busy, Some(packet)));
    let _ = newest.keep((StepKind::Idle, None));
    let heard = newest.deliver(Way::Packets, &Flips::new()).ok()?;
    let is_none = none == Some(StepKind::Nothing { way: Way::Packets });
    Some(is_none && kind == StepKind::Busy && heard.0 == offered()? && !heard.1)
}

#[test]
fn the_newest_transmission(rt: HostRuntime) {
    assert!(rt; is_newest() == Some(true));
}

// Whether a list has one message, of these octets.
fn is_only(list: &MessageList, octets: &[u8]) -> bool {
    list.len() == 1 && list.get(0) == octets
}

// Whether a world makes this step for an event, which is no false pass.
fn steps_to(world: &mut World, event: &Event, kind: StepKind) -> bool {
    match world.step(event) {
        Ok(step) => step == Step::quiet(kind),
        Err(_) => false,
    }
}

// Whether the steps of a world report a message that is sent, lost, transmitted again, delivered and acknowledged.
fn is_told(world: &mut World) -> Option<bool> {
    let taken = StepKind::Taken {
        number: 0,
        blocks: 1,
    };
    let is_sent = steps_to(world, &Event::Send(Message::new(b"ab")?), taken);
    let lost = StepKind::Lost {
        way: Way::Packets,
        field: Field::Sync,
    };
    let is_lost = steps_to(world, &Event::ToReceiver(first_five()), lost);
    let resent = StepKind::Resent {
        number: 0,
        tries: 2,
    };
    let is_resent = steps_to(world, &Event::Timeout, resent);
    let delivered = StepKind::Delivered {
        number: 0,
        message: Message::new(b"ab")?,
    };
    let is_delivered = steps_to(world, &Event::ToReceiver(first_four()), delivered);
    let acknowledged = StepKind::Acknowledged { number: 0 };
    let is_acknowledged = steps_to(world, &Event::ToSender(Flips::new()), acknowledged);
    let are_steps = is_sent && is_lost && is_resent && is_delivered && is_acknowledged;
    Some(are_steps && steps_to(world, &Event::Reopen, StepKind::Up))
}

#[test]
fn steps_and_lists_of_a_world(rt: HostRuntime) {
    let mut world = World::new(rt.alloc());
    assert!(rt; is_told(&mut world) == Some(true));
    assert!(rt; is_only(world.sent(), b"ab") && is_only(world.delivered(), b"ab"));
    assert!(rt; world.acknowledged() == 1 && world.false_passes() == 0 && world.sessions() == 1);
}

#[test]
fn false_passes_are_counted_up_to_the_last_number(rt: HostRuntime) {
    let passed = Step {
        kind: StepKind::Idle,
        false_pass: true,
    };
    assert!(rt; passed.counted(1) == 2 && passed.counted(u64::MAX) == u64::MAX);
    assert!(rt; Step::quiet(StepKind::Idle).counted(1) == 1);
}

#[test]
fn events_and_steps_are_shown(rt: HostRuntime) -> Result<(), Fail> {
    let event = Event::ToReceiver(behind_the_end());
    let text = "ToReceiver(Flips { places: BoundedList { items: [576, 25919] } })";
    assert_eq!(rt; format!(in rt.alloc(); "{event:?}")?.as_str(), text);
    let step = Step::quiet(StepKind::Idle);
    let text = "Step { kind: Idle, false_pass: false }";
    assert_eq!(rt; format!(in rt.alloc(); "{step:?}")?.as_str(), text);
    Ok(())
}
