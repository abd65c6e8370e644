//! The three steps of an exchange, and their words.

use super::{Told, exchange};
use p25_stations::{Message, StepKind, World};
use std::alloc::Global;

// Whether a step is displayed as this text.
fn is_shown(alloc: Global, kind: &StepKind, text: &str) -> bool {
    match Told(kind).to_string(alloc) {
        Ok(shown) => shown.as_str() == text,
        Err(_) => false,
    }
}

const TEXTS: [&str; 3] = [
    "sent: packet 0, blocks 1",
    "delivered: packet 0, octets 2",
    "acknowledged: packet 0",
];

// Whether the steps of a message with the bit at a position inverted have these texts.
fn are_shown(alloc: Global, place: u16, texts: &[&str; 3]) -> Option<bool> {
    let mut world = World::new(alloc);
    let steps = exchange(&mut world, Message::new(b"ab")?, place % 25_920).ok()?;
    let mut all = true;
    for i in 0..3 {
        all = all && is_shown(alloc, &steps[i].kind, texts[i]);
    }
    Some(all && world.delivered().len() == 1 && world.acknowledged() == 1)
}

#[test]
fn an_exchange(rt: HostRuntime) {
    for place in [0, 400, 25_919] {
        assert!(rt; are_shown(rt.alloc(), place, &TEXTS) == Some(true));
    }
}

#[test]
fn other_steps(rt: HostRuntime) {
    assert!(rt; is_shown(rt.alloc(), &StepKind::Idle, "something else"));
}
