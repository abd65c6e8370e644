//! Messages, long messages and their parts, lists of both, positions of bit errors, and how they are displayed: each
//! call once.

use super::{Flips, LongList, LongMessage, Message, MessageList, MessageOf, StepKind, Way};
use std::alloc::Global;
use std::fmt::Debug;
use std::test::Fail;

#[test]
fn the_example_of_the_head(rt: HostRuntime) -> Result<(), Fail> {
    let mut sent = MessageList::new(rt.alloc());
    sent.reserve(1)?;
    sent.push(&Message::new(b"ab").ok_or("two octets")?);
    assert_eq!(rt; sent.get(0), b"ab".as_slice());
    Ok(())
}

// The number of octets of the message of some octets, if they are a message.
fn size(octets: &[u8]) -> Option<usize> {
    Some(Message::new(octets)?.octets().len())
}

#[test]
fn messages_of_an_array(rt: HostRuntime) {
    // Rows: the number of octets taken of three, and the message.
    for (count, octets) in [(0, b"".as_slice()), (2, b"ab"), (3, b"abc"), (4, b"abc")] {
        let message = MessageOf::<3>::beginning_of(*b"abc", count);
        assert!(rt; message.octets() == octets);
    }
}

#[test]
fn longest_message(rt: HostRuntime) {
    let octets = [7; 2029];
    assert!(rt; size(&octets).is_none());
    assert!(rt; size(&octets[1..]) == Some(2028) && size(&[]) == Some(0));
}

// 4,001 octets, of which no two neighbors are the same.
fn octets() -> [u8; 4001] {
    let mut octets = [0; 4001];
    for i in 0..4001 {
        octets[i] = (i % 251) as u8;
    }
    octets
}

// Whether octets are a long message of this number of parts, the first and the last with the right marks, and the last
// part has this number of octets with its mark, which are the last ones of the message.
fn has_parts(octets: &[u8], parts: u8, size: usize) -> bool {
    let Some(message) = LongMessage::new(octets) else {
        return false;
    };
    let first = message.part(0);
    let last = message.part(message.parts() - 1);
    let begin = (octets.len() + 1).saturating_sub(size);
    message.parts() == parts
        && first.octets().first().copied() == Some(if parts == 1 { 0x80 } else { 0 })
        && last.octets().first().copied() == Some((parts - 1).saturating_add(0x80))
        && last.octets().len() == size
        && last.octets().get(1..) == octets.get(begin..)
}

#[test]
fn parts_of_a_long_message(rt: HostRuntime) {
    let octets = octets();
    let rows = [
        (0, 1, 1),
        (1, 1, 2),
        (500, 1, 501),
        (501, 2, 2),
        (3500, 7, 501),
        (4000, 8, 501),
    ];
    for (count, parts, size) in rows {
        assert!(rt; has_parts(&octets[..count], parts, size));
    }
    assert!(rt; LongMessage::new(&octets).is_none());
}

// Whether octets are a long message, whose copy has the same octets and is equal to it.
fn is_copied(octets: &[u8]) -> bool {
    let Some(message) = LongMessage::new(octets) else {
        return false;
    };
    match message.clone() {
        Ok(copy) => copy.octets() == octets && copy == message,
        Err(_) => false,
    }
}

#[test]
fn copy_of_a_message(rt: HostRuntime) {
    assert!(rt; is_copied(b"ab"));
}

// Appends three messages to a list, and returns whether there is capacity for them, and the list is not empty after the
// first.
fn are_put(list: &mut MessageList) -> bool {
    let Some(first) = Message::new(b"ab") else {
        return false;
    };
    let Some(second) = Message::new(b"") else {
        return false;
    };
    let Some(third) = Message::new(b"c") else {
        return false;
    };
    if list.reserve(3).is_err() {
        return false;
    }
    list.push(&first);
    let has_one = !list.is_empty();
    list.push(&second);
    list.push(&third);
    has_one
}

// Whether a list has these messages.
fn are_there(list: &MessageList) -> bool {
    list.len() == 3
        && list.get(0) == b"ab".as_slice()
        && list.get(1) == b"".as_slice()
        && list.get(2) == b"c".as_slice()
}

#[test]
fn messages_of_a_list(rt: HostRuntime) {
    let mut list = MessageList::new(rt.alloc());
    assert!(rt; list.is_empty() && are_put(&mut list) && are_there(&list));
    assert!(rt; list.reserve(16).is_ok() && list.len() == 3);
}

// Appends two long messages to a list, and returns whether they are in it.
fn are_listed(list: &mut LongList, first: &[u8], second: &[u8]) -> bool {
    let Some(one) = LongMessage::new(first) else {
        return false;
    };
    let Some(two) = LongMessage::new(second) else {
        return false;
    };
    if list.reserve(16).is_err() {
        return false;
    }
    list.push(&one);
    list.push(&two);
    list.len() == 2 && list.get(0) == first && list.get(1) == second
}

#[test]
fn long_messages_of_a_list(rt: HostRuntime) {
    let octets = octets();
    assert!(rt; are_listed(&mut LongList::new(rt.alloc()), b"", &octets[1..]));
}

// The positions of some bit errors, 3 the first of them.
fn places(more: Option<u16>) -> Flips {
    let mut flips = Flips::new();
    flips.push(3);
    if let Some(place) = more {
        if place > 3 && place < 25_920 {
            flips.push(place);
        }
    }
    flips
}

#[test]
fn places_of_wrong_bits(rt: HostRuntime) {
    let flips = places(Some(25_919));
    assert!(rt; flips.len() == 2 && flips.get(1) == 25_919);
    assert!(rt; flips.as_slice() == [3, 25_919].as_slice());
    assert!(rt; Flips::new().is_empty() && !flips.is_empty());
}

// Whether a value is displayed as this text.
fn is_shown<T: Debug>(alloc: Global, value: &T, text: &str) -> bool {
    match format!(in alloc; "{value:?}") {
        Ok(shown) => shown.as_str() == text,
        Err(_) => false,
    }
}

#[test]
fn values_are_shown(rt: HostRuntime) -> Result<(), Fail> {
    let message = Message::new(b"ab").ok_or("two octets")?;
    assert!(rt; is_shown(rt.alloc(), &message, "MessageOf { items: [97, 98] }"));
    assert!(rt;
        is_shown(
            rt.alloc(),
            &places(Some(4)),
            "Flips { places: BoundedList { items: [3, 4] } }"
        )
    );
    let kinds = [
        (StepKind::Busy, "Busy"),
        (
            StepKind::Taken {
                number: 1,
                blocks: 2,
            },
            "Taken { number: 1, blocks: 2 }",
        ),
        (
            StepKind::Resent {
                number: 1,
                tries: 2,
            },
            "Resent { number: 1, tries: 2 }",
        ),
        (StepKind::Again { number: 1 }, "Again { number: 1 }"),
        (
            StepKind::Nothing { way: Way::Packets },
            "Nothing { way: Packets }",
        ),
    ];
    for (kind, text) in &kinds {
        assert!(rt; is_shown(rt.alloc(), kind, text));
    }
    Ok(())
}
