//! Talks by link control words written by hand.

use super::{Talk, read_talk};
use p25_link::LinkControl;
use p25_stream::Item;
use p25_units::{Body, Frame, Statuses, Unit, VoiceUnit};
use p25_voice_units::{Voice, VoiceFrame};
use std::alloc::Global;

// The item of an LDU1 with this link control (LC).
fn item_of(link: LinkControl) -> Item {
    let unit = VoiceUnit::Link1 {
        link,
        low: [0; 2],
        voice: Voice::new([VoiceFrame([0; 18]); 9]),
    };
    Item::Whole {
        place: 0,
        frame: Frame {
            unit: Unit::new(0x293, Body::Voice(unit)),
            statuses: Statuses::new(),
        },
        fixes: 0,
    }
}

// The printed text of an item: nothing, or a text.
fn is_printed(alloc: Global, item: &Item, text: Option<&str>) -> bool {
    match (read_talk(item), text) {
        (None, None) => true,
        (Some(talk), Some(text)) => match talk.to_string(alloc) {
            Ok(shown) => shown.as_str() == text,
            Err(_) => false,
        },
        _ => false,
    }
}

// Link control words, and the printed text of an LDU1 with each: calls to groups, to a radio, and of another type.
const ROWS: [([u8; 9], Option<&str>); 5] = [
    (
        [0, 0, 0, 0, 0, 100, 0, 0x10, 1],
        Some("group 100 radio 4097"),
    ),
    (
        [0, 0, 0x80, 0, 0x12, 0x34, 0x56, 0x78, 0x9A],
        Some("group 4660 radio 5666970"),
    ),
    ([0; 9], Some("group 0 radio 0")),
    ([3, 0, 0, 0, 0, 100, 0, 0x10, 1], None),
    ([0x44, 0, 0, 0, 0, 100, 0, 0x10, 1], None),
];

#[test]
fn talks_of_link_control(rt: HostRuntime) {
    for (octets, text) in &ROWS {
        assert!(rt; is_printed(rt.alloc(), &item_of(LinkControl(*octets)), *text));
    }
}

#[test]
fn other_items(rt: HostRuntime) {
    let gap = Item::Gap {
        place: 0,
        length: 8,
    };
    assert!(rt; read_talk(&gap).is_none());
    let talk = Talk { group: 1, radio: 2 };
    assert!(rt; talk != Talk { group: 2, radio: 1 });
}
