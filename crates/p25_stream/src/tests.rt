//! Each call once.

mod units;

ghost use Rattle.p25_units.specs.Units.{IsWholeBody};

use super::laws::item_laws;
use super::{Item, Scanner, bridge_item, repair_item, repair_item_in};
use p25_bits::BitBuf;
use p25_units::{Body, Frame, Status, Statuses, Unit, VoiceUnit, frame_length};

// Whether an item is a gap of this number of bits at a position.
fn is_gap(item: &Item, at: u64, long: u32) -> bool {
    matches!(item, Item::Gap { place, length } if *place == at && *length == long)
}

// Whether an octet without a sync is held until the end, and is a gap then.
fn one_octet_is_a_gap() -> bool {
    let mut scanner = Scanner::new();
    let mut raw = BitBuf::new();
    if scanner.is_drained() {
        scanner.push(0x55);
    }
    if scanner.held() != 8 || scanner.next(&mut raw).is_some() {
        return false;
    }
    scanner.finish();
    scanner
        .next(&mut raw)
        .is_some_and(|item| is_gap(&item, 0, 8))
        && raw.len() == 8
        && scanner.held() == 0
}

#[test]
fn one_octet(rt: HostRuntime) {
    item_laws();
    assert!(rt; one_octet_is_a_gap());
}

#[test]
#[tactic(auto, unfolding(crate::specs::Items::items_by, crate::specs::Items::items_in))]
fn items_as_they_come(rt: HostRuntime) {
    let mut scanner = Scanner::new();
    let mut raw = BitBuf::new();
    scanner.push(0x55);
    while scanner.next(&mut raw).is_some() {}
    scanner.finish();
    while scanner.next(&mut raw).is_some() {}
    assert_eq!(rt; (raw.len(), scanner.held()), (8, 0));
}

// Whether an octet without a sync is returned as a gap without its bits, once.
fn gap_comes_without_its_bits() -> bool {
    let mut scanner = Scanner::new();
    if scanner.is_drained() {
        scanner.push(0x55);
    }
    if scanner.next_item().is_some() {
        return false;
    }
    scanner.finish();
    let mut item = Item::Cut { place: 0, have: 0 };
    scanner.next_item_in(&mut item)
        && is_gap(&item, 0, 8)
        && scanner.held() == 0
        && !scanner.next_item_in(&mut item)
        && item.covered() == 8
}

#[test]
fn items_without_their_bits(rt: HostRuntime) {
    assert!(rt; gap_comes_without_its_bits());
}

// Whether eight of nine octets are taken at once, and then the ninth.
fn nine_octets_are_taken() -> bool {
    let mut scanner = Scanner::new();
    let octets = [0; 9];
    if !scanner.is_drained() {
        return false;
    }
    let taken = scanner.push_some(&octets);
    if taken != 8 || scanner.held() != 64 || !scanner.is_drained() {
        return false;
    }
    scanner.push_some(&octets[8..]) == 1 && scanner.held() == 72
}

#[test]
fn octets_as_many_as_there_are(rt: HostRuntime) {
    assert!(rt; nine_octets_are_taken());
}

// The body of a terminator (TDU), in which nothing fails.
#[tactic(auto, unfolding(p25_units::specs::Units::IsWholeBody))]
fn terminator() -> Body
    ensures { IsWholeBody result }
{
    Body::Voice(VoiceUnit::End)
}

// Whether a terminator (TDU) is encoded as it was transmitted, and under another code (NAC) with other status symbols.
fn terminator_is_sent_again(one: Status, three: Status) -> bool {
    let mut statuses = Statuses::new();
    statuses.push(one);
    statuses.push(one);
    let frame = Frame {
        unit: Unit::new(0, terminator()),
        statuses,
    };
    if frame_length(&frame.unit) != 72 * frame.statuses.len() {
        return false;
    }
    let item = Item::Whole {
        place: 0,
        frame,
        fixes: 3,
    };
    let (mut raw, mut room, mut out) = (BitBuf::new(), BitBuf::new(), BitBuf::new());
    repair_item_in(&item, &mut room, &mut raw);
    raw.len() == 144
        && bridge_item(&item, 0x293, three, &mut out)
        && out.len() == 144
        && out.field(48, 12) == 0x293
        && out.field(70, 2) == 3
        && out.field(142, 2) == 3
}

// Whether the bits of a truncated data unit are unchanged, and it is not encoded under another code.
fn cut_unit_is_left(status: Status) -> bool {
    let cut = Item::Cut { place: 7, have: 48 };
    let (mut raw, mut out) = (BitBuf::new(), BitBuf::new());
    raw.put_field(5, 3);
    repair_item(&cut, &mut raw);
    raw.len() == 3 && !bridge_item(&cut, 0x293, status, &mut out)
}

#[test]
fn a_terminator_sent_again(rt: HostRuntime) {
    match (Status::new(1), Status::new(3)) {
        (Some(one), Some(three)) => {
            assert!(rt; terminator_is_sent_again(one, three));
            assert!(rt; cut_unit_is_left(three));
        }
        _ => assert!(rt; false),
    }
}
