//! Data units (HDU, LDU1, LDU2, TDU, TDULC and PDU) that a program apart from this code made: their needs at each
//! number of bits, their decoding, damaged and not, and their encoding to the same bits.

ghost use Rattle.p25_units.specs.{Items.{IsSoundItem}, Units.{IsSoundFrame}};

mod rows;

use self::rows::{LARGEST, NEEDS, READINGS};
use super::{
    Begun, Body, Field, Frame, Item, Need, Status, Statuses, Unit, VoiceUnit, fixes, frame_length,
    image, image_as, need, need_with, read_unit, unit_item,
};
use p25_bits::BitBuf;
use p25_status::weave;
use std::process::Abort;

#[tactic(auto, unfolding(crate::specs::Units::IsWholeBody, crate::specs::Units::frame_length_of, p25_voice_units::specs::Lengths::voice_length_of))]
#[test]
fn the_example_of_the_head(rt: HostRuntime) {
    let unit = Unit::new(0x293, Body::Voice(VoiceUnit::End));
    let statuses = Statuses::filled(Status::default(), 2);
    let frame = Frame { unit, statuses };
    let mut sent = BitBuf::new();
    image(&frame, &mut sent);
    assert_eq!(rt; need(&sent, 0), Need::Length(144));
}

// The first bits of some words, the last of which is repeated, with the status symbol 0 throughout.
fn sent(words: &[u64], len: usize) -> BitBuf {
    let mut bare = BitBuf::new();
    for place in 0..len {
        if bare.len() < 25_200 && words.len() > 0 {
            let word = words[(place / 64).min(words.len() - 1)];
            bare.push((word >> (63 - place % 64)) & 1 == 1);
        }
    }
    let statuses = Statuses::filled(Status::default(), (bare.len() / 70).min(360));
    let mut out = BitBuf::new();
    if 70 * statuses.len() == bare.len() {
        weave(&bare, &statuses, &mut out);
    }
    out
}

// Asserts the need at a number of bits of a data unit.
fn assert_needs(rt: &impl Abort, whole: &BitBuf, needs: &[(usize, Need)]) {
    for (have, needed) in needs {
        assert!(rt; *have <= whole.len());
        let mut bits = BitBuf::new();
        bits.append(whole, 0, *have);
        assert_eq!(rt; need(&bits, 0), *needed);
    }
}

#[test]
fn needs(rt: HostRuntime) {
    for (words, len, needs) in NEEDS {
        assert_needs(&rt, &sent(words, len), needs);
    }
}

// A data unit with some of its transmitted bits inverted.
fn damaged(words: &[u64], len: usize, places: &[usize]) -> BitBuf {
    let mut bits = sent(words, len);
    for place in places {
        if *place < bits.len() {
            bits.flip(*place);
        }
    }
    bits
}

// Asserts that an item is whole with a number of fixes, or that exactly these fields fail.
fn assert_item(rt: &impl Abort, item: &Item, wrong: u32, fields: &[Field]) {
    match item {
        Item::Whole { fixes, .. } => assert!(rt; *fixes == wrong && fields.len() == 0),
        Item::Broken {
            fields: failing,
            ..
        } => assert_eq!(rt; failing.as_slice(), fields),
        _ => assert!(rt; false),
    }
}

// The item of a complete data unit.
fn item_of(bits: &BitBuf) -> Item
    ensures { IsSoundItem result }
{
    let mut begun = Begun::new();
    match need_with(bits, 0, &mut begun) {
        Need::Length(count) => unit_item(bits, 0, count, begun, 9),
        _ => Item::Cut { place: 0, have: 0 },
    }
}

#[test]
fn readings(rt: HostRuntime) {
    for (words, len, places, wrong, fields) in READINGS {
        let bits = damaged(words, len, places);
        let item = item_of(&bits);
        assert!(rt; item.place() == 9 && item.covered() == bits.len() as u64);
        assert_item(&rt, &item, wrong, fields);
    }
}

// Asserts that a frame is encoded as some bits.
fn assert_written(rt: &impl Abort, frame: &Frame, bits: &BitBuf)
    requires { IsSoundFrame frame.now }
{
    let mut made = BitBuf::new();
    image(frame, &mut made);
    assert!(rt; made.len() == bits.len());
    assert!(rt; BitBuf::distance(&made, bits) == 0 && fixes(bits, 0, frame) == 0);
}

// Asserts that a frame encoded under another network access code (NAC) has that code.
fn assert_code(rt: &impl Abort, frame: &Frame)
    requires { IsSoundFrame frame.now }
{
    let mut made = BitBuf::new();
    image_as(frame, 0x123, &frame.statuses, &mut made);
    assert!(rt; made.len() == frame_length(&frame.unit) && made.len() >= 60);
    assert_eq!(rt; made.field(48, 12), 0x123);
}

#[test]
fn written_as_they_were_read(rt: HostRuntime) {
    for (words, len, _, _, fields) in READINGS {
        let bits = sent(words, len);
        match item_of(&bits) {
            Item::Whole { frame, .. } => {
                assert_written(&rt, &frame, &bits);
                assert_code(&rt, &frame);
            }
            _ => assert!(rt; fields.len() > 0),
        }
    }
}

#[test]
fn all_blocks_of_the_largest_packet_fail(rt: HostRuntime) {
    let bits = sent(&LARGEST, 25_200);
    match need(&bits, 0) {
        Need::Length(count) => match read_unit(&bits, 0, count) {
            Ok(_) => assert!(rt; false),
            Err(fields) => {
                assert_eq!(rt; fields.len(), 127);
                for i in 0..fields.len() {
                    assert_eq!(rt; fields.get(i), Field::Block(i as u8));
                }
            }
        },
        _ => assert!(rt; false),
    }
}
