//! The texts of items.

ghost use Rattle.std.specs.Prelude.{IfSome, IsTrue};
ghost use Rattle.p25_units.specs.{Items.{IsSoundItem}, Units.{IsWholeBody}};

use crate::{ItemText, item_text, read_line};
use p25_line::Line;
use p25_packet_blocks::is_whole;
use p25_units::{Body, Field, FieldList, Frame, Item, Status, Statuses, Unit, frame_length};
use std::test::Fail;

// Whether an item has this text.
fn has_text(item: &Item, text: &[u8]) -> bool
    requires { IsSoundItem item.now }
{
    let mut line = Line::new();
    item_text(item, &mut line);
    line.octets() == text
}

#[test]
fn item_is_shown(rt: HostRuntime) -> Result<(), Fail> {
    let gap = Item::Gap {
        place: 144,
        length: 7,
    };
    let text = ItemText::new(&gap).to_string(rt.alloc())?;
    assert_eq!(rt; text.as_str(), "gap at=144 bits=7");
    Ok(())
}

// Whether no slot of a packet (PDU) is `Bad`.
#[tactic(auto, unfolding(p25_units::specs::Units::IsWholeBody))]
fn is_whole_body(body: &Body) -> bool
    ensures { IsTrue result → IsWholeBody body.now }
{
    match body {
        Body::Voice(_) => true,
        Body::Packet(packet) => is_whole(packet),
    }
}

// A whole data unit at position 144 with 11 fixes and the status symbol 1 throughout.
fn whole(unit: Unit) -> Option<Item>
    ensures { IfSome result IsSoundItem }
{
    if !is_whole_body(unit.body()) {
        return None;
    }
    let mut statuses = Statuses::new();
    for _symbol in 0..frame_length(&unit) / 72 {
        if statuses.len() < 360 {
            statuses.push(Status::new(1)?);
        }
    }
    if 72 * statuses.len() != frame_length(&unit) {
        return None;
    }
    Some(Item::Whole {
        place: 144,
        frame: Frame { unit, statuses },
        fixes: 11,
    })
}

// The text of a whole data unit, here of a TDU, a TDULC and packets (PDU), has its position, length, fixes and status
// symbols before its line.
const WHOLE: [(&[u8], &[u8]); 4] = [
    (
        b"tdu nac=000",
        b"unit at=144 bits=144 fix=11 status=11 tdu nac=000",
    ),
    (
        b"tdulc nac=29a lc=000000000000000001",
        b"unit at=144 bits=432 fix=11 status=111111 tdulc nac=29a lc=000000000000000001",
    ),
    (
        b"confirmed nac=293 head=56c00000000180000800 blocks=-",
        b"unit at=144 bits=360 fix=11 status=11111 confirmed nac=293 head=56c00000000180000800 blocks=-",
    ),
    (
        b"response nac=293 head=23080000000180000000 octets=-",
        b"unit at=144 bits=360 fix=11 status=11111 response nac=293 head=23080000000180000000 octets=-",
    ),
];

#[test]
fn whole_items(rt: HostRuntime) -> Result<(), Fail> {
    for (line, text) in &WHOLE {
        let item = whole(read_line(line)?).ok_or("a whole unit")?;
        assert!(rt; has_text(&item, text));
    }
    Ok(())
}

// The name of each field, as `nid` for the network identifier (NID).
const FIELDS: [(Field, &[u8]); 14] = [
    (Field::Sync, b"nounit at=7 field=sync"),
    (Field::Nid, b"nounit at=7 field=nid"),
    (Field::Duid, b"nounit at=7 field=duid"),
    (Field::HeaderWord, b"nounit at=7 field=header_word"),
    (Field::LinkControl, b"nounit at=7 field=link_control"),
    (Field::EncryptionSync, b"nounit at=7 field=encryption_sync"),
    (Field::LowSpeed1, b"nounit at=7 field=low_speed_1"),
    (Field::LowSpeed2, b"nounit at=7 field=low_speed_2"),
    (Field::PacketHeader, b"nounit at=7 field=packet_header"),
    (Field::Length, b"nounit at=7 field=length"),
    (Field::Format, b"nounit at=7 field=format"),
    (Field::PacketCrc, b"nounit at=7 field=packet_crc"),
    (Field::Block(0), b"nounit at=7 field=block.0"),
    (Field::Block(126), b"nounit at=7 field=block.126"),
];

#[test]
fn names_of_fields(rt: HostRuntime) {
    for (field, text) in &FIELDS {
        let item = Item::NoUnit {
            place: 7,
            field: *field,
        };
        assert!(rt; has_text(&item, text));
    }
}

#[test]
fn other_items(rt: HostRuntime) {
    let mut fields = FieldList::new();
    fields.push(Field::LinkControl);
    fields.push(Field::LowSpeed1);
    fields.push(Field::Block(126));
    let broken = Item::Broken {
        place: 0,
        length: 1_728,
        nac: 0x29A,
        duid: 0xA,
        fields,
    };
    let text = b"broken at=0 bits=1728 nac=29a duid=a fields=link_control,low_speed_1,block.126";
    assert!(rt; has_text(&broken, text));
    let gap = Item::Gap {
        place: 1,
        length: 4_096,
    };
    assert!(rt; has_text(&gap, b"gap at=1 bits=4096"));
    let cut = Item::Cut {
        place: 18_446_744_073_709_551_615,
        have: 136,
    };
    assert!(rt; has_text(&cut, b"cut at=18446744073709551615 bits=136"));
}
