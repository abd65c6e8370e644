//! Values computed apart from this code, and each call once.

use super::{
    Field, FieldList, NotAStatus, SYNC, Status, Statuses, is_sync, is_sync_window, sync_distance,
    unweave, weave,
};
use p25_bits::BitBuf;
use std::test::Fail;

#[test]
fn the_example_of_the_head(rt: HostRuntime) {
    let mut bare = BitBuf::new();
    bare.put_field(SYNC, 48);
    bare.put_field(0, 22);
    let statuses = Statuses::filled(Status::default(), 1);
    let mut sent = BitBuf::new();
    weave(&bare, &statuses, &mut sent);
    assert!(rt; is_sync(&sent, 0) && sent.len() == 72);
}

#[test]
fn status_values(rt: HostRuntime) -> Result<(), Fail> {
    assert_eq!(rt; Status::try_from(4), Err(NotAStatus(4)));
    let idle = Status::try_from(3)?;
    assert_eq!(rt; u8::from(idle), 3);
    assert_eq!(rt; Status::default().value(), 0);
    Ok(())
}

#[test]
fn sync_with_wrong_bits(rt: HostRuntime) {
    let rows: [(u64, bool); 6] = [
        (0, true),
        (0x8000_0000_0001, true),
        (0xF000_0000_0000, true),
        (0x8000_4002_0001, true),
        (0x8000_4002_0003, false),
        (0xFFFF_FFFF_FFFF, false),
    ];
    for (wrong, near) in rows {
        let mut bits = BitBuf::new();
        bits.push(true);
        bits.put_field(SYNC ^ (wrong & 0xFFFF_FFFF_FFFF), 48);
        assert_eq!(rt; is_sync(&bits, 1), near);
    }
}

#[test]
fn two_blocks(rt: HostRuntime) -> Result<(), Fail> {
    let mut bare = BitBuf::new();
    bare.put_field(0x5555_5555_5555_5555, 64);
    bare.put_field(0x3F, 6);
    bare.put_field(0, 64);
    bare.put_field(0x2A, 6);
    let mut statuses = Statuses::new();
    statuses.push(Status::new(1).ok_or("1 is a status symbol")?);
    statuses.push(Status::new(2).ok_or("2 is a status symbol")?);
    let mut sent = BitBuf::new();
    weave(&bare, &statuses, &mut sent);
    assert_eq!(rt; sent.len(), 144);
    assert_eq!(rt; sent.field(56, 16), 0x55FD);
    assert_eq!(rt; sent.field(128, 16), 0x00AA);

    let mut bare_again = BitBuf::new();
    let mut statuses_again = Statuses::new();
    unweave(&sent, 72, 72, &mut bare_again, &mut statuses_again);
    assert_eq!(rt; bare_again.field(6, 64), 0x2A);
    assert_eq!(rt; statuses_again.len(), 1);
    assert_eq!(rt; statuses_again.get(0).value(), 2);
    Ok(())
}

#[test]
fn one_symbol_throughout(rt: HostRuntime) -> Result<(), Fail> {
    let idle = Statuses::filled(Status::new(3).ok_or("3 is a status symbol")?, 360);
    assert_eq!(rt; idle.len(), 360);
    assert_eq!(rt; idle.get(359).value(), 3);
    Ok(())
}

#[test]
fn field_lists(rt: HostRuntime) -> Result<(), Fail> {
    let mut fields = FieldList::new();
    for field in [
        Field::Sync,
        Field::Nid,
        Field::Duid,
        Field::HeaderWord,
        Field::LinkControl,
        Field::EncryptionSync,
        Field::LowSpeed1,
        Field::LowSpeed2,
        Field::PacketHeader,
        Field::Length,
        Field::Format,
        Field::PacketCrc,
        Field::Block(126),
    ] {
        assert!(rt; fields.len() < 127);
        fields.push(field);
    }
    let names =
        "sync,nid,duid,header_word,link_control,encryption_sync,low_speed_1,low_speed_2,packet_header,length,format,packet_crc,block.126";
    assert_eq!(rt; format!(in rt.alloc(); "{fields}")?.as_str(), names);
    assert_eq!(rt; fields.as_slice().last(), Some(&Field::Block(126)));
    Ok(())
}

#[test]
fn windows(rt: HostRuntime) {
    assert_eq!(rt; sync_distance(0x5575_F5FF_77FF), 0);
    assert_eq!(rt; sync_distance(0x5575_F5FF_77F0), 4);
    assert!(rt; is_sync_window(0x5575_F5FF_77F0));
    assert!(rt; !is_sync_window(0xD575_F5FF_77F0));
}
