//! Each field of a data unit follows its own key.

use super::repeated;
use crate::read_line;
use p25_packet_blocks::{Block, Packet, Slot};
use p25_units::Body;
use p25_voice_units::VoiceUnit;
use std::test::Fail;

// The fields of an HDU.
#[test]
fn fields_of_a_header(rt: HostRuntime) -> Result<(), Fail> {
    let unit = read_line(b"hdu nac=123 mi=0102030405060708ff mfid=45 algid=67 kid=89ab tgid=cdef")?;
    assert_eq!(rt; unit.nac(), 0x123);
    let Body::Voice(VoiceUnit::Header(word)) = unit.body() else {
        return Err("a header".into());
    };
    assert_eq!(rt; word.mi, [1, 2, 3, 4, 5, 6, 7, 8, 255]);
    assert!(rt; word.mfid == 0x45 && word.algid == 0x67);
    assert!(rt; word.kid == 0x89AB && word.tgid == 0xCDEF);
    Ok(())
}

// The line of an LDU2.
const LINK2: [(&[u8], usize); 5] = [
    (b"ldu2 nac=123 mi=0102030405060708ff algid=67 ", 1),
    (b"kid=89ab lsd=1234 voice=", 1),
    (b"00", 18),
    (b"11", 18),
    (b"22", 126),
];

// The encryption sync (ES), the low speed data (LSD) and the voice frames of an LDU2.
#[test]
fn fields_of_voice(rt: HostRuntime) -> Result<(), Fail> {
    let unit = read_line(repeated(&LINK2).octets())?;
    let Body::Voice(VoiceUnit::Link2 { sync, low, voice }) = unit.body() else {
        return Err("voice with encryption sync".into());
    };
    assert_eq!(rt; sync.mi, [1, 2, 3, 4, 5, 6, 7, 8, 255]);
    assert!(rt; sync.algid == 0x67 && sync.kid == 0x89AB);
    assert_eq!(rt; *low, [0x12, 0x34]);
    assert_eq!(rt; voice.get(0).0, [0; 18]);
    assert_eq!(rt; voice.get(1).0, [0x11; 18]);
    assert_eq!(rt; voice.get(8).0, [0x22; 18]);
    Ok(())
}

// The line of a confirmed packet (PDU).
const CONFIRMED: [(&[u8], usize); 3] = [
    (b"confirmed nac=293 head=56c00000000182000800 ", 1),
    (b"blocks=00:00000000000000000000000000000000,", 1),
    (b"7e:000102030405060708090a0b0c0d0e0f", 1),
];

#[test]
fn fields_of_a_confirmed_packet(rt: HostRuntime) -> Result<(), Fail> {
    let unit = read_line(repeated(&CONFIRMED).octets())?;
    let Body::Packet(Packet::Confirmed(packet)) = unit.body() else {
        return Err("a confirmed packet".into());
    };
    assert_eq!(rt; packet.head().0, [0x56, 0xC0, 0, 0, 0, 1, 0x82, 0, 8, 0]);
    assert_eq!(rt; packet.slots().len(), 2);
    let octets = [0, 1, 2, 3, 4, 5, 6, 7, 8, 9, 10, 11, 12, 13, 14, 15];
    assert_eq!(rt; packet.slots().get(0), Slot::Good(Block::new(0, [0; 16])));
    assert_eq!(rt; packet.slots().get(1), Slot::Good(Block::new(0x7E, octets)));
    Ok(())
}

#[test]
fn fields_of_a_plain_packet(rt: HostRuntime) -> Result<(), Fail> {
    let unit = read_line(b"plain nac=293 head=35c00000000181000000 octets=0123456789abcdef")?;
    let Body::Packet(Packet::Plain(packet)) = unit.body() else {
        return Err("a packet that is not confirmed".into());
    };
    assert_eq!(rt; packet.head().blocks(), 1);
    let octets: &[u8] = &[0x01, 0x23, 0x45, 0x67, 0x89, 0xAB, 0xCD, 0xEF];
    assert_eq!(rt; packet.octets().octets(), octets);
    Ok(())
}
