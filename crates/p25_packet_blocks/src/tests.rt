//! Data units of packets (PDU) made by a program apart from this code, and each call once.

mod rows;

use self::rows::{DAMAGED, UNITS};
use super::{
    Block, Confirmed, Flags, Octets, Packet, PacketHead, Plain, Slot, Slots, flags_make,
    flags_read, is_whole, packet_image, packet_length, read_head, read_head_at, read_packet,
    read_packet_unit,
};
use p25_bits::BitBuf;
use p25_status::{Field, Status, Statuses, weave};
use std::process::Abort;
use std::test::Fail;

#[test]
fn the_example_of_the_head(rt: HostRuntime) -> Result<(), Fail> {
    let head = PacketHead::confirmed(1, true, 1, 0, 0);
    let mut slots = Slots::new();
    slots.push(Slot::Good(Block::new(0, [7; 16])));
    let packet = Packet::Confirmed(Confirmed::new(head, slots));
    let again = packet.clone()?;
    assert!(rt; is_whole(&packet) && packet_length(&head) == 576 && again == packet);
    Ok(())
}

// The first bits of some words, with others in their positions from a given one on, the most significant bit first, and
// then bits 0.
fn unit(words: &[u64], len: usize, from: usize, others: &[u64]) -> BitBuf {
    let mut bits = BitBuf::new();
    for i in 0..11_usize {
        let other = others.get(i.wrapping_sub(from));
        if bits.len() <= 640 {
            bits.put_field(*other.or(words.get(i)).unwrap_or(&0), 64);
        }
    }
    let mut bare = BitBuf::new();
    bare.append(&bits, 0, len.min(bits.len()));
    bare
}

// A transmitted data unit, with the status symbol 0 throughout.
fn sent(bare: &BitBuf) -> BitBuf {
    let mut statuses = Statuses::new();
    for _block in 0..bare.len() / 70 {
        if statuses.len() < 360 {
            statuses.push(Status::default());
        }
    }
    let mut out = BitBuf::new();
    if 70 * statuses.len() == bare.len() {
        weave(bare, &statuses, &mut out);
    }
    out
}

// The packet of a data unit without status symbols that has its length.
fn read_whole(bare: &BitBuf) -> Result<Packet, Field> {
    if bare.len() < 308 {
        return Err(Field::Length);
    }
    let head = read_head(bare)?;
    if 72 * bare.len() < 70 * packet_length(&head) {
        return Err(Field::Length);
    }
    read_packet(bare)
}

// Asserts that the encoding of a packet is the bits from which it was decoded.
fn assert_written(rt: &impl Abort, nac: u16, packet: &Packet, bare: &BitBuf) {
    assert!(rt; is_whole(packet));
    assert!(rt; nac < 4096);
    let mut written = BitBuf::new();
    packet_image(nac, packet, &mut written);
    assert!(rt; written.len() == bare.len());
    assert_eq!(rt; BitBuf::distance(&written, bare), 0);
}

// Asserts the network access code and the header of a decoded transmitted data unit.
fn assert_unit(rt: &impl Abort, nac: u16, head: PacketHead, bits: &BitBuf) {
    assert!(rt; bits.len() >= 360);
    match read_head_at(bits, 0) {
        Ok(read) => assert!(rt; read.head == head),
        Err(_) => assert!(rt; false),
    }
    match read_packet_unit(bits) {
        Ok((read_nac, read)) => assert!(rt; read_nac == nac && read.head() == head),
        Err(_) => assert!(rt; false),
    }
}

#[test]
fn units_are_read_and_written(rt: HostRuntime) {
    for (nac, len, words) in UNITS {
        let bare = unit(words, len, 0, &[]);
        match read_whole(&bare) {
            Ok(packet) => {
                assert_written(&rt, nac, &packet, &bare);
                assert_unit(&rt, nac, packet.head(), &sent(&bare));
            }
            Err(_) => assert!(rt; false),
        }
    }
}

#[test]
fn damaged_units(rt: HostRuntime) {
    for (fails, place, from, others) in DAMAGED {
        assert!(rt; place < UNITS.len());
        let (_, len, words) = UNITS[place];
        let bits = sent(&unit(words, len, from, others));
        assert!(rt; bits.len() >= 360);
        match read_packet_unit(&bits) {
            Ok((_, packet)) => {
                assert_eq!(rt; None, fails);
                assert!(rt; !is_whole(&packet));
            }
            Err(field) => assert_eq!(rt; Some(field), fails),
        }
    }
}

#[test]
fn heads(rt: HostRuntime) {
    // Rows: a header, its octets, and its format, number of blocks, pad, number and Syn.
    let rows: [(PacketHead, [u8; 10], u8, u8, u8, u8, bool); 4] = [
        (
            PacketHead::response(0x12_3456, 2, 0, 5, 0),
            [0x23, 0x85, 0, 0x12, 0x34, 0x56, 0x80, 0, 0, 0],
            0x03,
            0,
            0,
            0,
            false,
        ),
        (
            PacketHead::opening(1, 3),
            [0x56, 0xC0, 0, 0, 0, 1, 0x80, 0, 0xB8, 0],
            0x16,
            0,
            0,
            3,
            true,
        ),
        (
            PacketHead::plain(0x12_3456, 3, 5),
            [0x35, 0xC0, 0, 0x12, 0x34, 0x56, 0x83, 5, 0, 0],
            0x15,
            3,
            5,
            0,
            false,
        ),
        (
            PacketHead::confirmed(1, false, 1, 10, 7),
            [0x56, 0xC0, 0, 0, 0, 1, 0x01, 10, 0x78, 0],
            0x16,
            1,
            10,
            7,
            false,
        ),
    ];
    for (head, octets, format, blocks, pad, number, syn) in rows {
        assert_eq!(rt; head.0, octets);
        assert!(rt; head.format() == format && head.blocks() == blocks && head.pad() == pad);
        assert!(rt; head.number() == number && head.syn() == syn);
    }
}

#[test]
fn a_response(rt: HostRuntime) {
    let head = PacketHead::response(0x12_3456, 2, 0, 5, 0);
    assert!(rt; head.class() == 2 && head.kind() == 0 && head.status() == 5);
    assert!(rt; head.llid() == 0x12_3456 && head.is_full());
    let plain = Plain::new(head, Octets::new());
    assert!(rt; plain.head() == head && plain.octets().len() == 0);
}

#[test]
fn a_confirmed_packet(rt: HostRuntime) {
    let head = PacketHead::confirmed(1, false, 1, 10, 7);
    let mut slots = Slots::new();
    slots.push(Slot::Good(Block::new(127, [9; 16])));
    let packet = Confirmed::new(head, slots);
    for i in 0..packet.slots().len() {
        match packet.slots().get(i) {
            Slot::Good(block) => {
                assert!(rt; block.serial() == 127);
                assert_eq!(rt; *block.octets(), [9; 16]);
            }
            Slot::Bad => assert!(rt; false),
        }
    }
    assert!(rt; !head.is_full() && is_whole(&Packet::Confirmed(packet)));
}

// Octets that count up from 0.
fn counted(len: usize) -> Octets {
    let mut octets = Octets::new();
    for i in 0..len.min(20) {
        if octets.len() < 20 {
            octets.push(i as u8);
        }
    }
    octets
}

// The octets of 64 or 128 flags, of which these are set.
fn flag_octets(count: usize, set: &[usize]) -> Octets {
    let mut flags = if count == 64 {
        Flags::new(64)
    } else {
        Flags::new(128)
    };
    for place in set {
        if *place < flags.len() {
            flags.set(*place, true);
        }
    }
    flags_make(&flags)
}

#[test]
fn flags_as_octets(rt: HostRuntime) {
    // Rows: the number of flags, those that are set, and the octets.
    let rows: [(usize, &[usize], &[u8]); 2] = [
        (64, &[1, 3, 63], &[0x50, 0, 0, 0, 0, 0, 0, 1]),
        (
            128,
            &[64],
            &[
                0, 0, 0, 0, 0, 0, 0, 0, 0x80, 0, 0, 0, 0, 0, 0, 0, 0, 0, 0, 0,
            ],
        ),
    ];
    for (count, set, octets) in rows {
        assert_eq!(rt; flag_octets(count, set).octets(), octets);
    }
}

#[test]
fn octets_as_flags(rt: HostRuntime) {
    // Rows: the number of octets, and the number of flags.
    let rows: [(usize, usize); 5] = [(8, 64), (20, 128), (0, 0), (9, 0), (16, 0)];
    for (len, count) in rows {
        match flags_read(&counted(len)) {
            Some(flags) => {
                assert!(rt; flags.len() == count && flags.get(15) && !flags.get(16));
            }
            None => assert_eq!(rt; count, 0),
        }
    }
}
