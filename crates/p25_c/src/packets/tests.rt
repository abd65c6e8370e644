//! Packets that are built and read.

use super::*;
use crate::packet_building::p25_build_packet;

// A confirmed packet of two blocks.
fn two_blocks() -> PacketParts {
    let head = PacketHead([0x56, 0xC0, 0, 0, 0, 1, 0x82, 0, 8, 0]);
    let mut packet = head_told(0x293, &head);
    packet.good[0] = 1;
    packet.good[1] = 1;
    packet.serials[1] = 1;
    for i in 0..32 {
        packet.octets[i] = 200 + i as u8;
    }
    packet
}

#[test]
fn a_packet_that_is_built_is_read(rt: HostRuntime) {
    let given = two_blocks();
    let mut octets = [0; 100];
    let mut told = head_told(0, &PacketHead([0; 10]));
    assert!(rt; p25_build_packet(&given, 1, &mut octets) == 90);
    assert!(rt; p25_packet_read(&octets, 0, 0, &mut told) == 0);
    assert!(rt; told.nac == 0x293 && told.head == given.head && told.length == 32);
    assert!(rt; told.format == 0x16 && told.full == 1 && told.blocks == 2 && told.llid == 1);
    assert!(rt;
        told.good == given.good && told.serials == given.serials && told.octets == given.octets
    );
}
