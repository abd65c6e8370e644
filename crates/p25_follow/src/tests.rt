//! Recordings with sync and NID that the scan does not find, and the output.

ghost use Rattle.std.specs.Prelude.{◌≤◌};
ghost use Rattle.p25_units.specs.Units.{IsWholeBody};

use super::Follower;
use p25_bch_nid::TDULC;
use p25_bits::{BITS_MOST, BitBuf};
use p25_link::{EncryptionSync, HeaderWord, LinkControl};
use p25_stream::{Item, find_item, repair_item};
use p25_units::{Body, FieldList, Frame, Status, Statuses, Unit, VoiceUnit, frame_length, image};
use p25_voice_units::{Voice, VoiceFrame};

// A terminator with link control (TDULC) of NAC 0, and a terminator (TDU), with the status symbol 1.
const SENT_TDULC: [u8; 54] = [
    0x55, 0x75, 0xF5, 0xFF, 0x77, 0xFF, 0x00, 0x0F, 0xED, 0xDF, 0x24, 0xA9, 0xD7, 0x87, 0x00, 0x00,
    0x00, 0x01, 0x00, 0x00, 0x00, 0x00, 0x00, 0x00, 0x00, 0x00, 0x01, 0x00, 0x00, 0x00, 0x00, 0x00,
    0x00, 0x00, 0x00, 0x01, 0x00, 0x00, 0x00, 0x00, 0x00, 0x00, 0x00, 0x00, 0x01, 0x00, 0x00, 0x00,
    0x00, 0x00, 0x00, 0x00, 0x00, 0x01,
];

const SENT_TDU: [u8; 18] = [
    0x55, 0x75, 0xF5, 0xFF, 0x77, 0xFF, 0x00, 0x03, 0x35, 0x93, 0x0B, 0xDD, 0x3B, 0x2B, 0x00, 0x00,
    0x00, 0x01,
];

// The terminator with five bit errors in its sync.
const FIVE_WRONG: [u8; 18] = [
    0xAD, 0x75, 0xF5, 0xFF, 0x77, 0xFF, 0x00, 0x03, 0x35, 0x93, 0x0B, 0xDD, 0x3B, 0x2B, 0x00, 0x00,
    0x00, 0x01,
];

// Appends the bits of octets, if there is capacity.
fn put_octets(octets: &[u8], bits: &mut BitBuf) {
    for octet in octets {
        if bits.len() < BITS_MOST - 8 {
            bits.put_field(u64::from(*octet), 8);
        }
    }
}

// Appends bits, if there is capacity.
fn put_bits(more: &BitBuf, bits: &mut BitBuf) {
    if bits.len() + more.len() <= BITS_MOST {
        bits.append(more, 0, more.len());
    }
}

// The output of a follower for the items of some octets, or of a repair.
fn made_of(octets: &[u8], repairs: bool) -> BitBuf {
    let mut bits = BitBuf::new();
    put_octets(octets, &mut bits);
    let mut follower = Follower::new();
    let mut item = Item::Cut { place: 0, have: 0 };
    let mut raw = BitBuf::new();
    let mut out = BitBuf::new();
    let mut all = BitBuf::new();
    let mut at = 0;
    for _ in 0..BITS_MOST {
        if !find_item(octets, at, at as u64, true, &mut item) {
            break;
        }
        let count = item.covered() as usize;
        if count > 4_096 || at > bits.len() || count > bits.len() - at {
            break;
        }
        raw.clear();
        raw.append(&bits, at, count);
        at += count;
        if repairs {
            repair_item(&item, &mut raw);
        } else {
            follower.take(&item, &raw, &mut out);
            put_bits(&out, &mut all);
        }
        if repairs || !matches!(item, Item::NoUnit { .. } | Item::Gap { .. }) {
            put_bits(&raw, &mut all);
        }
    }
    follower.finish(&mut out);
    put_bits(&out, &mut all);
    all
}

// The output for `count` octets after a terminator with link control (TDULC) is those of the second list after it.
fn comes_out(after: &[u8; 18], count: usize, written: &[u8; 18]) -> bool
    requires { count ≤ 18 }
{
    let mut octets = [0; 72];
    octets[..54].copy_from_slice(&SENT_TDULC);
    octets[54..].copy_from_slice(after);
    let mut expected = BitBuf::new();
    put_octets(&SENT_TDULC, &mut expected);
    put_octets(&written[..count], &mut expected);
    made_of(&octets[..54 + count], false) == expected
}

#[test]
fn fronts_after_a_terminator_with_link_control(rt: HostRuntime) {
    // Rows: the octets after it, and the output.
    let rows: [([u8; 18], [u8; 18]); 6] = [
        (FIVE_WRONG, SENT_TDU),
        // All 48 bits of the sync are wrong.
        (
            [
                0xAA, 0x8A, 0x0A, 0x00, 0x88, 0x00, 0x00, 0x03, 0x35, 0x93, 0x0B, 0xDD, 0x3B, 0x2B,
                0x00, 0x00, 0x00, 0x01,
            ],
            SENT_TDU,
        ),
        // 14 bits of the sync are wrong, and 16 of the NID.
        (
            [
                0xAA, 0x89, 0xF5, 0xFF, 0x77, 0xFF, 0xAA, 0xA9, 0x9D, 0x1B, 0x83, 0x5D, 0x3B, 0x2B,
                0x00, 0x00, 0x00, 0x01,
            ],
            SENT_TDU,
        ),
        // 15 bits of the sync are wrong, and 16 of the NID.
        (
            [
                0xAA, 0x8B, 0xF5, 0xFF, 0x77, 0xFF, 0xAA, 0xA9, 0x9D, 0x1B, 0x83, 0x5D, 0x3B, 0x2B,
                0x00, 0x00, 0x00, 0x01,
            ],
            [
                0xAA, 0x8B, 0xF5, 0xFF, 0x77, 0xFF, 0xAA, 0xA9, 0x9D, 0x1B, 0x83, 0x5D, 0x3B, 0x2B,
                0x00, 0x00, 0x00, 0x01,
            ],
        ),
        // 5 bits of the sync are wrong, and 17 of the NID.
        (
            [
                0xAD, 0x75, 0xF5, 0xFF, 0x77, 0xFF, 0xAA, 0xA9, 0x9D, 0x1B, 0x83, 0x55, 0x3B, 0x2B,
                0x00, 0x00, 0x00, 0x01,
            ],
            [
                0xAD, 0x75, 0xF5, 0xFF, 0x77, 0xFF, 0xAA, 0xA9, 0x9D, 0x1B, 0x83, 0x55, 0x3B, 0x2B,
                0x00, 0x00, 0x00, 0x01,
            ],
        ),
        // Five bits of the sync are wrong, under another NAC.
        (
            [
                0xAD, 0x75, 0xF5, 0xFF, 0x77, 0xFF, 0x00, 0x13, 0x05, 0xF2, 0x66, 0x27, 0x43, 0xA2,
                0x00, 0x00, 0x00, 0x01,
            ],
            [
                0xAD, 0x75, 0xF5, 0xFF, 0x77, 0xFF, 0x00, 0x13, 0x05, 0xF2, 0x66, 0x27, 0x43, 0xA2,
                0x00, 0x00, 0x00, 0x01,
            ],
        ),
    ];
    for (after, written) in rows {
        assert!(rt; comes_out(&after, 18, &written));
    }
}

#[test]
fn a_terminator_after_a_broken_unit(rt: HostRuntime) {
    let mut sent = BitBuf::new();
    put_octets(&SENT_TDULC, &mut sent);
    let mut lost = BitBuf::new();
    put_octets(&FIVE_WRONG, &mut lost);
    let mut terminator = BitBuf::new();
    put_octets(&SENT_TDU, &mut terminator);
    assert!(rt; lost.len() == 144);
    let mut follower = Follower::new();
    let mut out = BitBuf::new();
    let unit = Item::Broken {
        place: 0,
        length: 432,
        nac: 0,
        duid: TDULC,
        fields: FieldList::new(),
    };
    follower.take(&unit, &sent, &mut out);
    let gap = Item::Gap {
        place: 432,
        length: 144,
    };
    follower.take(&gap, &lost, &mut out);
    follower.finish(&mut out);
    assert!(rt; out == terminator);
}

#[test]
fn a_terminator_that_is_not_all_there(rt: HostRuntime) {
    assert!(rt; comes_out(&FIVE_WRONG, 17, &FIVE_WRONG));
}

#[test]
fn nothing_is_expected_after_a_terminator(rt: HostRuntime) {
    let mut octets = [0; 36];
    octets[..18].copy_from_slice(&SENT_TDU);
    octets[18..].copy_from_slice(&FIVE_WRONG);
    let mut expected = BitBuf::new();
    put_octets(&octets, &mut expected);
    assert!(rt; made_of(&octets, false) == expected);
}

// The body of a voice data unit, in which nothing fails.
#[tactic(auto, unfolding(p25_units::specs::Units::IsWholeBody))]
fn carried(voice: VoiceUnit) -> Body
    ensures { IsWholeBody result }
{
    Body::Voice(voice)
}

// Appends the transmitted bits of a voice data unit of NAC 0, `blocks` times 72, with the status symbol 1.
fn put_unit(voice: VoiceUnit, blocks: usize, bits: &mut BitBuf)
    requires { blocks ≤ 24 }
{
    let frame = Frame {
        unit: Unit::new(0, carried(voice)),
        statuses: Statuses::filled(Status::new(1).unwrap_or_default(), blocks),
    };
    if frame_length(&frame.unit) == 72 * frame.statuses.len() {
        let mut sent = BitBuf::new();
        image(&frame, &mut sent);
        put_bits(&sent, bits);
    }
}

fn ldu1() -> VoiceUnit {
    VoiceUnit::Link1 {
        link: LinkControl([0; 9]),
        low: [0; 2],
        voice: Voice::new([VoiceFrame([0; 18]); 9]),
    }
}

fn ldu2() -> VoiceUnit {
    VoiceUnit::Link2 {
        sync: EncryptionSync {
            mi: [0; 9],
            algid: 0x80,
            kid: 0,
        },
        low: [0; 2],
        voice: Voice::new([VoiceFrame([0; 18]); 9]),
    }
}

// The number of octets of a header, two of each logical link data unit and a terminator with link control.
const CALL_OCTETS: usize = 1_017;

// The octets of a call of NAC 0: a header, an LDU1, an LDU2, an LDU1, an LDU2 and a TDULC, all of zeros.
fn call_octets() -> [u8; CALL_OCTETS] {
    let mut bits = BitBuf::new();
    put_unit(
        VoiceUnit::Header(HeaderWord {
            mi: [0; 9],
            mfid: 0,
            algid: 0x80,
            kid: 0,
            tgid: 1,
        }),
        11,
        &mut bits,
    );
    put_unit(ldu1(), 24, &mut bits);
    put_unit(ldu2(), 24, &mut bits);
    put_unit(ldu1(), 24, &mut bits);
    put_unit(ldu2(), 24, &mut bits);
    put_unit(
        VoiceUnit::EndLink {
            link: LinkControl([0; 9]),
        },
        6,
        &mut bits,
    );
    let mut octets = [0; CALL_OCTETS];
    for i in 0..CALL_OCTETS {
        if 8 * i + 8 <= bits.len() {
            octets[i] = bits.field(8 * i, 8) as u8;
        }
    }
    octets
}

// The octets of a call in which sync and NID of the first `count` logical link data units are destroyed.
fn lost(octets: &[u8; CALL_OCTETS], count: usize) -> [u8; CALL_OCTETS]
    requires { count ≤ 4 }
{
    // Sync and NID of an LDU1 or an LDU2 with 24 bit errors in the sync and all bits of the NID wrong.
    let fronts: [[u8; 10]; 2] = [
        [0xAA, 0x8A, 0x0A, 0x00, 0x88, 0xFF, 0xFF, 0xFA, 0xA5, 0x4A],
        [0xAA, 0x8A, 0x0A, 0x00, 0x88, 0xFF, 0xFF, 0xF5, 0x49, 0x95],
    ];
    let mut octets = *octets;
    for k in 0..count {
        for i in 0..10 {
            octets[99 + 216 * k + i] = fronts[k % 2][i];
        }
    }
    octets
}

// Whether the output for the first `count` octets of a list is those of another.
fn comes_out_as(octets: &[u8; CALL_OCTETS], written: &[u8; CALL_OCTETS], count: usize) -> bool
    requires { count ≤ 1017 }
{
    let mut expected = BitBuf::new();
    put_octets(&written[..count], &mut expected);
    made_of(&octets[..count], false) == expected
}

#[test]
fn fronts_of_links(rt: HostRuntime) {
    let call = call_octets();
    let end = &call[963..];
    assert!(rt; end == SENT_TDULC.as_slice());
    assert!(rt; comes_out_as(&call, &call, CALL_OCTETS));
    assert!(rt; comes_out_as(&lost(&call, 1), &call, CALL_OCTETS));
    assert!(rt; comes_out_as(&lost(&call, 2), &call, CALL_OCTETS));
    assert!(rt; comes_out_as(&lost(&call, 3), &call, CALL_OCTETS));
    let four = lost(&call, 4);
    assert!(rt; comes_out_as(&four, &four, CALL_OCTETS));
}

#[test]
fn a_link_before_a_unit_of_a_call_that_is_cut(rt: HostRuntime) {
    let call = call_octets();
    assert!(rt; comes_out_as(&lost(&call, 1), &call, 950));
}

// The octets of a stretch, of a terminator with link control and of a terminator.
const AFTER_PACKET: usize = 110;

// The first 304 bits of a packet (PDU) of NAC 0, which are all but the last 12 of its header.
const PACKET_BEGUN: [u8; 38] = [
    0x55, 0x75, 0xF5, 0xFF, 0x77, 0xFF, 0x00, 0x0C, 0xD9, 0x4C, 0x2F, 0x74, 0xEC, 0xAC, 0x08, 0xC8,
    0x6B, 0x05, 0xE2, 0x2F, 0xF9, 0xF5, 0x29, 0x7D, 0x92, 0x22, 0x59, 0x2C, 0x88, 0xB6, 0x88, 0x88,
    0x86, 0x00, 0x88, 0x65, 0x9C, 0x22,
];

// The octets of bits.
fn octets_of(bits: &BitBuf) -> [u8; AFTER_PACKET] {
    let mut octets = [0; AFTER_PACKET];
    for i in 0..AFTER_PACKET {
        if 8 * i + 8 <= bits.len() {
            octets[i] = bits.field(8 * i, 8) as u8;
        }
    }
    octets
}

#[test]
fn a_repair_can_take_the_unit_before(rt: HostRuntime) {
    // The terminator with link control has four bit errors in its sync: with them the header of the packet is
    // uncorrectable.
    let mut octets = [0; AFTER_PACKET];
    octets[..38].copy_from_slice(&PACKET_BEGUN);
    octets[38..92].copy_from_slice(&SENT_TDULC);
    octets[38] = 0xD6;
    octets[39] = 0xF5;
    octets[92..].copy_from_slice(&FIVE_WRONG);
    let mut clean = octets;
    clean[38..92].copy_from_slice(&SENT_TDULC);
    let mut lost = BitBuf::new();
    put_octets(&clean, &mut lost);
    clean[92..].copy_from_slice(&SENT_TDU);
    let mut found = BitBuf::new();
    put_octets(&clean, &mut found);
    assert!(rt; made_of(&octets_of(&made_of(&octets, false)), true) == found);
    // After a repair it is correctable, and the packet covers the data unit after which the terminator would be
    // expected.
    let first = octets_of(&made_of(&octets, true));
    assert!(rt; made_of(&octets_of(&made_of(&first, false)), true) == lost);
}
