//! The rules of both stations as tables of packets (PDU), with blocks computed apart from this code.

ghost use Rattle.std.specs.Prelude.{◌≤◌, length};

use super::{Heard, LLID, Offer, Outstanding, Receiver, Reopen, Resend, Sender, SenderHeard};
use p25_messages::Message;
use p25_packet_blocks::{
    Block, Confirmed, Flags, Octets, Packet, PacketHead, Plain, Slot, Slots, flags_make,
};
use std::test::Fail;

#[test]
fn the_example_of_the_head(rt: HostRuntime) -> Result<(), Fail> {
    let mut sender = Sender::new();
    let offer = sender.offer(&Message::new(b"ab").ok_or("two octets")?);
    assert!(rt; matches!(&offer, Offer::Taken { blocks: 1, .. }));
    Ok(())
}

// The one block of the message 61 62 hex.
const BLOCK: [u8; 16] = [
    0x61, 0x62, 0, 0, 0, 0, 0, 0, 0, 0, 0, 0, 0xCA, 0x67, 0x1F, 0x72,
];

// The result of a call: a word, and the numbers that go with it.
type Told = (&'static str, u8, u8);

// The result of a packet (PDU) that a sender receives.
fn told(sender: &mut Sender, packet: &Packet) -> Told {
    match sender.hear(packet) {
        SenderHeard::Acknowledged { number } => ("acknowledged", number, 0),
        SenderHeard::Opened { number } => ("opened", number, 0),
        SenderHeard::Retry { number, tries, .. } => ("retry", number, tries),
        SenderHeard::Repeat { number, tries, .. } => ("repeat", number, tries),
        SenderHeard::Ignored => ("ignored", 0, 0),
        SenderHeard::Down => ("down", 0, 0),
    }
}

fn response(class: u8, kind: u8, status: u8) -> Packet {
    let head = PacketHead::response(LLID, class % 4, kind % 8, status % 8, 0);
    Packet::Plain(Plain::new(head, Octets::new()))
}

// Offers a message.
fn offer(sender: &mut Sender, octets: &[u8]) -> Told {
    let Some(message) = Message::new(octets) else {
        return ("no message", 0, 0);
    };
    match sender.offer(&message) {
        Offer::Taken { number, blocks, .. } => ("taken", number, blocks),
        Offer::Busy => ("busy", 0, 0),
        Offer::Down => ("down", 0, 0),
    }
}

fn time_out(sender: &mut Sender) -> Told {
    match sender.timeout() {
        Resend::Sent { number, tries, .. } => ("sent", number, tries),
        Resend::Idle => ("idle", 0, 0),
        Resend::Down => ("down", 0, 0),
    }
}

fn reopen(sender: &mut Sender) -> Told {
    match sender.reopen() {
        Reopen::Sent { number, .. } => ("opening", number, 0),
        Reopen::Up => ("up", 0, 0),
    }
}

// A response by its class, type and status, and its result for a sender of message 0.
const RESPONSES: [(u8, u8, u8, Told); 8] = [
    (0, 1, 0, ("acknowledged", 0, 0)),
    (0, 1, 1, ("ignored", 0, 0)),
    (0, 0, 0, ("ignored", 0, 0)),
    (1, 1, 0, ("repeat", 0, 2)),
    (1, 1, 7, ("ignored", 0, 0)),
    (1, 5, 0, ("ignored", 0, 0)),
    (2, 0, 0, ("ignored", 0, 0)),
    (3, 1, 0, ("ignored", 0, 0)),
];

// Whether a sender ignores a response before it is offered a message, and then returns the result of its row.
fn is_answered(row: &(u8, u8, u8, Told)) -> bool {
    let (class, kind, status, expected) = *row;
    let packet = response(class, kind, status);
    let mut sender = Sender::new();
    let before = told(&mut sender, &packet);
    let offered = offer(&mut sender, b"ab");
    let after = told(&mut sender, &packet);
    before == ("ignored", 0, 0) && offered == ("taken", 0, 1) && after == expected
}

#[test]
fn answers_to_responses(rt: HostRuntime) {
    for row in &RESPONSES {
        assert!(rt; is_answered(row));
    }
}

// An unconfirmed packet (PDU), if it has the octets of a response with this number of blocks.
fn plain(head: PacketHead, octets: Octets) -> Option<Packet> {
    if head.format() != 0x03 || octets.len() + 4 != 12 * head.blocks() as usize {
        return None;
    }
    Some(Packet::Plain(Plain::new(head, octets)))
}

// A selective retry of number 0 with 64 flags or 128; those from one index up to another are false.
fn retry(is_long: bool, from: usize, to: usize) -> Option<Packet> {
    let (count, blocks) = if is_long { (128, 2) } else { (64, 1) };
    let mut flags = Flags::new(count);
    for i in 0..count {
        flags.set(i, i < from || to <= i);
    }
    plain(
        PacketHead::response(LLID, 2, 0, 0, blocks),
        flags_make(&flags),
    )
}

// The result of such a retry for a sender of a message: the numbers of flags and blocks that it transmits again, and
// whether the packet has the full message flag; or `None` if it is ignored.
fn sent_again(octets: &[u8], packet: &Packet) -> Option<(usize, u8, bool)> {
    let message = Message::new(octets)?;
    let mut sender = Sender::new();
    let _ = sender.offer(&message);
    let SenderHeard::Retry { wanted, packet, .. } = sender.hear(packet) else {
        return None;
    };
    let Packet::Confirmed(packet) = packet else {
        return None;
    };
    Some((
        wanted.len(),
        packet.head().blocks(),
        packet.head().is_full(),
    ))
}

// The octets of the message, whether there are 128 flags, the indices of those that are false, and what is transmitted
// again.
const RETRIES: [(usize, bool, usize, usize, Option<(usize, u8, bool)>); 9] = [
    (2, false, 0, 1, Some((64, 1, false))),
    (2, false, 1, 2, None),
    (2, true, 0, 1, Some((128, 1, false))),
    (1020, false, 63, 64, Some((64, 1, false))),
    (1021, false, 63, 64, None),
    (1021, true, 64, 65, Some((128, 1, false))),
    (1021, true, 65, 66, None),
    (2028, true, 126, 127, Some((128, 1, false))),
    (2, false, 1, 64, None),
];

fn is_retried(row: &(usize, bool, usize, usize, Option<(usize, u8, bool)>)) -> bool {
    let (size, is_long, from, to, expected) = *row;
    match retry(is_long, from, to) {
        Some(packet) => sent_again(&[0; 2028][..size.min(2028)], &packet) == expected,
        None => false,
    }
}

#[test]
fn flags_of_a_selective_retry(rt: HostRuntime) {
    for row in &RETRIES {
        assert!(rt; is_retried(row));
    }
}

// An event of a sender: a message is offered, or a response received by its class, type and status.
#[derive(Clone, Copy)]
enum Act {
    Offer,
    Timeout,
    Reopen,
    Hear(u8, u8, u8),
}

fn done(sender: &mut Sender, act: Act) -> Told {
    match act {
        Act::Offer => offer(sender, b"ab"),
        Act::Timeout => time_out(sender),
        Act::Reopen => reopen(sender),
        Act::Hear(class, kind, status) => told(sender, &response(class, kind, status)),
    }
}

// Sixteen transmissions, and the session opened again.
const SIXTEEN: [(Act, Told); 29] = [
    (Act::Timeout, ("idle", 0, 0)),
    (Act::Reopen, ("up", 0, 0)),
    (Act::Offer, ("taken", 0, 1)),
    (Act::Offer, ("busy", 0, 0)),
    (Act::Timeout, ("sent", 0, 2)),
    (Act::Timeout, ("sent", 0, 3)),
    (Act::Timeout, ("sent", 0, 4)),
    (Act::Timeout, ("sent", 0, 5)),
    (Act::Timeout, ("sent", 0, 6)),
    (Act::Timeout, ("sent", 0, 7)),
    (Act::Timeout, ("sent", 0, 8)),
    (Act::Timeout, ("sent", 0, 9)),
    (Act::Timeout, ("sent", 0, 10)),
    (Act::Timeout, ("sent", 0, 11)),
    (Act::Timeout, ("sent", 0, 12)),
    (Act::Timeout, ("sent", 0, 13)),
    (Act::Timeout, ("sent", 0, 14)),
    (Act::Timeout, ("sent", 0, 15)),
    (Act::Timeout, ("sent", 0, 16)),
    (Act::Hear(1, 1, 0), ("down", 0, 0)),
    (Act::Hear(0, 1, 0), ("ignored", 0, 0)),
    (Act::Timeout, ("down", 0, 0)),
    (Act::Offer, ("down", 0, 0)),
    (Act::Reopen, ("opening", 4, 0)),
    (Act::Offer, ("busy", 0, 0)),
    (Act::Timeout, ("sent", 4, 2)),
    (Act::Hear(0, 1, 0), ("ignored", 0, 0)),
    (Act::Hear(0, 1, 4), ("opened", 4, 0)),
    (Act::Offer, ("taken", 5, 1)),
];

#[test]
fn sixteen_transmissions(rt: HostRuntime) {
    let mut sender = Sender::new();
    for (act, expected) in &SIXTEEN {
        assert!(rt; done(&mut sender, *act) == *expected);
    }
}

// The packet (PDU) of a message that is offered, and its number.
fn offered(sender: &mut Sender) -> Option<(Packet, u8)> {
    match sender.offer(&Message::new(b"ab")?) {
        Offer::Taken { number, packet, .. } => Some((packet, number)),
        Offer::Busy | Offer::Down => None,
    }
}

// The response to a packet whose message is delivered as it was offered.
fn delivered(receiver: &mut Receiver, packet: &Packet) -> Option<Packet> {
    match receiver.hear(packet) {
        Heard::Delivered {
            message,
            answer,
            ..
        } if message.octets() == b"ab".as_slice() => Some(answer),
        _ => None,
    }
}

// Whether a message is offered under a number, delivered and acknowledged.
fn is_exchanged(sender: &mut Sender, receiver: &mut Receiver, wanted: u8) -> bool {
    let Some((packet, number)) = offered(sender) else {
        return false;
    };
    match delivered(receiver, &packet) {
        Some(answer) => { told(sender, &answer) == ("acknowledged", wanted, 0) && number == wanted }
        None => false,
    }
}

#[test]
fn numbers_wrap(rt: HostRuntime) {
    let mut sender = Sender::new();
    let mut receiver = Receiver::new();
    for count in 0..9 {
        assert!(rt; is_exchanged(&mut sender, &mut receiver, count % 8));
    }
}

fn answer(receiver: &mut Receiver, packet: &Packet) -> &'static str {
    match receiver.hear(packet) {
        Heard::Delivered { .. } => "delivered",
        Heard::Opened { .. } => "opened",
        Heard::Again { .. } => "again",
        Heard::Kept { .. } => "kept",
        Heard::RefusedCrc { .. } => "refused crc",
        Heard::RefusedOrder { .. } => "refused order",
        Heard::Ignored => "ignored",
    }
}

// What follows a header: nothing, a bad slot, or a block by its serial number and its first octet.
#[derive(Clone, Copy)]
enum Behind {
    Nothing,
    Bad,
    Block(u8, u8),
}

fn slots(behind: Behind) -> Slots
    ensures { length result ≤ 1 }
{
    let mut slots = Slots::new();
    match behind {
        Behind::Nothing => {}
        Behind::Bad => slots.push(Slot::Bad),
        Behind::Block(serial, first) => {
            let mut octets = BLOCK;
            octets[0] = first;
            slots.push(Slot::Good(Block::new(serial % 128, octets)));
        }
    }
    slots
}

// A confirmed packet (PDU), if the header has this number of blocks.
fn packet(head: PacketHead, slots: Slots) -> Option<Packet> {
    if head.format() != 0x16 || head.blocks() as usize != slots.len() {
        return None;
    }
    Some(Packet::Confirmed(Confirmed::new(head, slots)))
}

// A packet (PDU) of data by its LLID, the full message flag, its pad, its number and what follows its header.
type Data = (u32, bool, u8, u8, Behind);

fn data(row: Data) -> Option<Packet> {
    let (llid, full, pad, number, behind) = row;
    let slots = slots(behind);
    let blocks = slots.len() as u8;
    packet(
        PacketHead::confirmed(llid % 4, full, blocks, pad % 32, number % 8),
        slots,
    )
}

const WHOLE: Data = (LLID, true, 10, 0, Behind::Block(0, 0x61));

// The result of a packet (PDU) for a receiver before its first message.
const PACKETS: [(Data, &str); 9] = [
    ((LLID, true, 10, 7, Behind::Block(0, 0x61)), "again"),
    ((LLID, true, 10, 1, Behind::Block(0, 0x61)), "refused order"),
    ((LLID, true, 10, 0, Behind::Block(1, 0x61)), "kept"),
    ((LLID, true, 13, 0, Behind::Block(0, 0x61)), "refused crc"),
    ((LLID, true, 10, 0, Behind::Block(0, 0x60)), "refused crc"),
    (WHOLE, "delivered"),
    ((LLID, true, 0, 0, Behind::Nothing), "ignored"),
    ((LLID, false, 10, 0, Behind::Bad), "ignored"),
    ((2, true, 0, 7, Behind::Nothing), "ignored"),
];

// Whether there is a packet (PDU), and it has this result for a receiver.
fn hears(receiver: &mut Receiver, packet: Option<Packet>, expected: &str) -> bool {
    match packet {
        Some(packet) => answer(receiver, &packet) == expected,
        None => false,
    }
}

#[test]
fn answers_to_packets(rt: HostRuntime) {
    for (row, expected) in &PACKETS {
        assert!(rt; hears(&mut Receiver::new(), data(*row), expected));
    }
    let opening = packet(PacketHead::opening(LLID, 1), Slots::new());
    assert!(rt; hears(&mut Receiver::new(), opening, "opened"));
    assert!(rt; hears(&mut Receiver::new(), Some(response(0, 1, 0)), "ignored"));
}

// An opening packet has no block to follow; one with a block is ignored, whatever its number.
#[test]
fn syn_with_a_block(rt: HostRuntime) {
    let head = PacketHead([0x56, 0xC0, 0, 0, 0, 1, 0x81, 0, 0x98, 0]);
    assert!(rt; head.syn() && head.llid() == LLID);
    let mut receiver = Receiver::new();
    let opening = packet(head, slots(Behind::Block(0, 0x61)));
    assert!(rt; hears(&mut receiver, opening, "ignored"));
    assert!(rt; hears(&mut receiver, data(WHOLE), "delivered"));
}

#[test]
fn senders_are_shown(rt: HostRuntime) -> Result<(), Fail> {
    let (sender, opening) = (Sender::new(), Outstanding::Opening(1));
    let text = "Sender { next: 0, outstanding: Nothing, tries: 0, down: false }";
    assert_eq!(rt; format!(in rt.alloc(); "{sender:?}")?.as_str(), text);
    assert_eq!(rt;
        format!(in rt.alloc(); "{opening:?}")?.as_str(),
        "Opening(1)"
    );
    Ok(())
}
