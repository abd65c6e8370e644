//! The types of sample data units, and the contents of each.

ghost use Rattle.std.specs.Prelude.{◌≡◌, ◌*◌, ◌^◌, ◌<◌, ◌≤◌, length, take};
ghost use Rattle.p25_vectors.specs.Draws.{octets_drawn, state_after};
ghost use Rattle.p25_vectors.specs.Bodies.{blocks_drawn, body_next, header_of, kind_of, llid_drawn, slots_drawn, sync_of, voice_drawn};
ghost use Rattle.p25_vectors.specs.declared.bodies.Kind.TheVariants.{Confirmed as confirmed_kind, Plain as plain_kind};
ghost use Rattle.p25_units.specs.declared.unit.Body.TheVariants.{Packet as packet_in};

use crate::draws::Draws;
use p25_bits::{pair_at, triple_at};
use p25_link::{EncryptionSync, HeaderWord, LinkControl};
use p25_packet_blocks::{Block, Confirmed, Octets, Packet, PacketHead, Plain, Slot, Slots};
use p25_units::Body;
use p25_voice_units::{Voice, VoiceFrame, VoiceUnit};

// The type of a sample data unit.
#[derive(Clone, Copy, Debug, PartialEq, Eq)]
pub(crate) enum Kind {
    // A TDU: a terminator without link control.
    End,
    // A header data unit (HDU).
    Header,
    // A TDULC: a terminator with link control.
    EndLink,
    // An LDU1: voice with link control.
    Link1,
    // An LDU2: voice with encryption sync.
    Link2,
    // A confirmed packet (PDU).
    Confirmed,
    // An unconfirmed packet (PDU).
    Plain,
    // A response to a packet (PDU).
    Response,
}

// The types, in turn.
const KINDS: [Kind; 8] = [
    Kind::End,
    Kind::Header,
    Kind::EndLink,
    Kind::Link1,
    Kind::Link2,
    Kind::Confirmed,
    Kind::Plain,
    Kind::Response,
];

// Returns the type of the data unit of an index, from 0.
pub(crate) fn kind_at(number: u32) -> Kind
    ensures { result ≡ kind_of number }
{
    KINDS[number as usize % KINDS.len()]
}

// Returns the first nine octets.
fn nine<const N: usize>(octets: &[u8; N]) -> [u8; 9]
    requires { 9 ≤ N }
    ensures { result ≡ take 9 octets.now }
{
    let mut first = [0; 9];
    first.copy_from_slice(&octets[..9]);
    first
}

// Draws the header word of an HDU.
fn draw_header(draws: &mut Draws) -> HeaderWord
    ensures word { result ≡ header_of (octets_drawn 15 draws.old) }
    ensures state { draws.new ≡ state_after 15 draws.old }
{
    let octets: [u8; 15] = draws.octets();
    HeaderWord {
        mi: nine(&octets),
        mfid: octets[9],
        algid: octets[10],
        kid: pair_at(&octets, 11),
        tgid: pair_at(&octets, 13),
    }
}

// Draws encryption sync (ES), of an LDU2.
fn draw_sync(draws: &mut Draws) -> EncryptionSync
    ensures sync { result ≡ sync_of (octets_drawn 12 draws.old) }
    ensures state { draws.new ≡ state_after 12 draws.old }
{
    let octets: [u8; 12] = draws.octets();
    EncryptionSync {
        mi: nine(&octets),
        algid: octets[9],
        kid: pair_at(&octets, 10),
    }
}

// Draws the voice frames of an LDU1 or an LDU2.
fn draw_voice(draws: &mut Draws) -> Voice
    ensures voice { result ≡ voice_drawn 9 draws.old }
    ensures state { draws.new ≡ state_after 162 draws.old }
{
    let mut frames = [VoiceFrame([0; 18]); 9];
    for i in 0..9 {
        frames[i] = VoiceFrame(draws.octets());
    }
    Voice::new(frames)
}

// Draws the number of blocks to follow, from 1 to 4.
fn draw_blocks(draws: &mut Draws) -> u8
    ensures value { result ≡ blocks_drawn draws.old }
    ensures few { result ≤ 4 }
    ensures state { draws.new ≡ state_after 1 draws.old }
{
    1 + draws.below(4) as u8
}

// Draws a logical link identifier (LLID).
fn draw_llid(draws: &mut Draws) -> u32
    ensures value { result ≡ llid_drawn draws.old }
    ensures below { result < 2 ^ 24 }
    ensures state { draws.new ≡ state_after 3 draws.old }
{
    let octets: [u8; 3] = draws.octets();
    triple_at(&octets, 0)
}

// Draws the good slots of a confirmed packet, whose serial numbers begin with 0.
fn draw_slots(blocks: u8, draws: &mut Draws) -> Slots
    requires { blocks ≤ 4 }
    ensures slots { result ≡ slots_drawn blocks draws.old }
    ensures len { length result ≡ blocks }
    ensures state { draws.new ≡ state_after (16 * blocks) draws.old }
{
    let mut slots = Slots::new();
    for serial in 0..blocks {
        slots.push(Slot::Good(Block::new(serial, draws.octets())));
    }
    slots
}

// Draws octets, `count` of them.
fn draw_octets(count: usize, draws: &mut Draws) -> Octets
    requires { count ≤ 1520 }
    ensures octets { result ≡ octets_drawn count draws.old }
    ensures len { length result ≡ count }
    ensures state { draws.new ≡ state_after count draws.old }
{
    let mut octets = Octets::new();
    for _drawn in 0..count {
        octets.push(draws.octet());
    }
    octets
}

// Draws a confirmed packet.
fn draw_confirmed(draws: &mut Draws) -> Packet
    ensures packet { packet_in result ≡ (body_next confirmed_kind draws.old).0 }
    ensures state { draws.new ≡ (body_next confirmed_kind draws.old).1 }
{
    let blocks = draw_blocks(draws);
    let head = PacketHead::confirmed(draw_llid(draws), true, blocks, 0, 0);
    Packet::Confirmed(Confirmed::new(head, draw_slots(blocks, draws)))
}

// Draws an unconfirmed packet.
fn draw_plain(draws: &mut Draws) -> Packet
    ensures packet { packet_in result ≡ (body_next plain_kind draws.old).0 }
    ensures state { draws.new ≡ (body_next plain_kind draws.old).1 }
{
    let blocks = draw_blocks(draws);
    let head = PacketHead::plain(draw_llid(draws), blocks, 0);
    let octets = draw_octets(12 * usize::from(blocks) - 4, draws);
    Packet::Plain(Plain::new(head, octets))
}

// Draws the contents of a data unit of a type.
#[tactic(auto, unfolding(crate::specs::Bodies::body_next))]
pub(crate) fn draw_body(kind: Kind, draws: &mut Draws) -> Body
    ensures body { result ≡ (body_next kind draws.old).0 }
    ensures state { draws.new ≡ (body_next kind draws.old).1 }
{
    match kind {
        Kind::End => Body::Voice(VoiceUnit::End),
        Kind::Header => Body::Voice(VoiceUnit::Header(draw_header(draws))),
        Kind::EndLink => Body::Voice(VoiceUnit::EndLink {
            link: LinkControl(draws.octets()),
        }),
        Kind::Link1 => Body::Voice(VoiceUnit::Link1 {
            link: LinkControl(draws.octets()),
            low: draws.octets(),
            voice: draw_voice(draws),
        }),
        Kind::Link2 => Body::Voice(VoiceUnit::Link2 {
            sync: draw_sync(draws),
            low: draws.octets(),
            voice: draw_voice(draws),
        }),
        Kind::Confirmed => Body::Packet(draw_confirmed(draws)),
        Kind::Plain => Body::Packet(draw_plain(draws)),
        Kind::Response => {
            let head = PacketHead::response(draw_llid(draws), 0, 1, 0, 0);
            Body::Packet(Packet::Plain(Plain::new(head, Octets::new())))
        }
    }
}
