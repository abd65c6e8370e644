//! The damage of sample data units: the first bits of each of their codewords are inverted, a drawn number of them.

ghost use Rattle.std.specs.Prelude.{◌≡◌, ◌+◌, ◌*◌, ◌%◌, ◌<◌, ◌≤◌, All, length};
ghost use Rattle.p25_coded_fields.specs.Layouts.{places_from};
ghost use Rattle.p25_packet_blocks.specs.{Lengths.{packet_bits}, Within.{block_radius}};
ghost use Rattle.p25_units.specs.{Units.{body_length}, declared.unit.Body.TheVariants.{Packet as packet_in, Voice as voice_in}};
ghost use Rattle.p25_vectors.specs.Draws.{draw, state_after};
ghost use Rattle.p25_vectors.specs.Damage.{IsDamage, body_hits, field_hits, inverted, link_hits, unit_hits, word_hits};

use crate::draws::Draws;
use p25_bits::BitBuf;
use p25_packet_blocks::{BLOCK_LENGTH, BLOCKS_AT, HEADER_AT, Packet};
use p25_units::Body;
use p25_voice_units::laws::part_places;
use p25_voice_units::{HDU_WORDS, LDU_WORDS, LOW_WORDS, TDULC_WORDS, VoiceUnit};

// Inverts a number of bits from a position on.
fn invert(at: usize, count: usize, bits: &mut BitBuf)
    requires { at + count ≤ length bits.old }
    ensures list { bits.new ≡ inverted at count bits.old }
    ensures len { length bits.new ≡ length bits.old }
{
    // For the prover: the number of bits held bounds every position below.
    let _ = bits.len();
    for k in 0..count {
        bits.flip(at + k);
    }
}

// Codewords of one code: the number of bits of each, and the number of bit errors that the code corrects.
#[derive(Clone, Copy)]
struct Words {
    size: usize,
    radius: usize,
}

const GOLAY18: Words = Words {
    size: 18,
    radius: 3,
};

const GOLAY24: Words = Words {
    size: 24,
    radius: 3,
};

const HAMMING10: Words = Words {
    size: 10,
    radius: 1,
};

const LOW_SPEED: Words = Words {
    size: 16,
    radius: 2,
};

// Inverts the first bits of a codeword, at most `most`, by a draw, and returns their number.
fn damage_word(at: usize, most: usize, draws: &mut Draws, bits: &mut BitBuf) -> u32
    requires few { most ≤ 24 }
    requires there { at + most ≤ length bits.old }
    ensures list { bits.new ≡ inverted at (draw 0 draws.old % (most + 1)) bits.old }
    ensures len { length bits.new ≡ length bits.old }
    ensures count { result ≡ draw 0 draws.old % (most + 1) }
    ensures few { result ≤ most }
    ensures state { draws.new ≡ state_after 1 draws.old }
{
    let count = draws.below(most as u64 + 1) as u32;
    invert(at, count as usize, bits);
    count
}

// Inverts the first codewords whole, and the first bits of each later one by draws, and returns the number of bits.
fn damage_words(
    places: &[usize],
    words: Words,
    whole: usize,
    draws: &mut Draws,
    bits: &mut BitBuf,
) -> u32
    requires size { words.size ≤ 24 }
    requires radius { words.radius ≤ words.size }
    requires few { length places.now ≤ 36 }
    requires whole { whole ≤ length places.now }
    requires there { All (λ at. at + words.size ≤ length bits.old) places.now }
    ensures damage { IsDamage (word_hits words.size words.radius whole places.now) draws.old bits.old bits.new result draws.new }
    ensures len { length bits.new ≡ length bits.old }
    ensures few { result ≤ 24 * length places.now }
{
    let mut flips = 0;
    for i in 0..places.len() {
        if i < whole {
            invert(places[i], words.size, bits);
            flips += words.size as u32;
        } else {
            flips += damage_word(places[i], words.radius, draws, bits);
        }
    }
    flips
}

// Damages the inner codewords of a coded field. A draw determines how many are inverted whole, up to a maximum.
fn damage_field(
    places: &[usize],
    words: Words,
    most: usize,
    draws: &mut Draws,
    bits: &mut BitBuf,
) -> u32
    requires size { words.size ≤ 24 }
    requires radius { words.radius ≤ words.size }
    requires few { length places.now ≤ 36 }
    requires most { most ≤ length places.now }
    requires there { All (λ at. at + words.size ≤ length bits.old) places.now }
    ensures damage { IsDamage (field_hits words.size words.radius most places.now) draws.old bits.old bits.new result draws.new }
    ensures len { length bits.new ≡ length bits.old }
    ensures few { result ≤ 24 * length places.now }
{
    let whole = draws.below(most as u64 + 1) as usize;
    damage_words(places, words, whole, draws, bits)
}

// Damages the inner codewords of an LDU1 or an LDU2, and the codewords of its low speed data (LSD).
fn damage_link(most: usize, draws: &mut Draws, bits: &mut BitBuf) -> u32
    requires most { most ≤ 24 }
    requires long { length bits.old ≡ 1680 }
    ensures damage { IsDamage (link_hits most) draws.old bits.old bits.new result draws.new }
    ensures len { length bits.new ≡ 1680 }
    ensures few { result ≤ 864 }
{
    // For the prover, here and below: the positions of the words are those of the layouts.
    part_places();
    let field = damage_field(&LDU_WORDS, HAMMING10, most, draws, bits);
    field + damage_words(&LOW_WORDS, LOW_SPEED, 0, draws, bits)
}

// Damages the codewords of a voice data unit after sync and NID: those of an HDU, a TDULC, an LDU1 or an LDU2. A TDU
// has none.
#[tactic(auto, unfolding(crate::specs::Damage::body_hits, p25_voice_units::specs::Lengths::voice_length_of))]
fn damage_voice(voice: &VoiceUnit, draws: &mut Draws, bits: &mut BitBuf) -> u32
    requires { length bits.old ≡ body_length (voice_in voice.now) }
    ensures damage { IsDamage (body_hits (voice_in voice.now)) draws.old bits.old bits.new result draws.new }
    ensures len { length bits.new ≡ length bits.old }
    ensures few { result ≤ 864 }
{
    part_places();
    match voice {
        VoiceUnit::End => 0,
        VoiceUnit::Header(_) => damage_field(&HDU_WORDS, GOLAY18, 8, draws, bits),
        VoiceUnit::EndLink { .. } => damage_field(&TDULC_WORDS, GOLAY24, 3, draws, bits),
        VoiceUnit::Link1 { .. } => damage_link(6, draws, bits),
        VoiceUnit::Link2 { .. } => damage_link(4, draws, bits),
    }
}

// Inverts the first bits of each of a number of blocks of a packet (PDU) after its header block, by draws, and returns
// the number of bits.
fn damage_blocks(count: usize, radius: usize, draws: &mut Draws, bits: &mut BitBuf) -> u32
    requires few { count < 128 }
    requires radius { radius ≤ 2 }
    requires there { packet_bits count ≤ length bits.old }
    ensures damage { IsDamage (word_hits 196 radius 0 (places_from 308 196 count)) draws.old bits.old bits.new result draws.new }
    ensures len { length bits.new ≡ length bits.old }
    ensures few { result ≤ 2 * count }
{
    let mut flips = 0;
    for j in 0..count {
        flips += damage_word(BLOCKS_AT + BLOCK_LENGTH * j, radius, draws, bits);
    }
    flips
}

// Damages all blocks of a packet (PDU).
fn damage_packet(packet: &Packet, draws: &mut Draws, bits: &mut BitBuf) -> u32
    requires { length bits.old ≡ body_length (packet_in packet.now) }
    ensures damage { IsDamage (body_hits (packet_in packet.now)) draws.old bits.old bits.new result draws.new }
    ensures len { length bits.new ≡ length bits.old }
    ensures few { result ≤ 256 }
{
    let header = damage_word(HEADER_AT, 2, draws, bits);
    let count = usize::from(packet.head().blocks());
    header + damage_blocks(count, radius_of(packet), draws, bits)
}

// Returns the number of bit errors of a block to follow that are corrected.
fn radius_of(packet: &Packet) -> usize
    ensures value { result ≡ block_radius packet.now }
    ensures few { result ≤ 2 }
{
    match packet {
        Packet::Confirmed(_) => 1,
        Packet::Plain(_) => 2,
    }
}

// Inverts bits of a data unit without status symbols, by draws, and returns their number: the first ones of its sync,
// of its network identifier (NID), and of each of its codewords and blocks.
pub(crate) fn damage(body: &Body, draws: &mut Draws, bits: &mut BitBuf) -> u32
    requires { length bits.old ≡ body_length body.now }
    ensures damage { IsDamage (unit_hits body.now) draws.old bits.old bits.new result draws.new }
    ensures len { length bits.new ≡ length bits.old }
{
    let sync = damage_word(0, 4, draws, bits);
    let identifier = damage_word(48, 11, draws, bits);
    sync + identifier + damage_body(body, draws, bits)
}

// Damages the bits after sync and NID.
fn damage_body(body: &Body, draws: &mut Draws, bits: &mut BitBuf) -> u32
    requires { length bits.old ≡ body_length body.now }
    ensures damage { IsDamage (body_hits body.now) draws.old bits.old bits.new result draws.new }
    ensures len { length bits.new ≡ length bits.old }
    ensures few { result ≤ 864 }
{
    match body {
        Body::Voice(voice) => damage_voice(voice, draws, bits),
        Body::Packet(packet) => damage_packet(packet, draws, bits),
    }
}
