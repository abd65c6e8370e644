//! The lines of data units.

ghost use Rattle.std.specs.Prelude.{◌≡◌, ◌+◌, ◌*◌, ◌<◌, ◌≤◌, ◌∷◌, ◌++◌, length};
ghost use Rattle.p25_text.specs.{Grammar.{text_of}, Names.{key_at, key_text, keys_of, kind_word}, Values.{key_value_text}};
ghost use Rattle.p25_line.specs.Values.{three_digits};

use super::names::UnitKind;
use super::packet_texts::put_packet;
use super::voices::put_voice;
use p25_line::Line;
use p25_units::{Body, Unit};

/// Writes to `out` the line of a data unit, without the end of the line. A `Bad` slot of a packet (PDU) has no text, so
/// the line of a packet that is not whole is refused when it is read.
pub fn unit_text(unit: &Unit, out: &mut Line)
    ensures { out.new ≡ text_of unit.now }
{
    out.clear();
    put_unit(unit, out);
}

/// Appends the line of a data unit, without the end of the line.
pub fn put_unit(unit: &Unit, out: &mut Line)
    requires { length out.old + 4700 ≤ 8192 }
    ensures text { out.new ≡ out.old ++ text_of unit.now }
    ensures short { length out.new ≤ length out.old + 4700 }
{
    match unit.body() {
        Body::Voice(voice) => put_voice(unit.nac(), voice, out),
        Body::Packet(packet) => put_packet(unit.nac(), packet, out),
    }
}

/// Appends the word of a type, and its first key with the network access code (NAC).
pub fn put_start(kind: UnitKind, nac: u16, out: &mut Line)
    requires { length out.old + 17 ≤ 8192 }
    ensures text { out.new ≡ out.old ++ (kind_word kind ++ 32 ∷ key_text (key_at kind 0) ++ three_digits nac) }
    ensures short { length out.new ≤ length out.old + 17 }
{
    out.put(kind.word());
    put_key(kind, 0, out);
    out.put_three_digits(nac);
}

/// Appends a space and key `i` of a type, counted from 0.
pub fn put_key(kind: UnitKind, i: usize, out: &mut Line)
    requires some { i < length (keys_of kind) }
    requires room { length out.old + 8 ≤ 8192 }
    ensures text { out.new ≡ out.old ++ 32 ∷ key_text (key_at kind i) }
    ensures short { length out.new ≤ length out.old + 8 }
{
    out.put(b" ");
    out.put(kind.keys()[i].text());
}

/// Appends a space, key `i` of a type, counted from 0, and its value: octets with two digits each.
pub fn put_value(kind: UnitKind, i: usize, octets: &[u8], out: &mut Line)
    requires some { i < length (keys_of kind) }
    requires room { length out.old + 8 + 2 * length octets.now ≤ 8192 }
    ensures text { out.new ≡ out.old ++ key_value_text (key_at kind i) octets.now }
    ensures short { length out.new ≤ length out.old + 8 + 2 * length octets.now }
{
    put_key(kind, i, out);
    out.put_hex(octets);
}
