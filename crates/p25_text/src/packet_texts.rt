//! The lines of packets (PDU).

ghost use Rattle.std.specs.Prelude.{◌≡◌, ◌+◌, ◌≤◌, ◌++◌, length};
ghost use Rattle.p25_line.specs.CommaLists.{list_text};
ghost use Rattle.p25_text.specs.{Grammar.{text_of}, Names.{keys_of}, Packets.{packet_kind, slot_text}};

use super::names::UnitKind;
use super::write::{put_key, put_start, put_value};
use p25_line::Line;
use p25_packet_blocks::{Packet, Plain, RESPONSE_FORMAT, Slot, Slots};
use p25_units::Body;

/// Appends the line of a packet (PDU).
pub fn put_packet(nac: u16, packet: &Packet, out: &mut Line)
    requires { length out.old + 4700 ≤ 8192 }
    ensures text { out.new ≡ out.old ++ text_of (record { nac = nac; body = Body.Packet packet.now }) }
    ensures short { length out.new ≤ length out.old + 4700 }
{
    match packet {
        Packet::Confirmed(packet) => {
            put_start(UnitKind::Confirmed, nac, out);
            put_value(UnitKind::Confirmed, 1, &packet.head().0, out);
            put_key(UnitKind::Confirmed, 2, out);
            put_slots(packet.slots(), out);
        }
        Packet::Plain(packet) => {
            let kind = plain_kind(packet);
            put_start(kind, nac, out);
            put_value(kind, 1, &packet.head().0, out);
            put_key(kind, 2, out);
            out.put_octets(packet.octets().octets());
        }
    }
}

// Returns the type of the line of an unconfirmed packet (PDU).
fn plain_kind(packet: &Plain) -> UnitKind
    ensures kind { result ≡ packet_kind (Packet.Plain packet.now) }
    ensures three { length (keys_of result) ≡ 3 }
{
    if packet.head().format() == RESPONSE_FORMAT {
        UnitKind::Response
    } else {
        UnitKind::Plain
    }
}

// Appends slots with commas between them, or `-` if there are none.
fn put_slots(slots: &Slots, out: &mut Line)
    requires { length out.old + 4572 ≤ 8192 }
    ensures text { out.new ≡ out.old ++ list_text slot_text slots.now }
    ensures short { length out.new ≤ length out.old + 4572 }
{
    if slots.len() == 0 {
        out.put(b"-");
        return;
    }
    for i in 0..slots.len() {
        if i > 0 {
            out.put(b",");
        }
        put_slot(slots.get(i), out);
    }
}

// Appends the text of a slot: the serial number of its block, a colon and the octets. A `Bad` slot has none.
fn put_slot(slot: Slot, out: &mut Line)
    requires { length out.old + 35 ≤ 8192 }
    ensures text { out.new ≡ out.old ++ slot_text slot }
    ensures short { length out.new ≤ length out.old + 35 }
{
    if let Slot::Good(block) = slot {
        out.put_hex(&[block.serial()]);
        out.put(b":");
        out.put_hex(block.octets());
    }
}
