//! Whether a delivery is a false pass: the received packet beside the transmitted one.

#![tactic(auto, unfolding(crate::specs::Air::is_true_slot, crate::specs::Air::are_true_slots, crate::specs::Air::is_true_to))]

ghost use Rattle.std.specs.Prelude.{◌≡◌};
ghost use Rattle.p25_stations.specs.Air.{is_true_slot, are_true_slots, is_true_to};

use p25_packet_blocks::{Packet, Slot, Slots};

// Returns whether a slot is `Bad`, or holds the same block as the transmitted one.
fn is_true_slot(sent: Slot, heard: Slot) -> bool
    ensures { result ≡ is_true_slot sent heard }
{
    heard == Slot::Bad || heard == sent
}

// Returns whether each slot is.
fn are_true_slots(sent: &Slots, heard: &Slots) -> bool
    ensures { result ≡ are_true_slots sent.now heard.now }
{
    if sent.len() != heard.len() {
        return false;
    }
    for i in 0..sent.len() {
        if !is_true_slot(sent.get(i), heard.get(i)) {
            return false;
        }
    }
    true
}

// Returns whether a decoded packet (PDU) has the header of the transmitted one, and the same octets, or slots each of
// which is `Bad` or holds the same block.
pub(crate) fn is_true_to(sent: &Packet, heard: &Packet) -> bool
    ensures { result ≡ is_true_to sent.now heard.now }
{
    match (sent, heard) {
        (Packet::Confirmed(sent), Packet::Confirmed(heard)) => {
            sent.head() == heard.head() && are_true_slots(sent.slots(), heard.slots())
        }
        (Packet::Plain(sent), Packet::Plain(heard)) => sent == heard,
        _ => false,
    }
}
