//! The methods of a packet (PDU) of any format.

ghost use Rattle.std.specs.Prelude.{◌≡◌, ◌↔◌, IsTrue};
ghost use Rattle.p25_packet_blocks.specs.Whole.{packet_head, IsWholePacket};

use crate::block::Slot;
use crate::head::PacketHead;
use crate::packet::Packet;

impl Packet {
    /// Returns the header of the packet (PDU).
    pub fn head(&self) -> PacketHead
        ensures { result ≡ packet_head self.now }
    {
        match self {
            Packet::Confirmed(packet) => packet.head(),
            Packet::Plain(packet) => packet.head(),
        }
    }
}

/// Returns whether no slot of a packet (PDU) is `Bad`, which holds for each unconfirmed one.
#[tactic(auto, unfolding(crate::specs::Whole::IsWholePacket))]
pub fn is_whole(packet: &Packet) -> bool
    ensures { IsTrue result ↔ IsWholePacket packet.now }
{
    match packet {
        Packet::Confirmed(packet) => !packet.slots().as_slice().contains(&Slot::Bad),
        Packet::Plain(_) => true,
    }
}
