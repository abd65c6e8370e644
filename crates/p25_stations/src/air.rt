//! The channel between the two stations: transmissions as bits, and their reception.

ghost use Rattle.std.specs.Prelude.{◌≡◌, length};
ghost use Rattle.p25_packet_blocks.specs.{Whole.{packet_head, IsWholePacket}, Heads.{head_blocks}, Lengths.{packet_sent_length}, Sendable.{IsSendable}};
ghost use Rattle.p25_stations.specs.Air.{transmission_of, with_flips, carried_of};

use crate::truth::is_true_to;
use p25_bits::BitBuf;
use p25_delivery::NAC;
use p25_messages::Flips;
use p25_packet_blocks::{Packet, packet_image, read_packet_unit};
use p25_status::{BARE_BLOCK_LENGTH, Field, Status, Statuses, weave};

/// The reception of a transmission.
#[derive(Clone, Debug, PartialEq, Eq, Drop)]
pub enum Carried {
    /// The received bits are not a decodable packet (PDU): the first field that fails.
    Lost(Field),
    /// They decode to a packet (PDU) with another network access code (NAC).
    Foreign,
    /// They decode to a packet (PDU) for the stations, which is true to the transmitted one or a false pass (an
    /// undetected error).
    Heard { packet: Packet, false_pass: bool },
}

/// Writes to `out` the data unit of a packet (PDU) as a station transmits it, from its sync on. It has the network
/// access code (NAC) 293 hex and the status symbol 00 throughout. It requires that no slot of the packet is `Bad`.
pub fn transmit(packet: &Packet, out: &mut BitBuf)
    requires { IsWholePacket packet.now }
    ensures bits { out.new ≡ transmission_of packet.now }
    ensures len { length out.new ≡ packet_sent_length (head_blocks (packet_head packet.now)) }
    ensures sendable { IsSendable packet.now }
{
    let mut bare = BitBuf::new();
    packet_image(NAC, packet, &mut bare);
    let statuses = Statuses::filled(Status::default(), bare.len() / BARE_BLOCK_LENGTH);
    weave(&bare, &statuses, out);
}

// Inverts the bits at some positions; a position past the end inverts nothing.
fn invert(bits: &mut BitBuf, flips: &Flips)
    ensures bits { bits.new ≡ with_flips bits.old flips.now }
    ensures len { length bits.new ≡ length bits.old }
{
    for i in 0..flips.len() {
        let place = usize::from(flips.get(i));
        if place < bits.len() {
            bits.flip(place);
        }
    }
}

/// Returns the reception of a transmitted packet (PDU) with the bits at some positions of its data unit inverted; a
/// position past the end of the data unit inverts nothing. It requires that no slot of the packet is `Bad`. `Lost` is
/// returned if and only if `read_packet_unit` refuses the bits, and with its field. `Foreign` is returned if and only
/// if they decode to a packet with another network access code (NAC). A received packet is a false pass if its header
/// differs from the transmitted one, or a `Good` slot from the block transmitted there, or the octets of an unconfirmed
/// one.
pub fn carry(packet: &Packet, flips: &Flips) -> Carried
    requires { IsWholePacket packet.now }
    ensures { result ≡ carried_of packet.now flips.now }
{
    let mut bits = BitBuf::new();
    transmit(packet, &mut bits);
    invert(&mut bits, flips);
    match read_packet_unit(&bits) {
        Err(field) => Carried::Lost(field),
        Ok((nac, _)) if nac != NAC => Carried::Foreign,
        Ok((_, heard)) => {
            let false_pass = !is_true_to(packet, &heard);
            Carried::Heard {
                packet: heard,
                false_pass,
            }
        }
    }
}
