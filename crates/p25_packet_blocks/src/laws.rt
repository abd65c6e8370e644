//! The image of a packet (PDU) by its positions, and the decoding of received bits within the correction radius of it.
//! Each function states what is proved, and calls no function but the theorems that it needs.

ghost use Rattle.std.specs.Prelude.{◌≡◌, ℕ, ◌↔◌, Bool, List, Ok};
ghost use Rattle.p25_packet_blocks.specs.{declared.packet.Packet.{Packet as packet_type}, Image.{packet_image_of}, Sendable.{IsSendable}};
ghost use Rattle.p25_packet_blocks.specs.{Places.{IsPacketImage}, Reading.{packet_reading_of}, Within.{AreBlocksWithin, IsPacketWithin, IsSending, sent_unit}};
ghost use Rattle.p25_packet_blocks.specs.UnitReading.{packet_unit_of};
ghost use Rattle.p25_status.specs.declared.symbols.Status.{Status as status_type};

use crate::{BLOCK_LENGTH, BLOCKS_AT, CONFIRMED_FORMAT, HEADER_AT, PLAIN_FORMAT, RESPONSE_FORMAT};
use p25_trellis::laws::{half_rate_near, three_quarter_rate_near};

/// **Theorem.** Bits are the image of a sendable packet if and only if they meet `IsPacketImage`. So each such packet
/// has exactly one image.
pub fn one_image()
    ensures { (nac : ℕ) (packet : packet_type) (bits : List Bool)
        → IsSendable packet → IsPacketImage nac packet bits ↔ (bits ≡ packet_image_of nac packet) }
{}

/// **Theorem.** The laws of damaged packets (PDU).
///
/// - `plain`: take a data unit without status symbols that has at most two bit errors in the header block and in each
///   half-rate block, and at most one in each three-quarter-rate block. It decodes to the packet.
/// - `sent`: take a transmitted data unit with no more bit errors than those, at most four in the sync and at most
///   eleven in the NID. It decodes to the network access code and the packet, whatever its status symbols are.
/// - `undamaged`: a transmitted data unit decodes to its network access code and packet.
pub fn packet_radius()
    ensures plain { (nac : ℕ) (packet : packet_type) (received : List Bool)
        → IsSendable packet → AreBlocksWithin packet (packet_image_of nac packet) received
        → packet_reading_of received ≡ Ok packet }
    ensures sent { (nac : ℕ) (packet : packet_type) (statuses : List status_type) (received : List Bool)
        → IsSending nac packet statuses → IsPacketWithin packet (sent_unit nac packet statuses) received
        → packet_unit_of received ≡ Ok (nac, packet) }
    ensures undamaged { (nac : ℕ) (packet : packet_type) (statuses : List status_type)
        → IsSending nac packet statuses → packet_unit_of (sent_unit nac packet statuses) ≡ Ok (nac, packet) }
{
    half_rate_near();
    three_quarter_rate_near();
}

/// **Theorem.** The formats of packets (PDU) as numbers, and the positions of the header block and of the blocks to
/// follow: those of the definitions.
pub fn numbers()
    ensures confirmed { CONFIRMED_FORMAT ≡ 0x16 }
    ensures plain { PLAIN_FORMAT ≡ 0x15 }
    ensures response { RESPONSE_FORMAT ≡ 0x03 }
    ensures header { HEADER_AT ≡ 112 }
    ensures blocks { BLOCKS_AT ≡ 308 }
    ensures block { BLOCK_LENGTH ≡ 196 }
{}
