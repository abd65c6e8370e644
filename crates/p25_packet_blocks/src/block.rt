//! A block of a confirmed packet (PDU): its serial number and its octets.

ghost use Rattle.std.specs.Prelude.{◌≡◌, ◌<◌, length};

use p25_status::BoundedList;
use std::marker::Model;

/// A block of a confirmed packet (PDU): its serial number, at most 127, and its sixteen octets. TIA-102.BAAA, Packet Data,
/// Confirmed Data Block.
#[derive(Clone, Copy, Debug, PartialEq, Eq)]
pub struct Block {
    serial: u8,
    octets: [u8; 16],
}

impl Model for Block {
    ghost use Rattle.std.specs.Prelude.{◌<◌};
    ghost use Rattle.p25_packet_blocks.specs.Parts.{BlockParts};

    ghost Value = { BlockParts };

    ghost view = { λ block. record { serial = block.serial; octets = block.octets } };

    ghost invariant = { λ block. block.serial < 128 };

    ghost inverse = { λ parts. record { serial = parts.serial; octets = parts.octets } };
}

impl Block {
    /// Returns the block of a serial number, at most 127, and sixteen octets.
    pub fn new(serial: u8, octets: [u8; 16]) -> Block
        requires { serial < 128 }
        ensures { result ≡ record { serial = serial; octets = octets } }
    {
        Block { serial, octets }
    }

    /// Returns the serial number.
    pub fn serial(&self) -> u8
        ensures value { result ≡ self.now.serial }
        ensures below { result < 128 }
    {
        self.serial
    }

    /// Returns the sixteen octets.
    pub fn octets(&self) -> &[u8; 16]
        ensures value { result.now ≡ self.now.octets }
        ensures len { length self.now.octets ≡ 16 }
    {
        &self.octets
    }
}

/// A received block of a confirmed packet (PDU): the block, or the fact that its CRC-9 does not agree. The default,
/// which fills the unused entries of a list, has no meaning. TIA-102.BAAA, Packet Data, Confirmed Data Block.
#[derive(Clone, Copy, Debug, PartialEq, Eq, Default)]
pub enum Slot {
    /// The block.
    Good(Block),
    /// A block whose CRC-9 does not agree.
    #[default]
    Bad,
}

/// A list of at most 127 slots, one for each block to follow of a confirmed packet (PDU), in the order of transmission.
/// TIA-102.BAAA, Packet Data.
pub type Slots = BoundedList<Slot, 127>;
