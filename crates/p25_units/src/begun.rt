//! The decoded parts of a data unit whose last bits have not arrived.

ghost use Rattle.std.specs.Prelude.{◌≡◌, ◌+◌, ◌≤◌, Bool, IfSome, List, length, drop, option_map};
ghost use Rattle.p25_unit_front.specs.Front.{front_fixes_of, identifier_of};
ghost use Rattle.p25_packet_blocks.specs.UnitReading.{sent_read_of};
ghost use Rattle.p25_units.specs.Begins.{IsBegun};

use p25_bch_nid::ReadNid;
use p25_bits::BitBuf;
use p25_packet_blocks::{ReadHead, read_head_at};
use p25_status::Field;
use p25_unit_front::read_front;

/// The decoded parts of the data unit at a position with a sync, so that nothing is decoded twice while its bits
/// arrive. They are its network identifier (NID) with the number of bit errors of sync and NID, or nothing yet. For a
/// packet (PDU) they are also its header with the number of bit errors of its block. Contracts state by `IsBegun` that
/// it is true of the bits from that position on.
#[derive(Clone, Copy, Debug, PartialEq, Eq)]
pub struct Begun {
    nid: Option<ReadNid>,
    head: Option<ReadHead>,
}

impl Begun {
    /// Returns the state in which nothing is decoded.
    pub fn new() -> Begun
        ensures { (bits : List Bool) → IsBegun result bits }
    {
        Begun {
            nid: None,
            head: None,
        }
    }

    // Returns the network identifier (NID) of the data unit at a position, and the number of bit errors of sync and
    // NID. Decodes it if it was not decoded before.
    pub(crate) fn identify(&mut self, bits: &BitBuf, at: usize) -> Option<ReadNid>
        requires there { at + 114 ≤ length bits.now }
        requires begun { IsBegun self.old (drop at bits.now) }
        ensures value { option_map (λ read. (read.nid.nac, read.nid.duid)) result ≡ identifier_of (drop at bits.now) }
        ensures wrong { IfSome result (λ read. read.wrong ≡ front_fixes_of (read.nid.nac, read.nid.duid) (drop at bits.now)) }
        ensures begun { IsBegun self.new (drop at bits.now) }
    {
        match self.nid {
            Some(read) => Some(read),
            None => {
                let read = read_front(bits, at);
                self.nid = read;
                read
            }
        }
    }

    // Returns the header of the packet (PDU) at a position, and the number of bit errors of its block. Decodes it if it
    // was not decoded before.
    pub(crate) fn read_head(&mut self, bits: &BitBuf, at: usize) -> Result<ReadHead, Field>
        requires there { at + 316 ≤ length bits.now }
        requires begun { IsBegun self.old (drop at bits.now) }
        ensures value { result ≡ sent_read_of (drop at bits.now) }
        ensures begun { IsBegun self.new (drop at bits.now) }
    {
        match self.head {
            Some(read) => Ok(read),
            None => {
                let read = read_head_at(bits, at)?;
                self.head = Some(read);
                Ok(read)
            }
        }
    }
}
