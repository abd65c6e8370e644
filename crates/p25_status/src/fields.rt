//! The parts of a data unit that can fail to decode.

use crate::list::BoundedList;

/// A part of a data unit that can fail to decode. The default, which fills the unused positions of a list, has no
/// meaning.
#[derive(Clone, Copy, Debug, PartialEq, Eq, Default)]
pub enum Field {
    /// The frame sync, with more than four bit errors.
    #[default]
    Sync,
    /// The network identifier (NID).
    Nid,
    /// The data unit identifier (DUID), if this toolkit does not know it.
    Duid,
    /// The header word of a header data unit (HDU).
    HeaderWord,
    /// The link control (LC) of an LDU1, voice with link control, or of a TDULC, a terminator with link control.
    LinkControl,
    /// The encryption sync (ES) of an LDU2, voice with encryption sync.
    EncryptionSync,
    /// The first low speed data (LSD) word of an LDU1 or an LDU2.
    LowSpeed1,
    /// The second low speed data (LSD) word of an LDU1 or an LDU2.
    LowSpeed2,
    /// The header block of a packet (PDU), if its CRC does not agree.
    PacketHeader,
    /// The length of a packet (PDU), if there are fewer bits than its header states.
    Length,
    /// The format of a packet (PDU), if this toolkit does not decode it.
    Format,
    /// The CRC of a whole packet (PDU).
    PacketCrc,
    /// The CRC of one block of a packet (PDU), by its index, from 0.
    Block(u8),
}

/// A list of at most 127 fields, as many as a packet has blocks.
pub type FieldList = BoundedList<Field, 127>;
