//! The data unit identifiers (DUID) of the data units that the toolkit decodes. TIA-102.BAAA, Data Unit Identifier.

/// HDU: a header data unit.
pub const HDU: u8 = 0x0;

/// TDU: a terminator data unit without link control.
pub const TDU: u8 = 0x3;

/// LDU1: logical link data unit 1, voice with link control.
pub const LDU1: u8 = 0x5;

/// LDU2: logical link data unit 2, voice with encryption sync.
pub const LDU2: u8 = 0xA;

/// PDU: a packet data unit.
pub const PDU: u8 = 0xC;

/// TDULC: a terminator data unit with link control.
pub const TDULC: u8 = 0xF;
