//! Numbers below 0
//!
//! A call that has no count, no item and no value to return returns one of these numbers, and then writes nothing.

// Each number has its word before the colon: `p25_answer_name` returns it, and the errors of the package for Python have it. Some calls on
// codewords return other numbers below 0, which are explained beside them.

/// outside: the octets that are given do not have what the call needs, or the numbers of a struct fit none
pub(crate) const OUTSIDE: i32 = -1;

/// room: the buffer is too small for the octets to write
pub(crate) const NO_ROOM: i32 = -2;

/// unit: the octets have no such data unit at that position
pub(crate) const NO_UNIT: i32 = -3;

/// nac: the network access code (NAC) is above 4095
pub(crate) const WRONG_NAC: i32 = -4;

/// status: the status symbol is above 3
pub(crate) const WRONG_STATUS: i32 = -5;

/// finished: the stream has ended
pub(crate) const ENDED: i32 = -6;

/// dibits: dibits wait for their octet, and octets come
pub(crate) const DIBITS_WAIT: i32 = -7;

/// duid: no voice unit has this data unit identifier (DUID)
pub(crate) const WRONG_DUID: i32 = -8;

/// packet: the struct contains no packet that can be transmitted
pub(crate) const WRONG_PACKET: i32 = -9;

/// long: the line has more than 8,192 octets
pub(crate) const LINE_LONG: i32 = -11;

/// form: the line is not words of octets 21 to 7E hex with single spaces between them
pub(crate) const LINE_FORM: i32 = -12;

/// kind: the first word of the line names no type of data unit
pub(crate) const LINE_KIND: i32 = -13;

/// key: the line has too few or too many words, or a key that is not the next one of its type
pub(crate) const LINE_KEY: i32 = -14;

/// value: a value of the line does not have its form, or values do not fit each other
pub(crate) const LINE_VALUE: i32 = -15;

/// header: the CRC of the packet header does not agree
pub(crate) const PACKET_HEADER: i32 = -21;

/// cut: by its header the packet has more bits than there are
pub(crate) const PACKET_CUT: i32 = -22;

/// format: the format of the packet is none of the three
pub(crate) const PACKET_FORMAT: i32 = -23;

/// crc: the packet CRC does not agree
pub(crate) const PACKET_CRC: i32 = -24;
