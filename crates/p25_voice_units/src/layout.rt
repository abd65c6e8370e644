//! The positions of the parts of voice data units (HDU, LDU1, LDU2, TDU and TDULC) after sync and NID, without status
//! symbols. TIA-102.BAAA, Voice Data Units.

/// The part of a voice data unit at a position.
#[derive(Clone, Copy, Debug, PartialEq, Eq)]
pub enum Piece {
    /// Inner codewords of the data unit's coded field, one after the other: the index of the first among all, from 0,
    /// and their number.
    Words(usize, usize),
    /// The voice frame of an index, from 0.
    Frame(usize),
    /// The low speed data (LSD) word of an index, from 0.
    LowSpeed(usize),
    /// A number of nulls, which are bits 0.
    Nulls(usize),
}

/// The layout of an HDU, a header: a position, counted from the first sync bit, and the part at it. Its inner codewords
/// are those of Golay (18,6).
pub const HDU_ROWS: [(usize, Piece); 2] = [(112, Piece::Words(0, 36)), (760, Piece::Nulls(10))];

/// The layout of an LDU1 or an LDU2, voice with link control or with encryption sync. Its inner codewords are those of
/// Hamming (10,6).
pub const LDU_ROWS: [(usize, Piece); 17] = [
    (112, Piece::Frame(0)),
    (256, Piece::Frame(1)),
    (400, Piece::Words(0, 4)),
    (440, Piece::Frame(2)),
    (584, Piece::Words(4, 4)),
    (624, Piece::Frame(3)),
    (768, Piece::Words(8, 4)),
    (808, Piece::Frame(4)),
    (952, Piece::Words(12, 4)),
    (992, Piece::Frame(5)),
    (1136, Piece::Words(16, 4)),
    (1176, Piece::Frame(6)),
    (1320, Piece::Words(20, 4)),
    (1360, Piece::Frame(7)),
    (1504, Piece::LowSpeed(0)),
    (1520, Piece::LowSpeed(1)),
    (1536, Piece::Frame(8)),
];

/// The layout of a TDU, a terminator.
pub const TDU_ROWS: [(usize, Piece); 1] = [(112, Piece::Nulls(28))];

/// The layout of a TDULC, a terminator with link control. Its inner codewords are those of Golay (24,12).
pub const TDULC_ROWS: [(usize, Piece); 2] = [(112, Piece::Words(0, 12)), (400, Piece::Nulls(20))];
