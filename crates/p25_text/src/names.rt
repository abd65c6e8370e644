//! The types of unit lines, and their keys.

ghost use Rattle.std.specs.Prelude.{◌≡◌, ◌<◌, ◌≤◌, length};
ghost use Rattle.p25_text.specs.Names.{key_text, keys_of, kind_named, kind_word};

/// A type of unit line.
#[derive(Clone, Copy)]
pub enum UnitKind {
    /// A header data unit (HDU).
    Hdu,
    /// An LDU1: voice with link control.
    Ldu1,
    /// An LDU2: voice with encryption sync.
    Ldu2,
    /// A TDU: a terminator without link control.
    Tdu,
    /// A TDULC: a terminator with link control.
    Tdulc,
    /// A packet (PDU) whose blocks are confirmed one by one.
    Confirmed,
    /// An unconfirmed packet (PDU).
    Plain,
    /// A response to a packet (PDU).
    Response,
}

/// A key of a unit line.
#[derive(Clone, Copy)]
pub enum UnitKey {
    /// The network access code (NAC).
    Nac,
    /// The message indicator (MI), of an HDU or of encryption sync (ES).
    Mi,
    /// The manufacturer (MFID).
    Mfid,
    /// The algorithm (ALGID), of an HDU or of encryption sync (ES).
    Algid,
    /// The key of a cipher (KID), of an HDU or of encryption sync (ES).
    Kid,
    /// The talk group (TGID).
    Tgid,
    /// The octets of link control (LC).
    Lc,
    /// The two octets of low speed data (LSD).
    Lsd,
    /// The octets of the nine voice frames of an LDU1 or an LDU2.
    Frames,
    /// The octets of the header of a packet (PDU).
    Head,
    /// The blocks to follow of a confirmed packet (PDU).
    Blocks,
    /// The octets of another packet (PDU) before its packet CRC.
    Octets,
}

// All types.
const KINDS: [UnitKind; 8] = [
    UnitKind::Hdu,
    UnitKind::Ldu1,
    UnitKind::Ldu2,
    UnitKind::Tdu,
    UnitKind::Tdulc,
    UnitKind::Confirmed,
    UnitKind::Plain,
    UnitKind::Response,
];

impl UnitKind {
    /// Returns the type that a word names. `None` is returned if and only if it names none.
    pub fn named(word: &[u8]) -> Option<UnitKind>
        ensures { result ≡ kind_named word.now }
    {
        KINDS.iter().copied().find(|kind| word == kind.word())
    }

    /// Returns the word that begins a line of this type.
    pub fn word(self) -> &'static [u8]
        ensures text { result.now ≡ kind_word self }
        ensures short { length result.now ≤ 9 }
    {
        match self {
            UnitKind::Hdu => b"hdu",
            UnitKind::Ldu1 => b"ldu1",
            UnitKind::Ldu2 => b"ldu2",
            UnitKind::Tdu => b"tdu",
            UnitKind::Tdulc => b"tdulc",
            UnitKind::Confirmed => b"confirmed",
            UnitKind::Plain => b"plain",
            UnitKind::Response => b"response",
        }
    }

    /// Returns the keys of this type, in their order.
    pub fn keys(self) -> &'static [UnitKey]
        ensures keys { result.now ≡ keys_of self }
        ensures few { length result.now ≤ 6 }
        ensures some { 0 < length result.now }
    {
        match self {
            UnitKind::Hdu => &[
                UnitKey::Nac,
                UnitKey::Mi,
                UnitKey::Mfid,
                UnitKey::Algid,
                UnitKey::Kid,
                UnitKey::Tgid,
            ],
            UnitKind::Ldu1 => &[UnitKey::Nac, UnitKey::Lc, UnitKey::Lsd, UnitKey::Frames],
            UnitKind::Ldu2 => &[
                UnitKey::Nac,
                UnitKey::Mi,
                UnitKey::Algid,
                UnitKey::Kid,
                UnitKey::Lsd,
                UnitKey::Frames,
            ],
            UnitKind::Tdu => &[UnitKey::Nac],
            UnitKind::Tdulc => &[UnitKey::Nac, UnitKey::Lc],
            UnitKind::Confirmed => &[UnitKey::Nac, UnitKey::Head, UnitKey::Blocks],
            UnitKind::Plain => &[UnitKey::Nac, UnitKey::Head, UnitKey::Octets],
            UnitKind::Response => &[UnitKey::Nac, UnitKey::Head, UnitKey::Octets],
        }
    }
}

impl UnitKey {
    /// Returns the key as it is before its value.
    pub fn text(self) -> &'static [u8]
        ensures text { result.now ≡ key_text self }
        ensures short { length result.now ≤ 7 }
    {
        match self {
            UnitKey::Nac => b"nac=",
            UnitKey::Mi => b"mi=",
            UnitKey::Mfid => b"mfid=",
            UnitKey::Algid => b"algid=",
            UnitKey::Kid => b"kid=",
            UnitKey::Tgid => b"tgid=",
            UnitKey::Lc => b"lc=",
            UnitKey::Lsd => b"lsd=",
            UnitKey::Frames => b"voice=",
            UnitKey::Head => b"head=",
            UnitKey::Blocks => b"blocks=",
            UnitKey::Octets => b"octets=",
        }
    }
}
