//! The types of voice data units: HDU, LDU1, LDU2, TDU and TDULC.

ghost use Rattle.std.specs.Prelude.{◌≡◌, ◌≤◌, Some};
ghost use Rattle.p25_voice_units.specs.Lengths.{voice_duid, voice_length_of};

use crate::voice::Voice;
use p25_bch_nid::{HDU, LDU1, LDU2, TDU, TDULC};
use p25_link::{EncryptionSync, HeaderWord, LinkControl};

// The number of bits without status symbols of each type: an HDU, an LDU1 or an LDU2, a TDU, and a TDULC.
const HDU_LENGTH: usize = 770;

const LDU_LENGTH: usize = 1680;

const TDU_LENGTH: usize = 140;

const TDULC_LENGTH: usize = 420;

/// A voice data unit, of one of the types HDU, LDU1, LDU2, TDU and TDULC, without its network access code (NAC) and
/// status symbols.
#[derive(Clone, Debug, Drop, PartialEq, Eq)]
pub enum VoiceUnit {
    /// HDU: a header, with which a call begins (TIA-102.BAAA, Header Data Unit).
    Header(HeaderWord),
    /// LDU1: voice with link control (TIA-102.BAAA, Logical Link Data Unit 1).
    Link1 {
        /// The link control (LC).
        link: LinkControl,
        /// The two octets of low speed data (LSD).
        low: [u8; 2],
        /// The voice frames.
        voice: Voice,
    },
    /// LDU2: voice with encryption sync (TIA-102.BAAA, Logical Link Data Unit 2).
    Link2 {
        /// The encryption sync (ES).
        sync: EncryptionSync,
        /// The two octets of low speed data (LSD).
        low: [u8; 2],
        /// The voice frames.
        voice: Voice,
    },
    /// TDU: a terminator (TIA-102.BAAA, Simple Terminator Data Unit): only nulls follow its NID.
    End,
    /// TDULC: a terminator with link control (TIA-102.BAAA, Expanded Terminator Data Unit).
    EndLink {
        /// The link control (LC).
        link: LinkControl,
    },
}

impl VoiceUnit {
    /// Returns the data unit identifier (DUID) of the data unit's type: that of HDU, LDU1, LDU2, TDU or TDULC.
    pub fn duid(&self) -> u8
        ensures value { result ≡ voice_duid self.now }
        ensures fits { result ≤ 15 }
    {
        match self {
            VoiceUnit::Header(_) => HDU,
            VoiceUnit::Link1 { .. } => LDU1,
            VoiceUnit::Link2 { .. } => LDU2,
            VoiceUnit::End => TDU,
            VoiceUnit::EndLink { .. } => TDULC,
        }
    }

    /// Returns the number of bits of the data unit without status symbols.
    #[tactic(auto, unfolding(crate::specs::Lengths::voice_length_of))]
    pub fn length(&self) -> usize
        ensures value { voice_length_of (voice_duid self.now) ≡ Some result }
        ensures most { result ≤ 1680 }
    {
        match self {
            VoiceUnit::Header(_) => HDU_LENGTH,
            VoiceUnit::Link1 { .. } | VoiceUnit::Link2 { .. } => LDU_LENGTH,
            VoiceUnit::End => TDU_LENGTH,
            VoiceUnit::EndLink { .. } => TDULC_LENGTH,
        }
    }
}

/// Returns the number of bits without status symbols of the voice data unit of a data unit identifier (DUID). It is 770
/// for an HDU (0), 1,680 for an LDU1 (5) or an LDU2 (A hex), 140 for a TDU (3), and 420 for a TDULC (F hex). `None` is
/// returned if and only if the DUID is that of no voice data unit.
#[tactic(auto, unfolding(crate::specs::Lengths::voice_length_of))]
pub fn voice_length(duid: u8) -> Option<usize>
    ensures { result ≡ voice_length_of duid }
{
    match duid {
        HDU => Some(HDU_LENGTH),
        TDU => Some(TDU_LENGTH),
        LDU1 | LDU2 => Some(LDU_LENGTH),
        TDULC => Some(TDULC_LENGTH),
        _ => None,
    }
}
