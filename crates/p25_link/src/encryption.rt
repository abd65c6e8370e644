//! The words that describe the encryption of a call: encryption sync (ES) and the header word of a header data unit
//! (HDU). Both begin with a message indicator (MI), whose nine octets are twelve symbols.

ghost use Rattle.p25_link.specs.Words.{sync_symbols, sync_of_symbols, header_symbols, header_of_symbols, AreSymbolsOf, IsEncryptionSync, IsHeaderWord, IsWordOf};

use crate::symbols::{first_octets, symbols_number, symbols_of};
use p25_gf64::Sym;

/// Encryption sync (ES): the data that a receiver needs to decrypt a call that it joins. TIA-102.BAAA, Encryption Sync
/// Word.
#[derive(Clone, Copy, Debug, PartialEq, Eq)]
pub struct EncryptionSync {
    /// The message indicator (MI).
    pub mi: [u8; 9],
    /// The algorithm (ALGID); 80 hex means unencrypted voice.
    pub algid: u8,
    /// The key (KID).
    pub kid: u16,
}

impl EncryptionSync {
    /// Returns the sixteen symbols of encryption sync (ES): those of message indicator, algorithm and key. TIA-102.BAAA,
    /// Encryption Sync Word.
    pub fn symbols(&self) -> [Sym; 16]
        ensures { AreSymbolsOf sync_symbols sync_of_symbols IsEncryptionSync 16 self.now result }
    {
        let rest = (u64::from(self.algid) << 16) + u64::from(self.kid);
        symbols_of(&self.mi, rest)
    }

    /// Returns the encryption sync (ES) whose symbols these are. TIA-102.BAAA, Encryption Sync Word.
    pub fn from_symbols(symbols: &[Sym; 16]) -> EncryptionSync
        ensures { IsWordOf sync_symbols sync_of_symbols symbols.now result }
    {
        let rest = symbols_number(&symbols[12..]);
        let algid = ((rest >> 16) % 256) as u8;
        let kid = (rest % 65536) as u16;
        let mi = first_octets(symbols);
        EncryptionSync { mi, algid, kid }
    }
}

/// The header word of a header data unit (HDU), which describes a call before its voice. TIA-102.BAAA, Header Code
/// Word.
#[derive(Clone, Copy, Debug, PartialEq, Eq)]
pub struct HeaderWord {
    /// The message indicator (MI).
    pub mi: [u8; 9],
    /// The manufacturer (MFID).
    pub mfid: u8,
    /// The algorithm (ALGID); 80 hex means unencrypted voice.
    pub algid: u8,
    /// The key (KID).
    pub kid: u16,
    /// The talk group (TGID).
    pub tgid: u16,
}

impl HeaderWord {
    /// Returns the twenty symbols of the header word of an HDU: those of message indicator, manufacturer, algorithm, key and talk
    /// group. TIA-102.BAAA, Header Code Word.
    pub fn symbols(&self) -> [Sym; 20]
        ensures { AreSymbolsOf header_symbols header_of_symbols IsHeaderWord 20 self.now result }
    {
        let rest = (u64::from(self.mfid) << 40)
            + (u64::from(self.algid) << 32)
            + (u64::from(self.kid) << 16)
            + u64::from(self.tgid);
        symbols_of(&self.mi, rest)
    }

    /// Returns the header word of an HDU whose symbols these are. TIA-102.BAAA, Header Code Word.
    pub fn from_symbols(symbols: &[Sym; 20]) -> HeaderWord
        ensures { IsWordOf header_symbols header_of_symbols symbols.now result }
    {
        let rest = symbols_number(&symbols[12..]);
        HeaderWord {
            mi: first_octets(symbols),
            mfid: ((rest >> 40) % 256) as u8,
            algid: ((rest >> 32) % 256) as u8,
            kid: ((rest >> 16) % 65536) as u16,
            tgid: (rest % 65536) as u16,
        }
    }
}
